// The records of a file, added one by one to a store that has passed the tests of 1 and 2.
ghost use Rattle.std.specs.Prelude.{[], ◌≡◌, true, ◌+◌, ◌≤◌, length};
ghost use Rattle.buffer.specs.Row.{FloatsFit};
ghost use Rattle.registry.specs.Tree.{holds_no_frame, add};
ghost use Rattle.registry.specs.Store.{tree_of, limits_of};
ghost use Rattle.registry.specs.Calls.{outcome_of, written, words_mut, SameSlices};
ghost use Rattle.map_file.specs.Reads.{record_of};
ghost use Rattle.map_file.specs.Files.{records_of};
ghost use Rattle.map_loading.specs.Loading.{loading, additions, add_all};
ghost use Rattle.map_loading.specs.Numbering.{names_of, names_after, addition_after};

use crate::error::LoadError;
use crate::names::{MOST_NAMES, NumberedNames};
use map_file::file::MapFile;
use map_file::record::Record;
use registry::checked::CheckedMut;
use registry::error::RegistryError;
use time::stamp::Stamp;

// Adds a record as a static frame.
fn add_record<'a>(
    store: &mut CheckedMut<'_, '_>,
    names: &mut NumberedNames<'_, 'a>,
    added: &Record<'a>,
) -> Result<(), RegistryError>
    requires { length (names_of names.old) + 2 ≤ 514 }
    ensures same { store.new.store.ghost_name ≡ store.old.store.ghost_name }
    ensures slices { SameSlices store.old.store.now store.new.store.now }
    ensures outcome { outcome_of result store.new.store.now
        ≡ (let s = words_mut store.old.store.now in
        written s (limits_of s) (add (limits_of s) (tree_of s) (addition_after (names_of names.old) (record_of added.now)))) }
    ensures names { names_of names.new ≡ names_after (names_of names.old) (record_of added.now) }
{
    let child = names.number(added.child.bytes);
    let parent = names.number(added.parent.bytes);
    store.add_transform(child, parent, Stamp::Static, added.pose())
}

// Adds the records to a store that holds no frame, with no name numbered so far, until one is refused, and then leaves the
// store as found.
fn add_each<'a>(
    store: &mut CheckedMut<'_, '_>,
    names: &mut NumberedNames<'_, 'a>,
    file: MapFile<'a>,
) -> Result<(), LoadError>
    requires empty { holds_no_frame (tree_of (words_mut store.old.store.now)) ≡ true }
    requires floats { FloatsFit store.old.store.now.poses.now }
    requires unnamed { names_of names.old ≡ [] }
    ensures same { store.new.store.ghost_name ≡ store.old.store.ghost_name }
    ensures slices { SameSlices store.old.store.now store.new.store.now }
    ensures outcome { loading result store.new.store.now
        ≡ (let s = words_mut store.old.store.now in add_all s 0 s (additions (records_of file.entry))) }
{
    for (k, record) in file.records().enumerate() {
        if let Err(error) = add_record(store, names, &record) {
            store.clear();
            return Err(LoadError::Record(k as u32, error));
        }
    }
    Ok(())
}

// The same, with a table for the names.
pub(crate) fn add_records(
    store: &mut CheckedMut<'_, '_>,
    file: MapFile<'_>,
) -> Result<(), LoadError>
    requires empty { holds_no_frame (tree_of (words_mut store.old.store.now)) ≡ true }
    requires floats { FloatsFit store.old.store.now.poses.now }
    ensures same { store.new.store.ghost_name ≡ store.old.store.ghost_name }
    ensures slices { SameSlices store.old.store.now store.new.store.now }
    ensures outcome { loading result store.new.store.now
        ≡ (let s = words_mut store.old.store.now in add_all s 0 s (additions (records_of file.entry))) }
{
    let mut table: [&[u8]; MOST_NAMES] = [&[]; MOST_NAMES];
    let mut names = NumberedNames {
        table: &mut table,
        count: 0,
    };
    add_each(store, &mut names, file)
}
