// Loading a map.
ghost use Rattle.std.specs.Prelude.{◌≡◌};
ghost use Rattle.registry.specs.Calls.{words_mut, SameSlices};
ghost use Rattle.map_loading.specs.Loading.{loading, load_of};

use crate::error::LoadError;
use crate::records;
use map_file::file::MapFile;
use registry::checked::CheckedMut;
use registry::store::StoreMut;

// Of a store that has passed the tests of 1 and 2: 19, 18, then the records.
fn load_checked(store: &mut CheckedMut<'_, '_>, map: &[u8]) -> Result<(), LoadError>
    ensures same { store.new.store.ghost_name ≡ store.old.store.ghost_name }
    ensures slices { SameSlices store.old.store.now store.new.store.now }
    ensures outcome { loading result store.new.store.now ≡ load_of (words_mut store.old.store.now) map.now }
{
    if !store.as_ref().is_empty() {
        return Err(LoadError::StoreInUse);
    }
    let file = MapFile::parse(map)?;
    records::add_records(store, file)
}

// Adds each record of the file as a static frame to a store that holds none, or says why not and leaves every word.
pub fn load_map(store: &mut StoreMut<'_>, map: &[u8]) -> Result<(), LoadError>
    ensures same { SameSlices store.old store.new }
    ensures outcome { loading result store.new ≡ load_of (words_mut store.old) map.now }
{
    store.as_ref().check()?;
    load_checked(&mut CheckedMut { store }, map)
}
