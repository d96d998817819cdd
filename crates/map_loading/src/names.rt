// The names that have numbers so far: the number of a name is how many have one before it.
ghost use Rattle.std.specs.Prelude.{◌≡◌, ◌≤◌, ◌<◌, length};
ghost use Rattle.map_file.specs.Book.{numbered, position};

use registry::limits;

// As many names as the frames of a full store, and two more.
pub(crate) const MOST_NAMES: usize = 2 * limits::MOST_ROWS as usize + 2;

// The first `count` of a table. (An `ArrayVec` is copied by `memcpy` when it is made, which the library for C does not want
// from outside.)
#[derive(Drop)]
pub(crate) struct NumberedNames<'t, 'a> {
    pub(crate) table: &'t mut [&'a [u8]],
    pub(crate) count: usize,
    ghost whole: { length table.now ≡ 514 },
    ghost few: { count ≤ 514 },
}

impl<'a> NumberedNames<'_, 'a> {
    ghost use Rattle.map_loading.specs.Numbering.{names_of};

    // The number of a name, the next one where it has none.
    pub(crate) fn number(&mut self, name: &'a [u8]) -> u32
        requires { length (names_of self.old) < 514 }
        ensures number { result ≡ position name.now (names_of self.old) }
        ensures names { names_of self.new ≡ numbered (names_of self.old) name.now }
    {
        let count = self.count;
        let table = &mut *self.table;
        match table[..count].iter().position(|known| name == *known) {
            Some(number) => number as u32,
            None => {
                table[count] = name;
                self.count += 1;
                count as u32
            }
        }
    }
}
