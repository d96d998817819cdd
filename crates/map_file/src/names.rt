// The names of a map file, in its order: "child before parent". By an iterator of their own and no `flat_map`: it is
// copied to look back at the names before, and `names_left` says what is left.
ghost use Rattle.std.specs.Prelude.{◌≡◌, take, map};
ghost use Rattle.std.specs.Iterator.{YieldsFirstBy, item_count};
ghost use Rattle.map_file.specs.Book.{among};
ghost use Rattle.map_file.specs.walks.Names.{placed, names_left};

use crate::record::Name;
use crate::records::Records;

// The names that are left.
#[derive(Clone, Copy)]
pub(crate) struct Names<'a> {
    pub(crate) records: Records<'a>,
    pub(crate) parent: Option<Name<'a>>,
}

impl<'a> Iterator for Names<'a> {
    type Item = Name<'a>;

    ghost next_gives = { YieldsFirstBy placed names_left };

    ghost remaining = { item_count names_left };

    fn next(&mut self) -> Option<Name<'a>> {
        if let Some(parent) = self.parent.take() {
            return Some(parent);
        }
        let record = self.records.next()?;
        self.parent = Some(record.parent);
        Some(record.child)
    }
}

impl Names<'_> {
    // Whether a name is one of the first `count` of these.
    pub(crate) fn has_among(self, count: usize, name: &[u8]) -> bool
        ensures { result ≡ among name.now (map (λ n. n.1) (take count (names_left self.entry))) }
    {
        self.take(count).any(|here| name == here.bytes)
    }
}
