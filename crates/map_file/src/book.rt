// The book of a file's names: a name's number is how many other names first appear before it does.
ghost use Rattle.std.specs.Prelude.{◌≡◌, ◌+◌, ◌^◌, ◌<◌, length};
ghost use Rattle.std.specs.Iterator.Adapters.{enumerate_source, enumerate_count};
ghost use Rattle.time.specs.Reply.{reply_by};
ghost use Rattle.map_file.specs.Book.{frame_in, part_in};
ghost use Rattle.map_file.specs.Book.{name_in as Book·name_in};
ghost use Rattle.map_file.specs.Answers.{refusal_of, name_read, part_read, handed_back};
ghost use Rattle.map_file.specs.walks.Names.{placed, names_left};

use crate::file::MapFile;
use crate::form::FormError;
use crate::names::Names;
use crate::record::Name;
use std::iter::Enumerate;

// The names that are left, each where it first appears.
#[derive(Drop)]
pub(crate) struct Book<'a> {
    pub(crate) all: Names<'a>,
    pub(crate) left: Enumerate<Names<'a>>,
    ghost counted: { enumerate_count left + length (names_left (enumerate_source left)) < 2 ^ 64 },
}

impl<'a> Iterator for Book<'a> {
    ghost use Rattle.std.specs.Iterator.{YieldsFirstBy, item_count};
    ghost use Rattle.map_file.specs.walks.Books.{book_left};

    type Item = Name<'a>;

    ghost next_gives = { YieldsFirstBy placed book_left };

    ghost remaining = { item_count book_left };

    fn next(&mut self) -> Option<Name<'a>> {
        let all = self.all;
        self.left
            .find(|&(passed, name)| !all.has_among(passed, name.bytes))
            .map(|(_, name)| name)
    }
}

// The number of a name.
#[tactic(auto, unfolding(crate::specs::Book::frame_in))]
pub fn frame_of(map: &[u8], name: &[u8]) -> Result<Option<u32>, FormError>
    ensures { reply_by refusal_of result ≡ frame_in map.now name.now }
{
    Ok(MapFile::parse(map)?.frame_of(name))
}

// The name with a number, where it first appears.
#[tactic(auto, unfolding(crate::specs::Book::name_in, crate::specs::Book::part_in))]
pub fn name_of(map: &[u8], frame: u32) -> Result<Option<Name<'_>>, FormError>
    ensures name { name_read result ≡ Book·name_in map.now frame }
    ensures part { part_read result ≡ part_in map.now frame }
{
    Ok(MapFile::parse(map)?.name_of(frame))
}

// Its bytes; none where the file does not give the number or does not have the form.
// A slice and no Option, for callers that cannot fail: a name has at least one byte.
pub fn name(map: &[u8], frame: u32) -> &[u8]
    ensures { result.now ≡ handed_back (Book·name_in map.now frame) }
{
    match name_of(map, frame) {
        Ok(Some(name)) => name.bytes,
        _ => &[],
    }
}
