// A map file that has passed the test of its form.
ghost use Rattle.std.specs.Prelude.{◌≡◌, ◌^◌, ◌<◌, option_map, length};
ghost use Rattle.std.specs.Result.{result_ok};
ghost use Rattle.map_file.specs.Form.{records};
ghost use Rattle.map_file.specs.Book.{frame_of, name_of, part_of};
ghost use Rattle.map_file.specs.Reads.{bytes_of, part_at};

use crate::book::Book;
use crate::form::{FormError, HEAD_BYTES};
use crate::names::Names;
use crate::record::{Name, Rest};
use crate::records::Records;

// The mark, and the version 1.
const MARK_AND_VERSION: &[u8] = b"FRM\x01\x00";

// Its records, which begin behind the head.
#[derive(Clone, Copy)]
pub struct MapFile<'a> {
    records: Records<'a>,
    ghost at_head: { records.rest.start ≡ 7 },
}

impl<'a> MapFile<'a> {
    ghost use Rattle.map_file.specs.Files.{records_left, next_at, records_of};
    ghost use Rattle.map_file.specs.walks.Books.{book_left, book_from};

    #[tactic(auto, using(crate::proofs::Heads::unmarked, crate::proofs::Heads::uncounted, crate::proofs::Heads::unread, crate::proofs::Heads::left_over, crate::proofs::Heads::all_read))]
    fn read(map: &'a [u8]) -> Option<MapFile<'a>>
        ensures { option_map records_of result ≡ records map.now }
    {
        let body = map.strip_prefix(MARK_AND_VERSION)?;
        let (count, bytes) = body.split_first_chunk::<2>()?;
        let first = Rest {
            start: HEAD_BYTES,
            bytes,
        };
        let (records, rest) = Records::split(first, u16::from_le_bytes(*count))?;
        if !rest.bytes.is_empty() {
            return None;
        }
        Some(MapFile { records })
    }

    // The file, if it has the form.
    pub fn parse(map: &'a [u8]) -> Result<MapFile<'a>, FormError>
        ensures { option_map records_of (result_ok result) ≡ records map.now }
    {
        Self::read(map).ok_or(FormError)
    }

    // How many records it has.
    #[tactic(auto, using(crate::proofs::Placed::all_counted))]
    pub fn count(&self) -> u32
        ensures { result ≡ length (records_of self.now) }
    {
        u32::from(self.records.left)
    }

    // Its records, the first of which begins behind the head.
    pub fn records(&self) -> Records<'a>
        ensures left { records_left result ≡ records_of self.now }
        ensures place { next_at result ≡ 7 }
    {
        self.records
    }

    // The names by their numbers.
    #[tactic(auto, using(crate::proofs::Placed::book_first, crate::proofs::Placed::few_placed, crate::proofs::InBook::few_firsts))]
    fn book(self) -> Book<'a>
        ensures names { book_left result ≡ book_from (records_of self.entry) }
        ensures few { length (book_left result) < 2 ^ 32 }
    {
        let all = Names {
            records: self.records,
            parent: None,
        };
        Book {
            all,
            left: all.enumerate(),
        }
    }

    // The number of a name.
    pub fn frame_of(&self, name: &[u8]) -> Option<u32>
        ensures { result ≡ frame_of (records_of self.now) name.now }
    {
        let frame = self.book().position(|here| name == here.bytes)?;
        Some(frame as u32)
    }

    // The name with a number, where it first appears.
    pub fn name_of(&self, frame: u32) -> Option<Name<'a>>
        ensures name { option_map bytes_of result ≡ name_of (records_of self.now) frame }
        ensures part { option_map part_at result ≡ option_map (part_of (records_of self.now)) (name_of (records_of self.now) frame) }
    {
        self.book().nth(frame as usize)
    }
}
