// The records of a map file, one behind the other.
ghost use Rattle.std.specs.Prelude.{◌≡◌, true, is_some, option_map, IfSome, ⊤};
ghost use Rattle.map_file.specs.Form.{times, record_from};

use crate::record::{Record, Rest};

// The records that are left.
#[derive(Clone, Copy)]
pub struct Records<'a> {
    pub(crate) rest: Rest<'a>,
    pub(crate) left: u16,
    ghost formed: { is_some (times left record_from rest.bytes.now) ≡ true },
}

impl<'a> Iterator for Records<'a> {
    ghost use Rattle.std.specs.Iterator.{YieldsFirstBy, item_count, MakesProgress};
    ghost use Rattle.map_file.specs.Reads.{record_of};
    ghost use Rattle.map_file.specs.Files.{records_left};
    ghost use Rattle.map_file.specs.walks.Rests.{NextPlaced};

    type Item = Record<'a>;

    ghost next_gives = { YieldsFirstBy record_of records_left };

    ghost remaining = { item_count records_left };

    fn next(&mut self) -> Option<Record<'a>>
        ensures steps { YieldsFirstBy record_of records_left self.old result self.new }
        ensures goes { MakesProgress (λ _. ⊤) (item_count records_left) self.old result self.new }
        ensures places { IfSome result (λ r. NextPlaced self.old r self.new) }
    {
        let left = self.left.checked_sub(1)?;
        let (record, rest) = self.rest.record().unwrap();
        self.left = left;
        self.rest = rest;
        Some(record)
    }
}

impl<'a> Records<'a> {
    ghost use Rattle.map_file.specs.walks.Rests.{records_read};

    // So many records, if they have their form, and what stands behind them.
    #[tactic(auto, using(crate::proofs::Steps::behind_one))]
    pub(crate) fn split(first: Rest<'a>, left: u16) -> Option<(Records<'a>, Rest<'a>)>
        ensures read { option_map records_read result ≡ times left record_from first.entry.bytes.now }
        ensures place { IfSome result (λ p. p.0.rest.start ≡ first.entry.start) }
    {
        let mut rest = first;
        for _ in 0..left {
            (_, rest) = rest.record()?;
        }
        Some((Records { rest: first, left }, rest))
    }
}
