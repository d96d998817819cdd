// What is said of a file by its form, which is a head of seven bytes, then the records, and nothing behind them.
ghost use Rattle.std.specs.Prelude.{◌≡◌};
ghost use Rattle.time.specs.Reply.{reply_by};
ghost use Rattle.map_file.specs.Form.{record_count};
ghost use Rattle.map_file.specs.Answers.{refusal_of};

use crate::file::MapFile;
use thiserror::Error;

// The mark, the version and the count.
pub const HEAD_BYTES: usize = 7;

// The file does not have the form.
#[derive(Clone, Copy, Debug, PartialEq, Eq, Error)]
#[error("this is no map file, or it is damaged")]
pub struct FormError;

// How many records the file has.
#[tactic(auto, unfolding(crate::specs::Form::record_count))]
pub fn records(map: &[u8]) -> Result<u32, FormError>
    ensures { reply_by refusal_of result ≡ record_count map.now }
{
    Ok(MapFile::parse(map)?.count())
}
