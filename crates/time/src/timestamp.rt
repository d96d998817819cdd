// Differences of instants, from src/time/timestamp/mod.rs. Only differences are formed.
ghost use Rattle.std.specs.Prelude.{◌≡◌};
ghost use Rattle.time.specs.Answers.{refusal_of};
ghost use Rattle.time.specs.Reply.{reply_by};
ghost use Rattle.time.specs.Timestamp.{duration_since, as_secs_f64, share};

use super::error::TimeError;
use std::time::Duration;

// The nanoseconds from the earlier instant to the later one.
pub fn duration_since(later: u64, earlier: u64) -> Result<u64, TimeError>
    ensures { reply_by refusal_of result ≡ duration_since later earlier }
{
    later
        .checked_sub(earlier)
        .ok_or(TimeError::DurationUnderflow)
}

// The seconds of a difference: the whole seconds, and the nanoseconds left over 1e9.
pub fn as_secs_f64(nanos: u64) -> f64
    ensures { result ≡ as_secs_f64 nanos }
{
    Duration::from_nanos(nanos).as_secs_f64()
}

// Where a query lies in the interval of two instants; None where both are one.
#[tactic(auto, unfolding(crate::specs::Timestamp::share))]
pub fn share(from: u64, to: u64, query: u64) -> Result<Option<f64>, TimeError>
    ensures { reply_by refusal_of result ≡ share from to query }
{
    let span = duration_since(to, from)?;
    if span == 0 {
        return Ok(None);
    }
    let elapsed = duration_since(query, from)?;
    Ok(Some(as_secs_f64(elapsed) / as_secs_f64(span)))
}
