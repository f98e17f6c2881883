//! Results of multi-blind.

ghost use Rattle.std.specs.Prelude.{◌≡◌, ◌≤◌, IfOk, IfSome, codes};
ghost use Rattle.scorecard.specs.Reading.{filled_seconds, seconds_after, number_of};
ghost use Rattle.scorecard.specs.Reading.{whole_seconds_of, multi_of};

use crate::digits::{number_of, pair_of};
use crate::fault::ScorecardFault;
use texts::{Entered, cut, number_between};

/// The seconds of a time of digits alone: they fill a clock of minutes and seconds from the right.
fn filled_seconds(bytes: &[u8]) -> Result<u16, ScorecardFault>
    ensures value { result ≡ filled_seconds (number_of 4 bytes.now) }
    ensures small { IfOk result (λ time. time ≤ 5999) }
{
    let number = number_of(4, bytes).ok_or(ScorecardFault::NotAResult)?;
    let seconds = number % 100;
    if number >= 100 && seconds >= 60 {
        Err(ScorecardFault::BadSeconds)
    } else {
        Ok((60 * (number / 100) + seconds) as u16)
    }
}

/// The seconds of a time of minutes and seconds.
fn seconds_after(seconds: u32, bytes: &[u8]) -> Result<u16, ScorecardFault>
    requires { seconds ≤ 99 }
    ensures value { result ≡ seconds_after seconds (number_of 2 bytes.now) }
    ensures small { IfOk result (λ time. time ≤ 5999) }
{
    let minutes = number_of(2, bytes).ok_or(ScorecardFault::NotAResult)?;
    if seconds >= 60 {
        Err(ScorecardFault::BadSeconds)
    } else {
        Ok((60 * minutes + seconds) as u16)
    }
}

/// The seconds of a time, 0 to 5,999.
#[tactic(auto, unfolding(crate::specs::Reading::whole_seconds_of))]
fn whole_seconds_of(bytes: &[u8]) -> Result<u16, ScorecardFault>
    ensures value { result ≡ whole_seconds_of bytes.now }
    ensures small { IfOk result (λ time. time ≤ 5999) }
{
    match pair_of(b":", bytes) {
        None => filled_seconds(bytes),
        Some((minutes, seconds)) => seconds_after(seconds, minutes),
    }
}

/// Cubes solved of those attempted, in this many seconds.
#[tactic(auto, unfolding(crate::specs::Reading::multi_of))]
pub fn multi_of(bytes: &[u8]) -> Result<Entered, ScorecardFault>
    ensures { result ≡ multi_of bytes.now }
{
    let (solved, rest) = cut(bytes, b'/');
    let solved = number_between(0, 99, solved).ok_or(ScorecardFault::NotAResult)? as u8;
    let (attempted, clock) = cut(rest.ok_or(ScorecardFault::NotAResult)?, b' ');
    let attempted = number_between(2, 99, attempted).ok_or(ScorecardFault::BadAttempted)? as u8;
    if solved > attempted {
        return Err(ScorecardFault::MoreSolved { attempted });
    }
    let seconds = whole_seconds_of(clock.ok_or(ScorecardFault::NotAResult)?)?;
    if seconds == 0 {
        return Err(ScorecardFault::NoSeconds);
    }
    Ok(Entered::Multi {
        solved,
        attempted,
        seconds,
    })
}
