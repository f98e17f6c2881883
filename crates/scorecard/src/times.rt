//! Times and their penalties.

ghost use Rattle.std.specs.Prelude.{◌≡◌, ◌<◌, ◌≤◌, IfOk, option_map, Option, Some, None};
ghost use Rattle.std.specs.Option.{option_copied};
ghost use Rattle.scorecard.specs.Reading.{filled, number_of, seconds_with, minutes_with, halved};
ghost use Rattle.scorecard.specs.Reading.{before_point, pair_of, clock_of, within_limits, time_of};
ghost use Rattle.scorecard.specs.{Reading.penalties_of, Reading.timed_of, Spelling.colons};
ghost use Rattle.texts.specs.Fields.{number_between as between};

use crate::digits::{number_of, pair_of};
use crate::fault::ScorecardFault;
use texts::{Entered, cut, number_between};

/// What is before hundredths. A comma is a point.
const POINTS: &[u8] = b".,";

/// What is after minutes.
const COLONS: &[u8] = b":.,";

/// The greatest time that may be entered, in hundredths of a second.
const MOST: u32 = 999_999;

/// The hundredths of a time of digits alone: they fill a clock from the right.
fn filled(bytes: &[u8]) -> Result<u32, ScorecardFault>
    ensures { result ≡ filled (number_of 7 bytes.now) }
{
    let number = number_of(7, bytes).ok_or(ScorecardFault::NotATime)?;
    let rest = number % 10_000;
    if number >= 10_000 && rest >= 6_000 {
        Err(ScorecardFault::BadSeconds)
    } else {
        Ok(6_000 * (number / 10_000) + rest)
    }
}

/// The hundredths of a time of seconds and hundredths.
fn seconds_with(hundredths: u32, bytes: &[u8]) -> Result<u32, ScorecardFault>
    requires { hundredths ≤ 99 }
    ensures { result ≡ seconds_with hundredths (number_of 2 bytes.now) }
{
    let seconds = number_of(2, bytes).ok_or(ScorecardFault::NotATime)?;
    Ok(100 * seconds + hundredths)
}

/// The hundredths of a time of minutes, seconds and hundredths.
fn minutes_with(hundredths: u32, seconds: u32, bytes: &[u8]) -> Result<u32, ScorecardFault>
    requires hundredths { hundredths ≤ 99 }
    requires seconds { seconds ≤ 99 }
    ensures { result ≡ minutes_with hundredths seconds (number_of 3 bytes.now) }
{
    let minutes = number_of(3, bytes).ok_or(ScorecardFault::NotATime)?;
    if seconds >= 60 {
        Err(ScorecardFault::BadSeconds)
    } else {
        Ok(6_000 * minutes + 100 * seconds + hundredths)
    }
}

/// The hundredths of a time, whatever its length.
#[tactic(auto, unfolding(crate::specs::Reading::clock_of))]
fn clock_of(bytes: &[u8]) -> Result<u32, ScorecardFault>
    ensures { result ≡ clock_of bytes.now }
{
    match pair_of(POINTS, bytes) {
        None => filled(bytes),
        Some((front, hundredths)) => match pair_of(COLONS, front) {
            None => seconds_with(hundredths, front),
            Some((minutes, seconds)) => minutes_with(hundredths, seconds, minutes),
        },
    }
}

/// The hundredths of a time that may be entered, 1 to 999,999.
#[tactic(auto, unfolding(crate::specs::Reading::time_of))]
fn time_of(bytes: &[u8]) -> Result<u32, ScorecardFault>
    ensures { result ≡ time_of bytes.now }
{
    let time = clock_of(bytes)?;
    if 1 <= time && time <= MOST {
        Ok(time)
    } else {
        Err(ScorecardFault::OutOfRange)
    }
}

/// The penalties of this many seconds, two for each.
fn halved(mark: &[u8]) -> Result<u8, ScorecardFault>
    ensures { result ≡ halved (between 2 18 mark.now) }
{
    let seconds = number_between(2, 18, mark).ok_or(ScorecardFault::BadPenalty)?;
    if seconds % 2 == 0 {
        Ok((seconds / 2) as u8)
    } else {
        Err(ScorecardFault::BadPenalty)
    }
}

/// The penalties that are marked after a plus.
fn penalties_of(mark: Option<&[u8]>) -> Result<u8, ScorecardFault>
    ensures { result ≡ penalties_of (option_copied mark.entry) }
{
    match mark {
        None => Ok(0),
        Some(mark) if mark == b"".as_slice() => Ok(1),
        Some(mark) if mark == b"+".as_slice() => Ok(2),
        Some(mark) => halved(mark),
    }
}

/// A time and its penalties.
#[tactic(auto, unfolding(crate::specs::Reading::timed_of))]
pub fn timed_of(bytes: &[u8]) -> Result<Entered, ScorecardFault>
    ensures { result ≡ timed_of bytes.now }
{
    let (time, mark) = cut(bytes, b'+');
    let penalties = penalties_of(mark)?;
    let hundredths = time_of(time)?;
    Ok(Entered::Time {
        hundredths,
        penalties,
    })
}
