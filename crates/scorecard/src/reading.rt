//! A field of a scorecard, read.

ghost use Rattle.std.specs.Prelude.{◌≡◌, Ok, IfOk};
ghost use Rattle.texts.specs.{Spelling.IsEntered, declared.command.Entered.Entered as Outcome};
ghost use Rattle.formats.specs.Events.{unit_of};
ghost use Rattle.scorecard.specs.Spelling.{trimmed, Spells};
ghost use Rattle.scorecard.specs.Reading.{Reads, ReadsBare, IsReadAs};

use crate::fault::ScorecardFault;
use crate::multi::multi_of;
use crate::solutions::solution_of;
use crate::times::timed_of;
use crate::words::{is_dnf, is_dns};
use attempts::Unit;
use formats::{Event, unit_of};
use std::alloc::Global;
use texts::Entered;

/// The bytes without the white space around them.
#[tactic(auto, unfolding(crate::specs::Spelling::trimmed))]
fn trimmed(bytes: &[u8]) -> &[u8]
    ensures { result.now ≡ trimmed bytes.now }
{
    bytes.trim_ascii()
}

/// Reads a text with no white space around it.
fn read_bare(alloc: Global, unit: Unit, bytes: &[u8]) -> Result<Entered, ScorecardFault>
    ensures { ReadsBare unit bytes.now result }
{
    if bytes.is_empty() {
        Err(ScorecardFault::Empty)
    } else if is_dnf(unit, bytes) {
        Ok(Entered::Dnf)
    } else if is_dns(unit, bytes) {
        Ok(Entered::Dns)
    } else {
        match unit {
            Unit::Time => timed_of(bytes),
            Unit::Moves => solution_of(alloc, bytes),
            Unit::Multi => multi_of(bytes),
        }
    }
}

/// Reads what is written in a field of a scorecard, as the outcome of an attempt of the event.
/// White space around it is dropped; a text of nothing else is `Empty`.
///
/// - A time, in events whose results are times: one to seven digits, which fill a clock from the
///   right, two for hundredths of a second, two for seconds and the others for minutes (`1043` is
///   10.43, `7` is 0.07); or one or two digits of seconds, a point and two digits (`10.43`); or one
///   to three digits of minutes, a colon or a point, two digits of seconds, a point and two digits
///   (`1:02.33`, `1.02.33`). A comma is a point. After it `+` is one penalty, `++` are two, and
///   `+2`, `+4` to `+18` those of this many seconds (WCA Regulations, article 10e). It is a time of
///   1 to 999,999 hundredths.
/// - A solution, in fewest moves: the tokens of 1 to 400 moves with spaces between them, whose
///   apostrophes may be typographic ones (U+2019).
/// - A result, in multi-blind: the cubes solved, a slash, those attempted, a space, and the time in
///   minutes and seconds (`11/13 58:20`), or in one to four digits that fill a clock (`5820`).
/// - DNF in each event: `dnf` in small or capital letters, or `/`; and but in fewest moves, where
///   `D` is a move, `d` or `D`. DNS: `dns`, `*`, and but in fewest moves `s` or `S`.
///
/// The outcome is in the ranges of a command's; a solution can be longer than a command has room
/// for. Where the text spells none, the fault is the first of these.
///
/// - In a time: `BadPenalty`; then `NotATime`, where digits or marks are wrong, or `BadSeconds`,
///   where 60 or more seconds come after minutes; then `OutOfRange`.
/// - In fewest moves: `NotMoves`; or `NoMemory`, where the moves find none, in place of any answer
///   but `Empty`, DNF and DNS.
/// - In multi-blind, from the left: `NotAResult`, where a number or a mark is wrong,
///   `BadAttempted`, `MoreSolved`, `BadSeconds` and `NoSeconds`.
pub fn read(alloc: Global, event: Event, text: &[u8]) -> Result<Entered, ScorecardFault>
    // The outcome, or the first fault.
    ensures value { Reads (unit_of event) text.now result }
    // What is read is spelled so.
    ensures found { (x : Outcome) → result ≡ Ok x → Spells (unit_of event) text.now x }
    // What is spelled so is read, unless memory runs out.
    ensures only { (x : Outcome) → Spells (unit_of event) text.now x
        → IsReadAs (unit_of event) x result }
    // What is read is in the ranges of a command's outcome.
    ensures entered { IfOk result IsEntered }
{
    read_bare(alloc, unit_of(event), trimmed(text))
}
