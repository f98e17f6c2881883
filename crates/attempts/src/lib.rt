//! Attempts: what a judge enters, what it counts as, and how that is printed.
//!
//! Times are in hundredths of a second. The rules are those of the WCA Regulations: results in
//! article 9f, penalties of two seconds in article 10e, time limits in article A1a, fewest moves in
//! article E. Where these leave the rounding open, a value above ten minutes goes to the nearest
//! second, a half up.
#![tactic(auto)]

ghost use Rattle.std.specs.Prelude.{◌≡◌, ◌≤◌, ◌↔◌, IsTrue};
ghost use Rattle.attempts.specs.Attempts.{value_of, rounded, multi_value, IsOutcome, IsInRange};
ghost use Rattle.attempts.specs.Attempts.{IsInRangeOf, IsOutcomeOf};
ghost use Rattle.attempts.specs.declared.Unit.{Unit as Measure, TheVariants.Multi};

mod laws;
mod print;

pub use laws::{multi_blind_is_ordered, multi_blind_reads_back};
pub use print::{print_value, push_decimal, push_two_digits};
pub use std::alloc::AllocError as NoMemory;

/// The greatest number of a time or of moves.
const MOST: u32 = 2_000_000;

/// The greatest number of multi-blind: no point, all of the time, and as many unsolved as can be.
const MOST_OF_MULTI: u32 = 990_599_949;

/// The result of a solution of fewest moves.
#[derive(Clone, Copy, Debug, PartialEq, Eq)]
pub enum Fm {
    /// 0 to 80 moves in the outer block turn metric.
    Moves(u32),
    /// Did not solve the scramble, or has more than 80 moves, rotations included.
    Dnf,
}

/// What a judge enters for one attempt.
#[derive(Clone, Copy, Debug, PartialEq, Eq)]
pub enum Outcome {
    /// A measured time of 1 to 999,999 hundredths of a second, and 0 to 9 penalties.
    Time {
        hundredths: u32,
        penalties: u8,
    },
    /// A solution of fewest moves, by its result against the scramble: 0 to 80 moves, or DNF.
    Solution {
        result: Fm,
    },
    /// Multi-blind: 2 to 99 cubes attempted, none to all of them solved, in 1 to 5,999 seconds.
    Multi {
        solved: u8,
        attempted: u8,
        seconds: u16,
    },
    /// Did not finish.
    Dnf,
    /// Did not start.
    Dns,
}

/// What an attempt counts as.
#[derive(Clone, Copy, Debug, PartialEq, Eq)]
pub enum Value {
    /// What it counts, the event's `Unit` says: 0 to 2,000,000 hundredths of a second or moves, or
    /// 0 to 990,599,949 of multi-blind. Less is better.
    Number(u32),
    /// Did not finish.
    Dnf,
    /// Did not start.
    Dns,
}

/// What the numbers of an event count.
#[derive(Clone, Copy, Debug, PartialEq, Eq)]
pub enum Unit {
    /// Hundredths of a second.
    Time,
    /// Moves of a solution.
    Moves,
    /// Results of multi-blind: 10,000,000 for each point below 99, 100 for each second, and 1 for
    /// each unsolved cube.
    Multi,
}

/// Whether a time or moves are in their range: a number is at most 2,000,000.
pub fn in_range(value: Value) -> bool
    ensures { IsTrue result ↔ IsInRange value }
{
    match value {
        Value::Number(number) => number <= MOST,
        Value::Dnf | Value::Dns => true,
    }
}

/// Whether a value is in the range of its unit: a number is at most 990,599,949 in multi-blind, and
/// at most 2,000,000 otherwise.
pub fn in_range_of(value: Value, unit: Unit) -> bool
    ensures { IsTrue result ↔ IsInRangeOf unit value }
{
    match (value, unit) {
        (Value::Number(number), Unit::Multi) => number <= MOST_OF_MULTI,
        (Value::Number(number), Unit::Time | Unit::Moves) => number <= MOST,
        (Value::Dnf | Value::Dns, _) => true,
    }
}

/// The value of an attempt under a time limit in hundredths, or under none.
///
/// A measured time that is not below the limit is DNF, whatever its penalties. Otherwise the value
/// is the time with 200 hundredths more for each penalty, and above 60,000 hundredths it is rounded
/// to whole seconds, a half up. A solution's value is its result.
///
/// In multi-blind a solved cube is a point, and an unsolved one takes a point away; fewer than two
/// solved, or less than no point, is DNF. Otherwise the value is less for more points, then for a
/// shorter time, then for fewer unsolved cubes (WCA Regulations, article 9f). No limit applies to
/// it, nor to a solution.
pub fn settle(outcome: Outcome, limit: Option<u32>) -> Value
    requires { IsOutcome outcome }
    ensures value { result ≡ value_of limit outcome }
    ensures in_range { (unit : Measure) → IsOutcomeOf unit outcome → IsInRangeOf unit result }
{
    match outcome {
        Outcome::Time {
            hundredths,
            penalties,
        } => match limit {
            Some(limit) if limit <= hundredths => Value::Dnf,
            _ => Value::Number(rounded(hundredths + 200 * u32::from(penalties))),
        },
        Outcome::Solution {
            result: Fm::Moves(moves),
        } => Value::Number(moves),
        Outcome::Multi {
            solved,
            attempted,
            seconds,
        } => multi_value(solved, attempted, seconds),
        Outcome::Solution { result: Fm::Dnf } | Outcome::Dnf => Value::Dnf,
        Outcome::Dns => Value::Dns,
    }
}

/// Hundredths as they are up to ten minutes, and to the nearest second above.
fn rounded(sum: u32) -> u32
    requires { sum ≤ 1001799 }
    ensures value { result ≡ rounded sum }
    ensures in_range { result ≤ 2000000 }
{
    if sum <= 60_000 {
        sum
    } else {
        (sum + 50) / 100 * 100
    }
}

/// The value of this many cubes solved of those attempted, in this many seconds.
fn multi_value(solved: u8, attempted: u8, seconds: u16) -> Value
    requires few { attempted ≤ 99 }
    requires solved { solved ≤ attempted }
    requires seconds { seconds ≤ 5999 }
    ensures value { result ≡ multi_value solved attempted seconds }
    ensures in_range { IsInRangeOf Multi result }
{
    let unsolved = attempted - solved;
    if solved < 2 || solved < unsolved {
        return Value::Dnf;
    }
    let points = u32::from(solved - unsolved);
    Value::Number((99 - points) * 10_000_000 + 100 * u32::from(seconds) + u32::from(unsolved))
}
