//! The fields of commands, each from its bytes.

ghost use Rattle.std.specs.Prelude.{◌≡◌, ◌==◌, ◌<◌, length, option_map, IfOk, IfSome, OnErr, ◌-◌};
ghost use Rattle.std.specs.Prelude.{position, map, option_and_then};
ghost use Rattle.texts.specs.Fields.{cut, number_between, cutoff_of, two_numbers, limit_of};
ghost use Rattle.texts.specs.Fields.{percent_of, advance_of, moves_of, time_of, multi_of, cubes_of};
ghost use Rattle.texts.specs.Fields.{entered_of, counted_of, was_of, stays_or_of, enters_later};
ghost use Rattle.texts.specs.Fields.{now_of, at_most_5, all_of, cut_remark};
ghost use Rattle.std.specs.List.{slice_split};
ghost use Rattle.texts.specs.model.Returned.{MayBeSolution};

use crate::command::{Entered, NewAttempts, SeenValues};
use crate::names::has_single_spaces;
use crate::numbers::{u8_between, u16_between, u32_between};
use attempts::Value;
use cube::notation::{Moves, NoMemory, NotationFault, printed_is_spelled};
use formats::{Advance, MOST_ENTRANTS};
use std::alloc::Global;

/// The last edition that commands name.
pub const LAST_EDITION: u8 = 4;

/// The greatest number of a competitor.
pub const LAST_NUMBER: u16 = 9999;

/// The last attempt of a round, in the formats that have the most.
pub const LAST_ATTEMPT: u8 = 5;

/// The greatest border of a cutoff and the longest time limit: an hour in hundredths of a second.
const MOST_LIMIT: u32 = 360_000;

/// The most competitors in a hundred who advance.
const MOST_PERCENT: u8 = 75;

/// The longest measured time, in hundredths of a second.
const MOST_TIME: u32 = 999_999;

/// The most penalties of an attempt.
const MOST_PENALTIES: u8 = 9;

/// The fewest cubes that are attempted in multi-blind.
const LEAST_CUBES: u8 = 2;

/// The most cubes that are attempted in multi-blind.
const MOST_CUBES: u8 = 99;

/// The greatest number that an attempt counts: multi-blind without a point, with 49 of 98 cubes
/// unsolved in 5,999 seconds.
const MOST_COUNTED: u32 = 990_599_949;

/// The longest attempt of multi-blind, in seconds.
const MOST_SECONDS: u16 = 5999;

/// Where the first of a byte is.
fn place_of(bytes: &[u8], by: u8) -> Option<usize>
    ensures value { result ≡ position (λ b. b == by) bytes.now }
    ensures within { IfSome result (λ place. place < length bytes.now) }
{
    bytes.iter().position(|byte| *byte == by)
}

/// What is in front of the first of a byte, and what is after it, where it is there.
#[tactic(auto, unfolding(crate::specs::Fields::cut))]
pub fn cut(bytes: &[u8], by: u8) -> (&[u8], Option<&[u8]>)
    ensures { (result.0.now, option_map (λ s. s.now) result.1) ≡ cut by bytes.now }
{
    match place_of(bytes, by) {
        Some(place) => (&bytes[..place], Some(&bytes[place + 1..])),
        None => (bytes, None),
    }
}

/// After how many attempts (1 to 4), and below what (1 to 360,000).
#[tactic(auto, unfolding(crate::specs::Fields::cut))]
fn below_of(bytes: &[u8]) -> Option<(u8, u32)>
    ensures { result
        ≡ two_numbers (number_between 1 (LAST_ATTEMPT - 1)) (number_between 1 MOST_LIMIT)
        (cut 58 bytes.now) }
{
    let (attempts, left) = cut(bytes, b':');
    let attempts = u8_between(1, LAST_ATTEMPT - 1, attempts)?;
    let below = u32_between(1, MOST_LIMIT, left?)?;
    Some((attempts, below))
}

/// A cutoff, or `-` for none.
pub fn cutoff_of(bytes: &[u8]) -> Option<Option<(u8, u32)>>
    ensures { result ≡ cutoff_of bytes.now }
{
    if bytes == b"-".as_slice() {
        Some(None)
    } else {
        Some(Some(below_of(bytes)?))
    }
}

/// A time limit of 1 to 360,000 hundredths of a second, or `-` for none.
pub fn limit_of(bytes: &[u8]) -> Option<Option<u32>>
    ensures { result ≡ limit_of bytes.now }
{
    if bytes == b"-".as_slice() {
        Some(None)
    } else {
        Some(Some(u32_between(1, MOST_LIMIT, bytes)?))
    }
}

/// A percentage of those who started.
fn percent_of(bytes: &[u8]) -> Option<Advance>
    ensures { result ≡ percent_of bytes.now }
{
    let digits = bytes.strip_prefix(b"pct:".as_slice())?;
    Some(Advance::Percent(u8_between(1, MOST_PERCENT, digits)?))
}

/// Who advances: `final`, `top:` and a number of 1 to 999, or `pct:` and a percentage of 1 to 75.
pub fn advance_of(bytes: &[u8]) -> Option<Advance>
    ensures { result ≡ advance_of bytes.now }
{
    if bytes == b"final".as_slice() {
        Some(Advance::Final)
    } else if let Some(digits) = bytes.strip_prefix(b"top:".as_slice()) {
        Some(Advance::Top(u16_between(1, MOST_ENTRANTS, digits)?))
    } else {
        percent_of(bytes)
    }
}

/// Moves in notation, with exactly one space between tokens.
pub fn moves_of(alloc: Global, bytes: &[u8]) -> Result<Option<Moves>, NoMemory>
    ensures { IfOk result (λ moves. moves ≡ moves_of bytes.now) }
{
    printed_is_spelled();
    if has_single_spaces(bytes) {
        match cube::notation::read(alloc, bytes) {
            Ok(moves) => Ok(Some(moves)),
            Err(fault) => match fault {
                NotationFault::NoMemory => Err(NoMemory),
                _ => Ok(None),
            },
        }
    } else {
        Ok(None)
    }
}

/// A time and its penalties.
#[tactic(auto, unfolding(crate::specs::Fields::cut))]
fn time_of(bytes: &[u8]) -> Option<Entered>
    ensures { result ≡ time_of (cut 58 bytes.now) }
{
    let (time, left) = cut(bytes, b':');
    let hundredths = u32_between(1, MOST_TIME, time)?;
    let penalties = u8_between(0, MOST_PENALTIES, left?)?;
    Some(Entered::Time {
        hundredths,
        penalties,
    })
}

/// How many cubes were attempted, and in how many seconds.
#[tactic(auto, unfolding(crate::specs::Fields::cut))]
fn attempted_of(bytes: &[u8]) -> Option<(u8, u16)>
    ensures { result
        ≡ two_numbers (number_between LEAST_CUBES MOST_CUBES) (number_between 1 MOST_SECONDS)
        (cut 58 bytes.now) }
{
    let (attempted, left) = cut(bytes, b':');
    let attempted = u8_between(LEAST_CUBES, MOST_CUBES, attempted)?;
    let seconds = u16_between(1, MOST_SECONDS, left?)?;
    Some((attempted, seconds))
}

/// How many cubes of multi-blind were solved, of how many, and in how many seconds.
#[tactic(auto, unfolding(crate::specs::Fields::cut))]
fn multi_of(bytes: &[u8]) -> Option<Entered>
    ensures { result ≡ multi_of (cut 58 bytes.now) }
{
    let (solved, left) = cut(bytes, b':');
    let solved = u8_between(0, MOST_CUBES, solved)?;
    let (attempted, seconds) = attempted_of(left?)?;
    if solved <= attempted {
        Some(Entered::Multi {
            solved,
            attempted,
            seconds,
        })
    } else {
        None
    }
}

/// Cubes of multi-blind, after their letter.
fn cubes_of(bytes: &[u8]) -> Option<Entered>
    ensures { result ≡ cubes_of bytes.now }
{
    multi_of(bytes.strip_prefix(b"M:".as_slice())?)
}

/// What a judge enters: a time, a solution, cubes of multi-blind, or no result.
#[tactic(auto, unfolding(crate::specs::Fields::entered_of))]
pub fn entered_of(alloc: Global, bytes: &[u8]) -> Result<Option<Entered>, NoMemory>
    ensures value { IfOk result (λ outcome. outcome ≡ entered_of bytes.now) }
    ensures memory { OnErr result (MayBeSolution (entered_of bytes.now)) }
{
    if bytes == b"DNF".as_slice() {
        Ok(Some(Entered::Dnf))
    } else if bytes == b"DNS".as_slice() {
        Ok(Some(Entered::Dns))
    } else if let Some(time) = bytes.strip_prefix(b"T:".as_slice()) {
        Ok(time_of(time))
    } else if let Some(solution) = bytes.strip_prefix(b"S:".as_slice()) {
        match moves_of(alloc, solution)? {
            Some(moves) => Ok(Some(Entered::Solution { moves })),
            None => Ok(None),
        }
    } else {
        Ok(cubes_of(bytes))
    }
}

/// What an attempt counts: a number, or no result.
fn counted_of(bytes: &[u8]) -> Option<Value>
    ensures { result ≡ counted_of bytes.now }
{
    if bytes == b"DNF".as_slice() {
        Some(Value::Dnf)
    } else if bytes == b"DNS".as_slice() {
        Some(Value::Dns)
    } else {
        Some(Value::Number(u32_between(0, MOST_COUNTED, bytes)?))
    }
}

/// What the attempts of an entrant count, as the field `was` of `CARD` spells it: with a comma
/// between two of them, or `-` for none. It is none where the text is no such field.
#[tactic(auto, unfolding(crate::specs::Fields::was_of))]
pub fn was_of(alloc: Global, bytes: &[u8]) -> Result<Option<SeenValues>, NoMemory>
    ensures { IfOk result (λ was. was ≡ was_of bytes.now) }
{
    let mut values = Vec::new(alloc);
    if bytes == b"-".as_slice() {
        return Ok(Some(SeenValues::new(values)));
    }
    let mut ahead = Some(bytes);
    for _attempt in 0..LAST_ATTEMPT {
        let Some(left) = ahead else {
            return Ok(Some(SeenValues::new(values)));
        };
        let (part, rest) = cut(left, b',');
        let Some(value) = counted_of(part) else {
            return Ok(None);
        };
        values.push(value)?;
        ahead = rest;
    }
    match ahead {
        Some(_) => Ok(None),
        None => Ok(Some(SeenValues::new(values))),
    }
}

/// What is entered for an attempt, or `=` where it stays as it is.
fn stays_or_of(alloc: Global, bytes: &[u8]) -> Result<Option<Option<Entered>>, NoMemory>
    ensures { IfOk result (λ outcome. outcome ≡ stays_or_of bytes.now) }
{
    if bytes == b"=".as_slice() {
        return Ok(Some(None));
    }
    match entered_of(alloc, bytes)? {
        Some(outcome) => Ok(Some(Some(outcome))),
        None => Ok(None),
    }
}

/// Whether something is entered for each attempt after those that count, this many.
fn enters_later(stands: usize, now: &[Option<Entered>]) -> bool
    ensures { result ≡ enters_later stands now.now }
{
    now.iter().skip(stands).all(|outcome| outcome.is_some())
}

/// What is entered for attempts, with a slash between two of them, or `=` where one stays.
fn outcomes_of(alloc: Global, bytes: &[u8]) -> Result<Option<Vec<Option<Entered>>>, NoMemory>
    ensures { IfOk result (λ outcomes. option_map (λ v. v.items) outcomes
        ≡ option_and_then at_most_5
        (all_of (map stays_or_of (slice_split (λ b. b == 47) bytes.now)))) }
{
    let mut outcomes = Vec::new(alloc);
    let mut ahead = Some(bytes);
    for _attempt in 0..LAST_ATTEMPT {
        let Some(left) = ahead else {
            return Ok(Some(outcomes));
        };
        let (part, rest) = cut(left, b'/');
        let Some(outcome) = stays_or_of(alloc, part)? else {
            return Ok(None);
        };
        outcomes.push(outcome)?;
        ahead = rest;
    }
    match ahead {
        Some(_) => Ok(None),
        None => Ok(Some(outcomes)),
    }
}

/// The attempts that are to count, with a slash between two of them, or `-` for none. Those that
/// stay are among those that count, this many.
#[tactic(auto, unfolding(crate::specs::Fields::now_of))]
pub fn now_of(alloc: Global, stands: usize, bytes: &[u8]) -> Result<Option<NewAttempts>, NoMemory>
    ensures { IfOk result (λ now. now ≡ now_of stands bytes.now) }
{
    if bytes == b"-".as_slice() {
        return Ok(Some(NewAttempts::new(Vec::new(alloc))));
    }
    let Some(outcomes) = outcomes_of(alloc, bytes)? else {
        return Ok(None);
    };
    if !enters_later(stands, &outcomes) {
        return Ok(None);
    }
    Ok(Some(NewAttempts::new(outcomes)))
}

/// What is in front of the first ` # `, and what is after it, where it is there.
pub fn cut_remark(bytes: &[u8]) -> (&[u8], Option<&[u8]>)
    ensures { (result.0.now, option_map (λ s. s.now) result.1) ≡ cut_remark bytes.now }
{
    for place in 0..bytes.len() {
        if let Some(remark) = bytes[place..].strip_prefix(b" # ".as_slice()) {
            return (&bytes[..place], Some(remark));
        }
    }
    (bytes, None)
}
