//! The rounds of an event.

ghost use Rattle.std.specs.Prelude.{◌≡◌, ◌++◌, ◌≤◌, ◌<◌, ◌∷◌, IfSome, IfOk, OnOk, bytes_eq};
ghost use Rattle.serde_json.specs.View.{view};
ghost use Rattle.formats.specs.declared.advance.Advance.TheVariants.{Top as TopOf};
ghost use Rattle.formats.specs.declared.advance.Advance.TheVariants.{Percent as PercentOf};
ghost use Rattle.wcif.specs.Rounds.{number_within, named_format, format_in, most_first, cutoff_of};
ghost use Rattle.wcif.specs.Rounds.{cutoff_in, is_cumulative, limit_of, limit_in, level_of};
ghost use Rattle.wcif.specs.Rounds.{faults_of, advance_named, advance_in, settings_in, round_id};
ghost use Rattle.wcif.specs.Rounds.{round_faults};

use crate::fault::RoundFault;
use crate::members::{member_at, number_at, text_at};
use crate::options::CumulativeLimits;
use attempts::{NoMemory, Unit, push_decimal};
use formats::{Advance, Event, Format, MOST_ENTRANTS, allowed, attempts_of, unit_of};
use serde_json::Value;
use std::alloc::Global;
use texts::Settings;

/// The longest time limit and the greatest result of a cutoff, in hundredths of a second.
const MOST_LIMIT: u64 = 360_000;

/// The most competitors in a hundred who advance.
const MOST_PERCENT: u64 = 75;

/// A member that is a number in a range.
pub fn number_within(value: &Value, name: &str, low: u64, high: u64) -> Option<u64>
    ensures value { result ≡ number_within low high name.now (view value.now) }
    ensures within { IfSome result (λ n. n ≤ high) }
{
    let number = number_at(value, name)?;
    if low <= number && number <= high {
        Some(number)
    } else {
        None
    }
}

#[tactic(auto, unfolding(crate::specs::Rounds::named_format))]
fn named_format(text: &[u8]) -> Option<Format>
    ensures { result ≡ named_format text.now }
{
    if text == b"1".as_slice() {
        Some(Format::Bo1)
    } else if text == b"2".as_slice() {
        Some(Format::Bo2)
    } else if text == b"3".as_slice() {
        Some(Format::Bo3)
    } else if text == b"a".as_slice() {
        Some(Format::Ao5)
    } else if text == b"m".as_slice() {
        Some(Format::Mo3)
    } else {
        None
    }
}

/// The format, where the event has it.
#[tactic(auto, unfolding(crate::specs::Rounds::format_in))]
fn format_in(event: Event, round: &Value) -> Option<Format>
    ensures { result ≡ format_in event (view round.now) }
{
    let format = named_format(text_at(round, "format")?.as_bytes())?;
    if allowed(event, format) {
        Some(format)
    } else {
        None
    }
}

/// The most attempts that a cutoff may count.
fn most_first(format: Option<Format>) -> u8
    ensures value { result ≡ most_first format }
    ensures few { result ≤ 4 }
{
    match format {
        Some(format) => attempts_of(format).saturating_sub(1),
        None => 4,
    }
}

#[tactic(auto, unfolding(crate::specs::Rounds::cutoff_of))]
fn cutoff_of(format: Option<Format>, cutoff: &Value) -> Option<(u8, u32)>
    ensures { result ≡ cutoff_of format (view cutoff.now) }
{
    let most = u64::from(most_first(format));
    let attempts = number_within(cutoff, "numberOfAttempts", 1, most)?;
    let below = number_within(cutoff, "attemptResult", 1, MOST_LIMIT)?;
    Some((attempts as u8, below as u32))
}

/// The cutoff, or none.
#[tactic(auto, unfolding(crate::specs::Rounds::cutoff_in))]
fn cutoff_in(
    event: Event,
    format: Option<Format>,
    round: &Value,
) -> Result<Option<(u8, u32)>, RoundFault>
    ensures { result ≡ cutoff_in event format (view round.now) }
{
    let Some(cutoff) = member_at(round, "cutoff") else {
        return Ok(None);
    };
    if unit_of(event) == Unit::Multi {
        return Err(RoundFault::Cutoff);
    }
    match cutoff_of(format, cutoff) {
        Some(cutoff) => Ok(Some(cutoff)),
        None => Err(RoundFault::Cutoff),
    }
}

/// Whether a limit is for several attempts together.
fn is_cumulative(limit: &Value) -> bool
    ensures { result ≡ is_cumulative (view limit.now) }
{
    let Some(member) = member_at(limit, "cumulativeRoundIds") else {
        return false;
    };
    match member.as_array() {
        Some(rounds) => !rounds.as_slice().is_empty(),
        None => true,
    }
}

#[tactic(auto, unfolding(crate::specs::Rounds::limit_of))]
fn limit_of(how: CumulativeLimits, limit: &Value) -> Result<Option<u32>, RoundFault>
    ensures { result ≡ limit_of how (view limit.now) }
{
    if how == CumulativeLimits::Refuse && is_cumulative(limit) {
        return Err(RoundFault::CumulativeLimit);
    }
    match number_within(limit, "centiseconds", 1, MOST_LIMIT) {
        Some(limit) => Ok(Some(limit as u32)),
        None => Err(RoundFault::Limit),
    }
}

/// The time limit of each attempt, or none.
#[tactic(auto, unfolding(crate::specs::Rounds::limit_in))]
fn limit_in(how: CumulativeLimits, event: Event, round: &Value) -> Result<Option<u32>, RoundFault>
    ensures { result ≡ limit_in how event (view round.now) }
{
    match (unit_of(event), member_at(round, "timeLimit")) {
        (Unit::Time, Some(limit)) => limit_of(how, limit),
        (Unit::Moves | Unit::Multi, None) => Ok(None),
        _ => Err(RoundFault::Limit),
    }
}

/// This many of the ranking.
fn ranking_of(condition: &Value) -> Result<Advance, RoundFault>
    ensures { result ≡ level_of MOST_ENTRANTS TopOf (view condition.now) }
{
    match number_within(condition, "level", 1, u64::from(MOST_ENTRANTS)) {
        Some(level) => Ok(Advance::Top(level as u16)),
        None => Err(RoundFault::Advance),
    }
}

/// This many in a hundred.
fn percent_of(condition: &Value) -> Result<Advance, RoundFault>
    ensures { result ≡ level_of MOST_PERCENT PercentOf (view condition.now) }
{
    match number_within(condition, "level", 1, MOST_PERCENT) {
        Some(level) => Ok(Advance::Percent(level as u8)),
        None => Err(RoundFault::Advance),
    }
}

fn advance_named(kind: &[u8], condition: &Value) -> Result<Advance, RoundFault>
    ensures { result ≡ advance_named kind.now (view condition.now) }
{
    if kind == b"ranking".as_slice() {
        ranking_of(condition)
    } else if kind == b"percent".as_slice() {
        percent_of(condition)
    } else if kind == b"attemptResult".as_slice() {
        Err(RoundFault::AdvanceByResult)
    } else {
        Err(RoundFault::Advance)
    }
}

/// Who advances.
#[tactic(auto, unfolding(crate::specs::Rounds::advance_in))]
fn advance_in(round: &Value) -> Result<Advance, RoundFault>
    ensures { result ≡ advance_in (view round.now) }
{
    match member_at(round, "advancementCondition") {
        Some(condition) => {
            let kind = text_at(condition, "type").unwrap_or("");
            advance_named(kind.as_bytes(), condition)
        }
        None => Ok(Advance::Final),
    }
}

/// The settings of a round, where a desk holds all of them.
#[tactic(auto, unfolding(crate::specs::Rounds::settings_in))]
pub(crate) fn settings_in(how: CumulativeLimits, event: Event, round: &Value) -> Option<Settings>
    ensures { result ≡ settings_in how event (view round.now) }
{
    let format = format_in(event, round)?;
    let cutoff = cutoff_in(event, Some(format), round).ok()?;
    let limit = limit_in(how, event, round).ok()?;
    let advance = advance_in(round).ok()?;
    Some(Settings {
        format,
        cutoff,
        limit,
        advance,
    })
}

/// The id of a round: its event, `-r` and its number.
pub fn round_id(alloc: Global, event: Event, round: u8) -> Result<Vec<u8>, NoMemory>
    ensures { IfOk result (λ id. id.items ≡ round_id event round) }
{
    let mut id = Vec::new(alloc);
    id.extend_from_slice(event.name().as_bytes())?;
    id.extend_from_slice(b"-r")?;
    push_decimal(&mut id, u32::from(round))?;
    Ok(id)
}

/// Adds a fault, where there is one.
fn push_fault<T: Drop>(
    faults: &mut Vec<RoundFault>,
    read: Result<T, RoundFault>,
) -> Result<(), NoMemory>
    ensures { OnOk result (faults.new.items ≡ faults.old.items ++ faults_of read) }
{
    if let Err(fault) = read {
        faults.push(fault)?;
    }
    Ok(())
}

/// What a desk cannot hold of the round with this number.
#[tactic(auto, unfolding(crate::specs::Rounds::round_faults))]
pub(crate) fn round_faults(
    alloc: Global,
    how: CumulativeLimits,
    event: Event,
    number: u8,
    round: &Value,
) -> Result<Vec<RoundFault>, NoMemory>
    ensures { IfOk result (λ faults. faults.items ≡ round_faults how event number (view
        round.now)) }
{
    let mut faults = Vec::new(alloc);
    let id = round_id(alloc, event, number)?;
    if text_at(round, "id").unwrap_or("").as_bytes() != id.as_slice() {
        faults.push(RoundFault::Id)?;
    }
    let format = format_in(event, round);
    if format.is_none() {
        faults.push(RoundFault::Format)?;
    }
    push_fault(&mut faults, cutoff_in(event, format, round))?;
    push_fault(&mut faults, limit_in(how, event, round))?;
    push_fault(&mut faults, advance_in(round))?;
    Ok(faults)
}
