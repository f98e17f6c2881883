//! The fields of a command's form.

ghost use Rattle.std.specs.Prelude.{◌≡◌, ◌≤◌, codes, IfErr, IfOk, IfSome, None};
ghost use Rattle.formats.specs.Events.{format_named, unit_of};
ghost use Rattle.card_forms.specs.Asking.{HasAdvance, HasAttempt, HasCompetitor, HasCutoff};
ghost use Rattle.card_forms.specs.Asking.{HasEvent, HasFormat, HasLimit, HasMoves, HasName};
ghost use Rattle.card_forms.specs.Asking.{HasNumber, HasRound, IsBelow, IsClock, IsNumberBelow};
ghost use Rattle.card_forms.specs.Asking.{field as value_in, is_none, the_round};
ghost use Rattle.card_forms.specs.Faults.{Lacks, LacksAs, clock_of, event_by, fault_of};
ghost use Rattle.card_forms.specs.Faults.{moves_fault, said_below, said_of_advance, said_of_after};
ghost use Rattle.card_forms.specs.Faults.{said_of_event};
ghost use Rattle.texts.specs.Fields.{number_between};

use crate::cards::round_of;
use crate::command_faults::{Field, FieldError, FieldFault};
use crate::pairs::Pairs;
use crate::reading::trimmed;
use attempts::Unit;
use cube::notation::{Moves, NotationFault};
use formats::{Advance, Event, Format, MOST_ENTRANTS, unit_of};
use scorecard::read;
use std::alloc::{AllocError, Global};
use texts::{Entered, Name, RoundId, number_between};

/// The greatest cutoff and the greatest limit, in hundredths of a second.
const MOST_TIME: u32 = 360_000;

/// The fault of a field.
fn wrong(field: Field, why: FieldError) -> FieldFault
    ensures { result ≡ FieldFault.Wrong field why }
{
    FieldFault::Wrong { field, why }
}

/// A number of a range.
fn number(pairs: &Pairs, name: &str, field: Field, low: u32, high: u32) -> Result<u32, FieldFault>
    ensures value { IfOk result (HasNumber name.now low high pairs.now) }
    ensures within { IfOk result (λ number. (low ≤ number) × (number ≤ high)) }
    ensures wrong { IfErr result
        (λ why. (why ≡ FieldFault.Wrong field (FieldError.NotBetween low high))
        × (number_between low high (value_in name.now pairs.now) ≡ None)) }
{
    let text = trimmed(pairs.value(name));
    match number_between(u64::from(low), u64::from(high), text) {
        Some(number) => Ok(number as u32),
        None => Err(wrong(field, FieldError::NotBetween { low, high })),
    }
}

/// The competitor's number.
pub(crate) fn competitor(pairs: &Pairs) -> Result<u16, FieldFault>
    ensures value { IfOk result (HasCompetitor pairs.now) }
    ensures lacks { IfErr result
        (λ why. (why ≡ FieldFault.Wrong Field.Number (FieldError.NotBetween 1 9999))
        × (number_between 1 9999 (value_in (codes "number") pairs.now) ≡ None)) }
{
    Ok(number(pairs, "number", Field::Number, 1, 9_999)? as u16)
}

/// The number of an attempt.
pub(crate) fn attempt(pairs: &Pairs) -> Result<u8, FieldFault>
    ensures value { IfOk result (HasAttempt pairs.now) }
    ensures lacks { IfErr result
        (λ why. (why ≡ FieldFault.Wrong Field.Attempt (FieldError.NotBetween 1 5))
        × (number_between 1 5 (value_in (codes "attempt") pairs.now) ≡ None)) }
{
    Ok(number(pairs, "attempt", Field::Attempt, 1, 5)? as u8)
}

/// A competitor's name.
pub(crate) fn name(alloc: Global, pairs: &Pairs) -> Result<Name, AllocError>
    ensures { IfOk result (HasName pairs.now) }
{
    let bytes = Vec::from_slice(alloc, trimmed(pairs.value("name")))?;
    Ok(Name::new(bytes))
}

/// The fault of moves that are not read.
fn moves_fault(fault: NotationFault) -> FieldFault
    ensures { result ≡ moves_fault fault }
{
    match fault {
        NotationFault::NoMemory => FieldFault::NoMemory,
        NotationFault::Empty | NotationFault::BadToken { .. } | NotationFault::TooMany => {
            wrong(Field::Moves, FieldError::NotMoves)
        }
    }
}

/// The moves of a scramble.
pub(crate) fn moves(alloc: Global, pairs: &Pairs) -> Result<Moves, FieldFault>
    ensures value { IfOk result (HasMoves pairs.now) }
    ensures lacks { IfErr result (LacksAs (HasMoves pairs.now) (Field.Moves, FieldError.NotMoves)) }
{
    match cube::notation::read(alloc, trimmed(pairs.value("moves"))) {
        Ok(moves) => Ok(moves),
        Err(fault) => Err(moves_fault(fault)),
    }
}

/// The round.
pub(crate) fn round(pairs: &Pairs) -> Result<RoundId, FieldFault>
    ensures value { IfOk result (HasRound pairs.now) }
    ensures lacks { IfErr result (λ why. (why ≡ FieldFault.Wrong Field.Round FieldError.NotARound)
        × (the_round pairs.now ≡ None)) }
{
    let text = trimmed(pairs.value("round"));
    round_of(text).ok_or(wrong(Field::Round, FieldError::NotARound))
}

/// The event: of the round, where the command has one.
pub(crate) fn event(pairs: &Pairs, by_round: bool) -> Result<Event, FieldFault>
    ensures value { IfOk result (HasEvent by_round pairs.now) }
    ensures lacks { IfErr result (λ why. (why ≡ fault_of (said_of_event by_round))
        × (event_by by_round pairs.now ≡ None)) }
{
    if by_round {
        return Ok(round(pairs)?.event);
    }
    let text = trimmed(pairs.value("event"));
    Event::from_name(text).ok_or(wrong(Field::Event, FieldError::NotAnEvent))
}

/// The format.
pub(crate) fn format(pairs: &Pairs) -> Result<Format, FieldFault>
    ensures value { IfOk result (HasFormat pairs.now) }
    ensures lacks { IfErr result (λ why. (why ≡ FieldFault.Wrong Field.Format FieldError.NotAFormat)
        × (format_named (value_in (codes "format") pairs.now) ≡ None)) }
{
    let text = trimmed(pairs.value("format"));
    Format::from_name(text).ok_or(wrong(Field::Format, FieldError::NotAFormat))
}

/// The hundredths of a second of a time of at most an hour without penalties, where that was read.
fn clock_of(read: Result<Entered, scorecard::ScorecardFault>) -> Option<u32>
    ensures { result ≡ clock_of read }
{
    match read {
        Ok(
            Entered::Time {
                hundredths,
                penalties,
            },
        ) => {
            if penalties == 0 && hundredths <= MOST_TIME {
                Some(hundredths)
            } else {
                None
            }
        }
        _ => None,
    }
}

/// The hundredths of a second of a time that is written as on a scorecard, at most an hour.
fn clock(alloc: Global, text: &[u8]) -> Option<u32>
    ensures value { IfSome result (IsClock text.now) }
    ensures lacks { result ≡ None → Lacks (IsClock text.now) }
{
    clock_of(read(alloc, Event::Cube3, text))
}

/// Whether a field says that there is none.
fn is_none(text: &[u8]) -> bool
    ensures { result ≡ is_none text.now }
{
    text.is_empty() || text == b"-".as_slice()
}

/// A time that an attempt has to be below.
fn time_below(alloc: Global, text: &[u8]) -> Result<u32, FieldFault>
    ensures value { IfOk result (IsClock text.now) }
    ensures lacks { IfErr result (LacksAs (IsClock text.now) (Field.Cutoff, FieldError.NotATime)) }
{
    match clock(alloc, text) {
        Some(time) => Ok(time),
        None => Err(wrong(Field::Cutoff, FieldError::NotATime)),
    }
}

/// A number that an attempt has to be below.
fn number_below(text: &[u8]) -> Result<u32, FieldFault>
    ensures value { IfOk result (IsNumberBelow text.now) }
    ensures lacks { IfErr result
        (LacksAs (IsNumberBelow text.now) (Field.Cutoff, FieldError.NotBetween 1 360000)) }
{
    let high = MOST_TIME;
    match number_between(1, u64::from(high), text) {
        Some(number) => Ok(number as u32),
        None => Err(wrong(Field::Cutoff, FieldError::NotBetween { low: 1, high })),
    }
}

/// What an attempt has to be below, in the event's unit.
fn below(alloc: Global, event: Event, text: &[u8]) -> Result<u32, FieldFault>
    ensures value { IfOk result (IsBelow (unit_of event) text.now) }
    ensures lacks { IfErr result (LacksAs (IsBelow (unit_of event) text.now)
        (said_below (unit_of event))) }
{
    match unit_of(event) {
        Unit::Time => time_below(alloc, text),
        Unit::Moves | Unit::Multi => number_below(text),
    }
}

/// The cutoff: none where nothing or `-` is written in both of its fields.
pub(crate) fn cutoff(
    alloc: Global,
    pairs: &Pairs,
    event: Event,
) -> Result<Option<(u8, u32)>, FieldFault>
    ensures value { IfOk result (HasCutoff pairs.now event) }
    ensures lacks { IfErr result (LacksAs (HasCutoff pairs.now event)
        (said_of_after event (number_between 1 4 (value_in (codes "after") pairs.now)))) }
{
    let text = trimmed(pairs.value("cutoff"));
    if is_none(text) && is_none(trimmed(pairs.value("after"))) {
        return Ok(None);
    }
    let after = number(pairs, "after", Field::After, 1, 4)? as u8;
    let below = below(alloc, event, text)?;
    Ok(Some((after, below)))
}

/// The time limit: none where nothing or `-` is written.
pub(crate) fn limit(alloc: Global, pairs: &Pairs) -> Result<Option<u32>, FieldFault>
    ensures value { IfOk result (HasLimit pairs.now) }
    ensures lacks { IfErr result (LacksAs (HasLimit pairs.now) (Field.Limit, FieldError.NotATime)) }
{
    let text = trimmed(pairs.value("limit"));
    if is_none(text) {
        return Ok(None);
    }
    match clock(alloc, text) {
        Some(limit) => Ok(Some(limit)),
        None => Err(wrong(Field::Limit, FieldError::NotATime)),
    }
}

/// Who advances.
pub(crate) fn advance(pairs: &Pairs) -> Result<Advance, FieldFault>
    ensures value { IfOk result (HasAdvance pairs.now) }
    ensures lacks { IfErr result (LacksAs (HasAdvance pairs.now)
        (said_of_advance (value_in (codes "advance") pairs.now))) }
{
    let text = trimmed(pairs.value("advance"));
    if text == b"final".as_slice() {
        Ok(Advance::Final)
    } else if text == b"top".as_slice() {
        let most = u32::from(MOST_ENTRANTS);
        Ok(Advance::Top(number(pairs, "amount", Field::Amount, 1, most)? as u16))
    } else if text == b"pct".as_slice() {
        Ok(Advance::Percent(number(pairs, "amount", Field::Amount, 1, 75)? as u8))
    } else {
        Err(wrong(Field::Advance, FieldError::NotAnAdvance))
    }
}
