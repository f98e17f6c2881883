//! What a card would be answered now.

ghost use Rattle.std.specs.Prelude.{◌≡◌, ◌++◌, ◌<◌, IfOk, IfSome, OnOk, Some, length, not, All};
ghost use Rattle.std.specs.{Prelude.slice_get, List.list_any};
ghost use Rattle.commands.specs.Accepted.{are_values, card_values, has_outcome, is_wrong};
ghost use Rattle.commands.specs.Accepted.{lacks_scramble, refusal, round_by, scramble_of};
ghost use Rattle.commands.specs.Accepted.{seen_refusal, unfit_card_refusal};
ghost use Rattle.rounds.specs.Tables.{entrant, fits};
ghost use Rattle.texts.specs.Spelling.{IsEntered};
ghost use Rattle.table_service.specs.Checks.{enters, left_at, lacks_at, opened_refusal};
ghost use Rattle.texts.specs.declared.command.Command.TheVariants as command;

use attempts::{Unit, Value};
use commands::{Meet, is_wrong, lacks_scramble, settled};
use formats::{Format, unit_of};
use round_counts::{OpenedRound, allotted, round_opened};
use rounds::RoundTable;
use std::alloc::{AllocError, Global};
use texts::{CardEntry, Code, Entered, RoundId, Settings};

/// Whether something is entered for an attempt that is not of the unit.
fn enters_wrong(unit: Unit, outcome: &Option<Entered>) -> bool
    ensures { result ≡ enters (is_wrong unit) outcome.now }
{
    match outcome {
        Some(entered) => is_wrong(unit, entered),
        None => false,
    }
}

/// Whether something is entered that is not of the unit.
fn has_wrong(unit: Unit, now: &[Option<Entered>]) -> bool
    ensures { result ≡ list_any (enters (is_wrong unit)) now.now }
{
    now.iter().any(|outcome| enters_wrong(unit, outcome))
}

/// Whether a solution is entered for the attempt at a place, counted from 0, which has no scramble.
fn lacks_at(meet: &Meet, id: RoundId, now: &[Option<Entered>], at: usize) -> bool
    requires few { length now.now < 256 }
    requires within { at < length now.now }
    ensures { result ≡ lacks_at (scramble_of meet.now.accepted id.event id.round) now.now at }
{
    match &now[at] {
        Some(entered) => lacks_scramble(meet.scramble(id.event, id.round, at as u8 + 1), entered),
        None => false,
    }
}

/// Whether some solution is entered for an attempt that has no scramble.
fn lacks_some(meet: &Meet, id: RoundId, now: &[Option<Entered>]) -> bool
    requires { length now.now < 256 }
    ensures { result ≡ has_outcome
        (λ k x. lacks_scramble (scramble_of meet.now.accepted id.event id.round k) x) 1 now.now }
{
    for at in 0..now.len() {
        if lacks_at(meet, id, now, at) {
            return true;
        }
    }
    false
}

/// Why an event does not accept what a card enters.
fn unfit(meet: &Meet, id: RoundId, now: &[Option<Entered>]) -> Option<Code>
    requires { length now.now < 256 }
    ensures { result ≡ unfit_card_refusal id.event
        (scramble_of meet.now.accepted id.event id.round) now.now }
{
    if has_wrong(unit_of(id.event), now) {
        return Some(Code::WrongOutcome);
    }
    if lacks_some(meet, id, now) {
        return Some(Code::NoScramble);
    }
    None
}

/// Whether these values are those that count.
fn are_values(was: &[Value], stand: &[Value]) -> bool
    ensures { result ≡ are_values was.now stand.now }
{
    was == stand
}

/// Why what counts of a competitor is not what a card's writer saw.
fn seen_refusal(table: &RoundTable, card: &CardEntry) -> Option<Code>
    ensures { result ≡ seen_refusal card.entry.now.was (entrant table.now card.entry.now.number) }
{
    match table.values(card.number) {
        None => Some(Code::NotEntered),
        Some(stand) => {
            if are_values(card.was.as_slice(), stand) {
                None
            } else {
                Some(Code::Changed)
            }
        }
    }
}

/// The value at a place, if there is one.
pub(crate) fn value_at(values: &[Value], place: usize) -> Option<Value>
    ensures { result ≡ slice_get values.now place }
{
    values.get(place).copied()
}

/// Puts the value that a card leaves for the attempt at a place, counted from 0, after the others.
fn push_left(
    values: &mut Vec<Value>,
    meet: &Meet,
    card: &CardEntry,
    settings: Settings,
    at: usize,
) -> Result<(), AllocError>
    requires few { length card.now.now < 256 }
    requires entered { All (λ o. IfSome o IsEntered) card.now.now }
    requires within { at < length card.now.now }
    ensures { OnOk result (values.new.items ≡ values.old.items
        ++ left_at meet.now.accepted card.entry.now settings at) }
{
    match &card.now.as_slice()[at] {
        Some(entered) => {
            let scramble = meet.scramble(card.id.event, card.id.round, at as u8 + 1);
            values.push(settled(settings, scramble, entered))?;
            Ok(())
        }
        None => match value_at(card.was.as_slice(), at) {
            Some(value) => {
                values.push(value)?;
                Ok(())
            }
            None => Ok(()),
        },
    }
}

/// The values that a card leaves, under the settings of its round.
pub(crate) fn values_left(
    alloc: Global,
    meet: &Meet,
    card: &CardEntry,
    settings: Settings,
) -> Result<Vec<Value>, AllocError>
    requires few { length card.now.now < 256 }
    requires entered { All (λ o. IfSome o IsEntered) card.now.now }
    ensures { IfOk result (λ values. values.items ≡ card_values
        (scramble_of meet.now.accepted card.entry.now.id.event card.entry.now.id.round)
        card.entry.now settings) }
{
    let mut values = Vec::new(alloc);
    for at in 0..card.now.as_slice().len() {
        push_left(&mut values, meet, card, settings, at)?;
    }
    Ok(values)
}

/// Whether these are more values than they themselves allot.
fn has_more(format: Format, cutoff: Option<(u8, u32)>, values: &[Value]) -> bool
    ensures { result ≡ not (fits format cutoff values.now) }
{
    values.len() > usize::from(allotted(format, cutoff, values))
}

/// The code with which a card would be refused in its round, which was opened.
fn refusal_in(
    alloc: Global,
    meet: &Meet,
    card: &CardEntry,
    round: OpenedRound<'_>,
) -> Result<Option<Code>, AllocError>
    requires few { length card.now.now < 256 }
    requires entered { All (λ o. IfSome o IsEntered) card.now.now }
    requires opened { round_by meet.now.accepted card.now.id
        ≡ Some (round.settings, round.table.now) }
    ensures { IfOk result (λ code. code ≡ opened_refusal meet.now.accepted card.entry.now
        round.entry.settings round.entry.table.now) }
{
    if let Some(code) = unfit(meet, card.id, card.now.as_slice()) {
        return Ok(Some(code));
    }
    if round.table.is_closed() {
        return Ok(Some(Code::Closed));
    }
    if let Some(code) = seen_refusal(round.table, card) {
        return Ok(Some(code));
    }
    let values = values_left(alloc, meet, card, round.settings)?;
    if has_more(round.settings.format, round.table.cutoff(), &values) {
        return Ok(Some(Code::NoMoreAttempts));
    }
    Ok(None)
}

/// The code with which a card would be refused, if it came next after the commands that were
/// accepted so far.
pub(crate) fn refusal_of(
    alloc: Global,
    meet: &Meet,
    card: &CardEntry,
) -> Result<Option<Code>, AllocError>
    requires few { length card.now.now < 256 }
    requires entered { All (λ o. IfSome o IsEntered) card.now.now }
    ensures { IfOk result (λ code. code ≡ refusal meet.now.accepted (command.Card card.entry.now)) }
{
    if meet.name(card.number).is_none() {
        return Ok(Some(Code::UnknownCompetitor));
    }
    match round_opened(meet, card.id) {
        Some(round) => refusal_in(alloc, meet, card, round),
        None => Ok(Some(Code::RoundUnknown)),
    }
}
