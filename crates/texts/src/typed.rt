//! Commands from the values of their fields.

ghost use Rattle.std.specs.Prelude.{◌≡◌};
ghost use Rattle.texts.specs.Parts.{made, made_of, id_in, entry_in, settings_in, card_in};
ghost use Rattle.texts.specs.Parts.{number_in, name_in, event_in};
ghost use Rattle.texts.specs.Parts.{round_in, format_in, cutoff_in, limit_in, advance_in};
ghost use Rattle.texts.specs.Parts.{attempt_in, moves_in, outcome_in, edition_in, was_in, now_in};

use crate::command::{
    AttemptEntry, CardEntry, Command, Entered, Name, NewAttempts, RoundId, SeenValues, Settings,
};
use crate::table::Tag;
use crate::value::{FieldValue, Values};
use cube::notation::Moves;
use formats::{Advance, Event, Format};

fn number_in(value: Option<FieldValue>) -> Option<u16>
    ensures { result ≡ number_in value }
{
    match value {
        Some(FieldValue::Number(number)) => Some(number),
        _ => None,
    }
}

fn name_in(value: Option<FieldValue>) -> Option<Name>
    ensures { result ≡ name_in value }
{
    match value {
        Some(FieldValue::Name(name)) => Some(name),
        _ => None,
    }
}

fn event_in(value: Option<FieldValue>) -> Option<Event>
    ensures { result ≡ event_in value }
{
    match value {
        Some(FieldValue::Event(event)) => Some(event),
        _ => None,
    }
}

fn round_in(value: Option<FieldValue>) -> Option<u8>
    ensures { result ≡ round_in value }
{
    match value {
        Some(FieldValue::Round(round)) => Some(round),
        _ => None,
    }
}

fn format_in(value: Option<FieldValue>) -> Option<Format>
    ensures { result ≡ format_in value }
{
    match value {
        Some(FieldValue::Format(format)) => Some(format),
        _ => None,
    }
}

fn cutoff_in(value: Option<FieldValue>) -> Option<Option<(u8, u32)>>
    ensures { result ≡ cutoff_in value }
{
    match value {
        Some(FieldValue::Cutoff(cutoff)) => Some(cutoff),
        _ => None,
    }
}

fn limit_in(value: Option<FieldValue>) -> Option<Option<u32>>
    ensures { result ≡ limit_in value }
{
    match value {
        Some(FieldValue::Limit(limit)) => Some(limit),
        _ => None,
    }
}

fn advance_in(value: Option<FieldValue>) -> Option<Advance>
    ensures { result ≡ advance_in value }
{
    match value {
        Some(FieldValue::Advance(advance)) => Some(advance),
        _ => None,
    }
}

fn attempt_in(value: Option<FieldValue>) -> Option<u8>
    ensures { result ≡ attempt_in value }
{
    match value {
        Some(FieldValue::Attempt(attempt)) => Some(attempt),
        _ => None,
    }
}

fn moves_in(value: Option<FieldValue>) -> Option<Moves>
    ensures { result ≡ moves_in value }
{
    match value {
        Some(FieldValue::Moves(moves)) => Some(moves),
        _ => None,
    }
}

fn outcome_in(value: Option<FieldValue>) -> Option<Entered>
    ensures { result ≡ outcome_in value }
{
    match value {
        Some(FieldValue::Outcome(outcome)) => Some(outcome),
        _ => None,
    }
}

fn edition_in(value: Option<FieldValue>) -> Option<u8>
    ensures { result ≡ edition_in value }
{
    match value {
        Some(FieldValue::Edition(edition)) => Some(edition),
        _ => None,
    }
}

fn was_in(value: Option<FieldValue>) -> Option<SeenValues>
    ensures { result ≡ was_in value }
{
    match value {
        Some(FieldValue::Was(was)) => Some(was),
        _ => None,
    }
}

fn now_in(value: Option<FieldValue>) -> Option<NewAttempts>
    ensures { result ≡ now_in value }
{
    match value {
        Some(FieldValue::Now(now)) => Some(now),
        _ => None,
    }
}

/// The event and the round that are in front.
fn id_in(first: Option<FieldValue>, second: Option<FieldValue>) -> Option<RoundId>
    ensures { result ≡ id_in first second }
{
    let event = event_in(first)?;
    let round = round_in(second)?;
    Some(RoundId { event, round })
}

/// What was entered for an attempt.
fn entry_in(
    first: Option<FieldValue>,
    second: Option<FieldValue>,
    third: Option<FieldValue>,
    fourth: Option<FieldValue>,
    fifth: Option<FieldValue>,
) -> Option<AttemptEntry>
    ensures { result ≡ entry_in first second third fourth fifth }
{
    let id = id_in(first, second)?;
    let attempt = attempt_in(third)?;
    let number = number_in(fourth)?;
    let outcome = outcome_in(fifth)?;
    Some(AttemptEntry {
        id,
        attempt,
        number,
        outcome,
    })
}

/// A scorecard.
fn card_in(
    first: Option<FieldValue>,
    second: Option<FieldValue>,
    third: Option<FieldValue>,
    fourth: Option<FieldValue>,
    fifth: Option<FieldValue>,
) -> Option<CardEntry>
    ensures { result ≡ card_in first second third fourth fifth }
{
    let id = id_in(first, second)?;
    let number = number_in(third)?;
    let was = was_in(fourth)?;
    let now = now_in(fifth)?;
    Some(CardEntry {
        id,
        number,
        was,
        now,
    })
}

/// How a round is run.
fn settings_in(
    first: Option<FieldValue>,
    second: Option<FieldValue>,
    third: Option<FieldValue>,
    fourth: Option<FieldValue>,
) -> Option<Settings>
    ensures { result ≡ settings_in first second third fourth }
{
    let format = format_in(first)?;
    let cutoff = cutoff_in(second)?;
    let limit = limit_in(third)?;
    let advance = advance_in(fourth)?;
    Some(Settings {
        format,
        cutoff,
        limit,
        advance,
    })
}

fn register(values: Values) -> Option<Command>
    ensures { result ≡ made_of (Tag.Register, values.items) }
{
    let mut values = values.into_iter();
    let number = number_in(values.next())?;
    let name = name_in(values.next())?;
    Some(Command::Register { number, name })
}

/// The opening of a round.
fn opening_in(
    first: Option<FieldValue>,
    second: Option<FieldValue>,
    third: Option<FieldValue>,
    fourth: Option<FieldValue>,
    fifth: Option<FieldValue>,
    sixth: Option<FieldValue>,
) -> Option<Command>
    ensures { result ≡ made Tag.Open first second third fourth fifth sixth }
{
    let id = id_in(first, second)?;
    let settings = settings_in(third, fourth, fifth, sixth)?;
    Some(Command::Open { id, settings })
}

fn open(values: Values) -> Option<Command>
    ensures { result ≡ made_of (Tag.Open, values.items) }
{
    let mut values = values.into_iter();
    opening_in(
        values.next(),
        values.next(),
        values.next(),
        values.next(),
        values.next(),
        values.next(),
    )
}

fn enter(values: Values) -> Option<Command>
    ensures { result ≡ made_of (Tag.Enter, values.items) }
{
    let mut values = values.into_iter();
    let event = event_in(values.next())?;
    let number = number_in(values.next())?;
    Some(Command::Enter { event, number })
}

fn scramble(values: Values) -> Option<Command>
    ensures { result ≡ made_of (Tag.Scramble, values.items) }
{
    let mut values = values.into_iter();
    let id = id_in(values.next(), values.next())?;
    let attempt = attempt_in(values.next())?;
    let moves = moves_in(values.next())?;
    Some(Command::Scramble { id, attempt, moves })
}

fn attempt(values: Values) -> Option<Command>
    ensures { result ≡ made_of (Tag.Attempt, values.items) }
{
    let mut values = values.into_iter();
    let entry = entry_in(
        values.next(),
        values.next(),
        values.next(),
        values.next(),
        values.next(),
    )?;
    Some(Command::Attempt(entry))
}

fn correct(values: Values) -> Option<Command>
    ensures { result ≡ made_of (Tag.Correct, values.items) }
{
    let mut values = values.into_iter();
    let entry = entry_in(
        values.next(),
        values.next(),
        values.next(),
        values.next(),
        values.next(),
    )?;
    Some(Command::Correct(entry))
}

fn strike(values: Values) -> Option<Command>
    ensures { result ≡ made_of (Tag.Strike, values.items) }
{
    let mut values = values.into_iter();
    let id = id_in(values.next(), values.next())?;
    let number = number_in(values.next())?;
    Some(Command::Strike { id, number })
}

fn set_advance(values: Values) -> Option<Command>
    ensures { result ≡ made_of (Tag.SetAdvance, values.items) }
{
    let mut values = values.into_iter();
    let id = id_in(values.next(), values.next())?;
    let advance = advance_in(values.next())?;
    Some(Command::SetAdvance { id, advance })
}

fn close(values: Values) -> Option<Command>
    ensures { result ≡ made_of (Tag.Close, values.items) }
{
    let mut values = values.into_iter();
    let id = id_in(values.next(), values.next())?;
    Some(Command::Close { id })
}

fn set_edition(values: Values) -> Option<Command>
    ensures { result ≡ made_of (Tag.SetEdition, values.items) }
{
    let mut values = values.into_iter();
    let edition = edition_in(values.next())?;
    Some(Command::SetEdition { edition })
}

fn rename(values: Values) -> Option<Command>
    ensures { result ≡ made_of (Tag.Rename, values.items) }
{
    let mut values = values.into_iter();
    let number = number_in(values.next())?;
    let name = name_in(values.next())?;
    Some(Command::Rename { number, name })
}

fn set_round(values: Values) -> Option<Command>
    ensures { result ≡ made_of (Tag.SetRound, values.items) }
{
    let mut values = values.into_iter();
    let id = id_in(values.next(), values.next())?;
    let format = format_in(values.next())?;
    let cutoff = cutoff_in(values.next())?;
    let limit = limit_in(values.next())?;
    Some(Command::SetRound {
        id,
        format,
        cutoff,
        limit,
    })
}

fn rescramble(values: Values) -> Option<Command>
    ensures { result ≡ made_of (Tag.Rescramble, values.items) }
{
    let mut values = values.into_iter();
    let id = id_in(values.next(), values.next())?;
    let attempt = attempt_in(values.next())?;
    let moves = moves_in(values.next())?;
    Some(Command::Rescramble { id, attempt, moves })
}

fn withdraw(values: Values) -> Option<Command>
    ensures { result ≡ made_of (Tag.Withdraw, values.items) }
{
    let mut values = values.into_iter();
    let id = id_in(values.next(), values.next())?;
    let number = number_in(values.next())?;
    Some(Command::Withdraw { id, number })
}

fn reopen(values: Values) -> Option<Command>
    ensures { result ≡ made_of (Tag.Reopen, values.items) }
{
    let mut values = values.into_iter();
    let id = id_in(values.next(), values.next())?;
    Some(Command::Reopen { id })
}

fn card(values: Values) -> Option<Command>
    ensures { result ≡ made_of (Tag.Card, values.items) }
{
    let mut values = values.into_iter();
    let card = card_in(
        values.next(),
        values.next(),
        values.next(),
        values.next(),
        values.next(),
    )?;
    Some(Command::Card(card))
}

fn fix(values: Values) -> Option<Command>
    ensures { result ≡ made_of (Tag.Fix, values.items) }
{
    let mut values = values.into_iter();
    let card = card_in(
        values.next(),
        values.next(),
        values.next(),
        values.next(),
        values.next(),
    )?;
    Some(Command::Fix(card))
}

fn cancel(values: Values) -> Option<Command>
    ensures { result ≡ made_of (Tag.Cancel, values.items) }
{
    let mut values = values.into_iter();
    let id = id_in(values.next(), values.next())?;
    Some(Command::Cancel { id })
}

/// The command of a tag and the values of its fields, where they are of the kinds of its fields.
pub fn command_of_values(tag: Tag, values: Values) -> Option<Command>
    ensures { result ≡ made_of (tag, values.items) }
{
    match tag {
        Tag::Register => register(values),
        Tag::Open => open(values),
        Tag::Enter => enter(values),
        Tag::Scramble => scramble(values),
        Tag::Attempt => attempt(values),
        Tag::Correct => correct(values),
        Tag::Strike => strike(values),
        Tag::SetAdvance => set_advance(values),
        Tag::Close => close(values),
        Tag::SetEdition => set_edition(values),
        Tag::Rename => rename(values),
        Tag::SetRound => set_round(values),
        Tag::Rescramble => rescramble(values),
        Tag::Withdraw => withdraw(values),
        Tag::Reopen => reopen(values),
        Tag::Card => card(values),
        Tag::Fix => fix(values),
        Tag::Cancel => cancel(values),
    }
}
