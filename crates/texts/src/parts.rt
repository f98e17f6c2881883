//! Commands as their tags and the values of their fields.

ghost use Rattle.std.specs.Prelude.{◌≡◌, [], ◌∷◌, map};
ghost use Rattle.texts.specs.Parts.{card_values, entry_values, in_round, lent, settings_values};
ghost use Rattle.texts.specs.{Parts.parts, declared.value.FieldValue.TheVariants.Name as NameOf};
ghost use Rattle.texts.specs.declared.value.FieldValue.TheVariants.{Number as NumberOf};
ghost use Rattle.texts.specs.declared.value.FieldValue.TheVariants.{Event as EventOf};
ghost use Rattle.texts.specs.declared.value.FieldValue.TheVariants.{Format as FormatOf};
ghost use Rattle.texts.specs.declared.value.FieldValue.TheVariants.{Cutoff as CutoffOf};
ghost use Rattle.texts.specs.declared.value.FieldValue.TheVariants.{Limit as LimitOf};
ghost use Rattle.texts.specs.declared.value.FieldValue.TheVariants.{Advance as AdvanceOf};
ghost use Rattle.texts.specs.declared.value.FieldValue.TheVariants.{Attempt as AttemptOf};
ghost use Rattle.texts.specs.declared.value.FieldValue.TheVariants.{Moves as MovesOf};
ghost use Rattle.texts.specs.declared.value.FieldValue.TheVariants.{Edition as EditionOf};
ghost use Rattle.arrayvec.specs.ArrayVec.{array_vec_len};

use crate::command::{AttemptEntry, CardEntry, Command, Name, RoundId, Settings};
use crate::table::Tag;
use crate::value::{LentValue, LentValues};
use arrayvec::ArrayVec;
use cube::notation::Moves;
use formats::{Advance, Event, Format};

/// A number and a name.
fn named(number: u16, name: &Name) -> LentValues<'_>
    ensures { map lent result.items ≡ NumberOf number ∷ NameOf name.now ∷ [] }
{
    let mut values = ArrayVec::new();
    values.push(LentValue::Number(number));
    values.push(LentValue::Name(name));
    values
}

/// An event and a number.
fn entering<'a>(event: Event, number: u16) -> LentValues<'a>
    ensures { map lent result.items ≡ EventOf event ∷ NumberOf number ∷ [] }
{
    let mut values = ArrayVec::new();
    values.push(LentValue::Event(event));
    values.push(LentValue::Number(number));
    values
}

/// A round.
fn round<'a>(id: RoundId) -> LentValues<'a>
    ensures values { map lent result.items ≡ in_round id [] }
    ensures len { array_vec_len result ≡ 2 }
{
    let mut values = ArrayVec::new();
    values.push(LentValue::Event(id.event));
    values.push(LentValue::Round(id.round));
    values
}

/// A round and a competitor's number.
fn entrant<'a>(id: RoundId, number: u16) -> LentValues<'a>
    ensures { map lent result.items ≡ in_round id (NumberOf number ∷ []) }
{
    let mut values = round(id);
    values.push(LentValue::Number(number));
    values
}

/// A round and who advances from it.
fn advancing<'a>(id: RoundId, advance: Advance) -> LentValues<'a>
    ensures { map lent result.items ≡ in_round id (AdvanceOf advance ∷ []) }
{
    let mut values = round(id);
    values.push(LentValue::Advance(advance));
    values
}

/// An attempt of a round, and its scramble.
fn scrambled(id: RoundId, attempt: u8, moves: &Moves) -> LentValues<'_>
    ensures { map lent result.items ≡ in_round id (AttemptOf attempt ∷ MovesOf moves.now ∷ []) }
{
    let mut values = round(id);
    values.push(LentValue::Attempt(attempt));
    values.push(LentValue::Moves(moves));
    values
}

/// What was entered for an attempt.
fn entered(entry: &AttemptEntry) -> LentValues<'_>
    ensures { map lent result.items ≡ entry_values entry.now }
{
    let mut values = round(entry.id);
    values.push(LentValue::Attempt(entry.attempt));
    values.push(LentValue::Number(entry.number));
    values.push(LentValue::Outcome(&entry.outcome));
    values
}

/// A round and how it is run, but for who advances.
fn run<'a>(
    id: RoundId,
    format: Format,
    cutoff: Option<(u8, u32)>,
    limit: Option<u32>,
) -> LentValues<'a>
    ensures values { map lent result.items
        ≡ in_round id (FormatOf format ∷ CutoffOf cutoff ∷ LimitOf limit ∷ []) }
    ensures len { array_vec_len result ≡ 5 }
{
    let mut values = round(id);
    values.push(LentValue::Format(format));
    values.push(LentValue::Cutoff(cutoff));
    values.push(LentValue::Limit(limit));
    values
}

/// A round and how it is run.
fn opening<'a>(id: RoundId, settings: Settings) -> LentValues<'a>
    ensures { map lent result.items ≡ in_round id (settings_values settings) }
{
    let mut values = run(id, settings.format, settings.cutoff, settings.limit);
    values.push(LentValue::Advance(settings.advance));
    values
}

/// A scorecard.
fn carded(card: &CardEntry) -> LentValues<'_>
    ensures { map lent result.items ≡ card_values card.entry.now }
{
    let mut values = round(card.id);
    values.push(LentValue::Number(card.number));
    values.push(LentValue::Was(&card.was));
    values.push(LentValue::Now(&card.now));
    values
}

/// An edition.
fn of_edition<'a>(edition: u8) -> LentValues<'a>
    ensures { map lent result.items ≡ EditionOf edition ∷ [] }
{
    let mut values = ArrayVec::new();
    values.push(LentValue::Edition(edition));
    values
}

/// A command's tag, and the values of its fields in order.
pub(crate) fn parts(command: &Command) -> (Tag, LentValues<'_>)
    ensures { (result.0, map lent result.1.items) ≡ parts command.now }
{
    match command {
        Command::Register { number, name } => (Tag::Register, named(*number, name)),
        Command::Open { id, settings } => (Tag::Open, opening(*id, *settings)),
        Command::Enter { event, number } => (Tag::Enter, entering(*event, *number)),
        Command::Scramble { id, attempt, moves } => (
            Tag::Scramble,
            scrambled(*id, *attempt, moves),
        ),
        Command::Attempt(entry) => (Tag::Attempt, entered(entry)),
        Command::Correct(entry) => (Tag::Correct, entered(entry)),
        Command::Strike { id, number } => (Tag::Strike, entrant(*id, *number)),
        Command::SetAdvance { id, advance } => (Tag::SetAdvance, advancing(*id, *advance)),
        Command::Close { id } => (Tag::Close, round(*id)),
        Command::SetEdition { edition } => (Tag::SetEdition, of_edition(*edition)),
        Command::Rename { number, name } => (Tag::Rename, named(*number, name)),
        Command::SetRound {
            id,
            format,
            cutoff,
            limit,
        } => (Tag::SetRound, run(*id, *format, *cutoff, *limit)),
        Command::Rescramble { id, attempt, moves } => {
            (Tag::Rescramble, scrambled(*id, *attempt, moves))
        }
        Command::Withdraw { id, number } => (Tag::Withdraw, entrant(*id, *number)),
        Command::Reopen { id } => (Tag::Reopen, round(*id)),
        Command::Card(card) => (Tag::Card, carded(card)),
        Command::Fix(card) => (Tag::Fix, carded(card)),
        Command::Cancel { id } => (Tag::Cancel, round(*id)),
    }
}
