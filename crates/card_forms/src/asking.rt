//! Commands, from their forms.

ghost use Rattle.std.specs.Prelude.{◌≡◌, ◌↔◌, codes, Err, IfErr, IfOk, None, Some, true};
ghost use Rattle.std.specs.List.{list_any};
ghost use Rattle.texts.specs.Table.{plain, row_named};
ghost use Rattle.card_forms.specs.Asking.{Asks, FieldsAsk, IsAsked, IsCommandText, WordAsks};
ghost use Rattle.card_forms.specs.{Asking.has_form, Cards.form_id_of, Pairs.value_of};
ghost use Rattle.card_forms.specs.Faults.{Blames, IsFault, IsNoCommand, IsSaid, IsWrong, IsWrongBy};
ghost use Rattle.card_forms.specs.Faults.{IsWrongIf, blamed, has_no_text, is_moves, is_name};

use crate::cards::form_id_of;
use crate::command_faults::{CommandFormFault, Field, FieldError, FieldFault};
use crate::command_text::CommandText;
use crate::form_id::FormId;
use crate::pairs::Pairs;
use crate::reading::trimmed;
use crate::values::values;
use std::alloc::Global;
use texts::{
    Command, CommandFault, CommandRow, FieldKind, Tag, command_of_values, print, read, row_named,
};

/// A command that a form asks for, under the form's id.
#[derive(Drop)]
pub struct CommandForm {
    pub id: FormId,
    pub text: CommandText,
}

/// The text of a command, and the field that is to blame where it is no command.
struct UncheckedCommand {
    text: Vec<u8>,
    blamed: (Field, FieldError),
}

/// The commands that have a form; all others have none.
const FORMS: [Tag; 12] = [
    Tag::Register,
    Tag::Open,
    Tag::Enter,
    Tag::Scramble,
    Tag::SetAdvance,
    Tag::Close,
    Tag::SetEdition,
    Tag::Rename,
    Tag::SetRound,
    Tag::Rescramble,
    Tag::Withdraw,
    Tag::Reopen,
];

/// Whether a command has a form.
fn has_form(tag: Tag) -> bool
    ensures { result ≡ has_form tag }
{
    FORMS.contains(&tag)
}

/// The command of a word and its row, with the values of the fields that it needs.
fn command_of(
    alloc: Global,
    word: &[u8],
    row: &CommandRow,
    pairs: &Pairs,
) -> Result<Command, FieldFault>
    requires { row_named word.now ≡ Some (plain row.now) }
    ensures asked { IfOk result (IsAsked pairs.now word.now) }
    ensures form { IfOk result (λ command. has_form row.now.tag ≡ true) }
    ensures wrong { IfErr result (IsSaid
        (IsWrongIf (has_form row.now.tag) pairs.now (plain row.now).fields)) }
{
    if !has_form(row.tag) {
        return Err(FieldFault::NO_FORM);
    }
    let values = values(alloc, pairs, row.fields)?;
    match command_of_values(row.tag, values) {
        Some(command) => Ok(command),
        None => Err(FieldFault::NO_FORM),
    }
}

fn is_name(kind: FieldKind) -> bool
    ensures { result ≡ is_name kind }
{
    matches!(kind, FieldKind::Name | FieldKind::NewName)
}

fn is_moves(kind: FieldKind) -> bool
    ensures { result ≡ is_moves kind }
{
    matches!(kind, FieldKind::Moves)
}

fn has_name(kinds: &[FieldKind]) -> bool
    ensures { result ≡ list_any is_name kinds.now }
{
    kinds.iter().any(|kind| is_name(*kind))
}

fn has_moves(kinds: &[FieldKind]) -> bool
    ensures { result ≡ list_any is_moves kinds.now }
{
    kinds.iter().any(|kind| is_moves(*kind))
}

/// What is to blame where the text of a command of these fields is none, each of which has a value:
/// its name, or else its moves.
fn blamed(kinds: &[FieldKind]) -> (Field, FieldError)
    ensures { result ≡ blamed kinds.now }
{
    if has_name(kinds) {
        (Field::Name, FieldError::NotAName)
    } else if has_moves(kinds) {
        (Field::Moves, FieldError::NotMoves)
    } else {
        (Field::Command, FieldError::NotACommand)
    }
}

/// The text of the command of a word and its row that the fields ask for.
fn asked_by_row(
    alloc: Global,
    pairs: &Pairs,
    word: &[u8],
    row: &CommandRow,
) -> Result<UncheckedCommand, FieldFault>
    requires { row_named word.now ≡ Some (plain row.now) }
    ensures asks { IfOk result (λ asked. WordAsks pairs.now word.now asked.text.items) }
    ensures form { IfOk result (λ asked. has_form row.now.tag ≡ true) }
    ensures blamed { IfOk result (λ asked. asked.blamed ≡ blamed (plain row.now).fields) }
    ensures wrong { IfErr result (IsSaid
        (IsWrongIf (has_form row.now.tag) pairs.now (plain row.now).fields)) }
{
    let command = command_of(alloc, word, row, pairs)?;
    let text = print(alloc, &command)?;
    Ok(UncheckedCommand {
        text,
        blamed: blamed(row.fields),
    })
}

/// The text of the command that the fields ask for.
fn asked_by_fields(alloc: Global, pairs: &Pairs) -> Result<UncheckedCommand, FieldFault>
    ensures asks { IfOk result (λ asked. FieldsAsk pairs.now asked.text.items) }
    ensures blamed { IfOk result (λ asked. Blames true pairs.now asked.blamed) }
    ensures wrong { IfErr result (IsSaid (IsWrongBy true pairs.now)) }
{
    let word = trimmed(pairs.value("command"));
    match row_named(word) {
        Some(row) => asked_by_row(alloc, pairs, word, row),
        None => Err(FieldFault::NO_FORM),
    }
}

/// The text of the command that a form asks for.
fn asked_by(alloc: Global, pairs: &Pairs) -> Result<UncheckedCommand, FieldFault>
    ensures asks { IfOk result (λ asked. Asks pairs.now asked.text.items) }
    ensures blamed { IfOk result (λ asked. Blames (has_no_text pairs.now) pairs.now asked.blamed) }
    ensures wrong { IfErr result (IsSaid (IsWrong pairs.now)) }
{
    let text = trimmed(pairs.value("text"));
    if text.is_empty() {
        return asked_by_fields(alloc, pairs);
    }
    let text = Vec::from_slice(alloc, text)?;
    Ok(UncheckedCommand {
        text,
        blamed: (Field::Text, FieldError::NotACommand),
    })
}

/// The text, if it is a command.
fn checked(alloc: Global, asked: UncheckedCommand) -> Result<CommandText, FieldFault>
    ensures command { IfOk result IsCommandText }
    ensures same { IfOk result (λ text. text ≡ asked.text.items) }
    ensures wrong { IfErr result (IsSaid (IsNoCommand asked.blamed asked.text.items)) }
{
    let UncheckedCommand { text, blamed } = asked;
    let (field, why) = blamed;
    match read(alloc, &text) {
        Ok(_) => CommandText::new(text).ok_or(FieldFault::Wrong {
            field,
            why: FieldError::TooLong,
        }),
        Err(CommandFault::NoMemory) => Err(FieldFault::NoMemory),
        Err(CommandFault::TooLong) => Err(FieldFault::Wrong {
            field,
            why: FieldError::TooLong,
        }),
        Err(CommandFault::NotACommand | CommandFault::BadField { .. }) => {
            Err(FieldFault::Wrong { field, why })
        }
    }
}

/// The command of a form, under the form's `id`.
///
/// Where `text` has anything, it is the command. Else `command` is the word of a command that has a
/// form, and its fields are read in their order, each from the form's fields for its kind, without
/// the white space around them:
///
/// - a number: `number`; a name: `name`; an attempt: `attempt`; moves: `moves`; a format: `format`;
/// - an event and a round: `round`, as `333-1`; an event without a round: `event`;
/// - a cutoff: `cutoff` and `after`; a limit: `limit`; who advances: `advance` (`top`, `pct` or
///   `final`) and `amount`. Times are written as on a scorecard; an empty field or `-` is no cutoff
///   and no limit;
/// - an edition: none, it is edition 4.
///
/// A command that came with a later edition than the list's is refused, as `Unread`.
///
/// The fault is `BadId`; or the first field of the command that is wrong, in that order; or
/// `NoMemory`, in place of any answer.
pub fn command_form(alloc: Global, pairs: &Pairs) -> Result<CommandForm, CommandFormFault>
    // The id is the form's.
    ensures id { IfOk result
        (λ form. form_id_of (value_of (codes "id") pairs.now) ≡ Some form.id) }
    // The text is the one that the form asks for.
    ensures asks { IfOk result (λ form. Asks pairs.now form.text) }
    // It is the spelling of a command in its ranges.
    ensures command { IfOk result (λ form. IsCommandText form.text) }
    // The fault is this one exactly where the form has no id.
    ensures bad_id { (result ≡ Err CommandFormFault.BadId)
        ↔ (form_id_of (value_of (codes "id") pairs.now) ≡ None) }
    // The fault says what is wrong, and with which field; then no text that is asked for is a
    // command.
    ensures wrong { IfErr result (IsFault pairs.now) }
{
    let id = form_id_of(pairs.value("id")).ok_or(CommandFormFault::BadId)?;
    let asked = asked_by(alloc, pairs)?;
    let text = checked(alloc, asked)?;
    Ok(CommandForm { id, text })
}
