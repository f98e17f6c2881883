//! Forms that send commands.

ghost use Rattle.std.specs.Prelude.{◌≡◌, ◌++◌, ◌<◌, IfOk, OnOk, decimal, get_or};
ghost use Rattle.table_views.specs.Forms.{button, choice, commands_word, form_start, path_of};
ghost use Rattle.table_views.specs.Forms.{person_path, round_form, round_value, text_field};
ghost use Rattle.table_views.specs.Forms.{unit_field, unseen};

use crate::hidden::push_hidden;
use acceptor::NoMemory;
use attempts::push_decimal;
use card_forms::FormId;
use markup::Piece::{Html, Number, Text};
use markup::fill;
use round_words::push_round_name;
use std::alloc::Global;
use texts::RoundId;

/// The rounds that an event can have.
pub const ROUNDS: [u8; 4] = [1, 2, 3, 4];

/// The id of a form, by the form's place among those of its page, counted from 0.
pub fn id_at(ids: &[FormId; 32], place: usize) -> FormId
    requires { place < 32 }
    ensures { result ≡ get_or ids.now place 0 }
{
    ids[place]
}

const UNSEEN: &[u8] = b"<input type=\"hidden\" name=\"$\" value=\"$\">\n";

/// Adds a value that a form carries unseen.
///
/// # Errors
///
/// Where memory runs out. A front part may have been added then.
pub fn push_unseen<'a>(out: &mut Vec<u8>, name: &'a [u8], value: &'a [u8]) -> Result<(), NoMemory>
    ensures { OnOk result (out.new.items ≡ out.old.items ++ unseen name.now value.now) }
{
    fill(out, UNSEEN, &[Html(name), Text(value)])
}

/// Adds the beginning of a form for a command of this word. After it the browser goes to the path
/// of the page that the form is on.
///
/// # Errors
///
/// Where memory runs out. A front part may have been added then.
#[tactic(auto, unfolding(crate::specs::Forms::form_start))]
pub fn push_form(
    out: &mut Vec<u8>,
    token: &[u8],
    id: FormId,
    command: &[u8],
    back: &[u8],
) -> Result<(), NoMemory>
    ensures { OnOk result (out.new.items
        ≡ out.old.items ++ form_start token.now id command.now back.now) }
{
    out.extend_from_slice(b"<form method=\"post\" action=\"/command\" autocomplete=\"off\">\n")?;
    push_hidden(out, token, id)?;
    push_unseen(out, b"command", command)?;
    push_unseen(out, b"back", back)
}

/// Adds the round of a form, unseen.
fn push_round_value(out: &mut Vec<u8>, id: RoundId) -> Result<(), NoMemory>
    ensures { OnOk result (out.new.items ≡ out.old.items ++ round_value id) }
{
    out.extend_from_slice(b"<input type=\"hidden\" name=\"round\" value=\"")?;
    push_round_name(out, id)?;
    out.extend_from_slice(b"\">\n")
}

/// Adds the beginning of a form for a command about a round, which it carries unseen. After it the
/// browser goes to the page of the round's forms.
///
/// # Errors
///
/// Where memory runs out. A front part may have been added then.
#[tactic(auto, unfolding(crate::specs::Forms::round_form))]
pub fn push_round_form(
    out: &mut Vec<u8>,
    token: &[u8],
    form: FormId,
    command: &[u8],
    id: RoundId,
) -> Result<(), NoMemory>
    ensures { OnOk result (out.new.items
        ≡ out.old.items ++ round_form token.now form command.now id) }
{
    let back = path_of(*out.allocator(), id)?;
    push_form(out, token, form, command, &back)?;
    push_round_value(out, id)
}

const BUTTON: &[u8] = b"<button>$</button></form>\n";

/// Adds the end of a form, with what its button says.
///
/// # Errors
///
/// Where memory runs out. A front part may have been added then.
pub fn push_button(out: &mut Vec<u8>, words: &[u8]) -> Result<(), NoMemory>
    ensures { OnOk result (out.new.items ≡ out.old.items ++ button words.now) }
{
    fill(out, BUTTON, &[Html(words)])
}

const TEXT_FIELD: &[u8] = b"<label>$ <input name=\"$\" value=\"$\"></label>\n";

/// Adds a field with a label.
///
/// # Errors
///
/// Where memory runs out. A front part may have been added then.
pub fn push_text_field<'a>(
    out: &mut Vec<u8>,
    name: &'a [u8],
    label: &'a [u8],
    value: &'a [u8],
) -> Result<(), NoMemory>
    ensures { OnOk result (out.new.items
        ≡ out.old.items ++ text_field name.now label.now value.now) }
{
    fill(out, TEXT_FIELD, &[Html(label), Html(name), Text(value)])
}

const UNIT_FIELD: &[u8] = b"<label>$ <input name=\"$\" data-unit=\"$\" value=\"$\"></label>\n";

/// Adds a field with a label, and with the unit in which a script reads what is in it.
///
/// # Errors
///
/// Where memory runs out. A front part may have been added then.
pub fn push_unit_field<'a>(
    out: &mut Vec<u8>,
    name: &'a [u8],
    label: &'a [u8],
    unit: &'a [u8],
    value: &'a [u8],
) -> Result<(), NoMemory>
    ensures { OnOk result (out.new.items
        ≡ out.old.items ++ unit_field name.now label.now unit.now value.now) }
{
    fill(
        out,
        UNIT_FIELD,
        &[Html(label), Html(name), Html(unit), Text(value)],
    )
}

/// The word after a number of commands.
pub fn commands_word(count: usize) -> &'static [u8]
    ensures { result.now ≡ commands_word count }
{
    if count == 1 {
        b" command"
    } else {
        b" commands"
    }
}

const CHOICE: &[u8] = b"<option value=\"$\">$</option>\n";

/// Adds one of the values that can be chosen.
///
/// # Errors
///
/// Where memory runs out. A front part may have been added then.
pub fn push_choice<'a>(out: &mut Vec<u8>, value: &'a [u8], words: &'a [u8]) -> Result<(), NoMemory>
    ensures { OnOk result (out.new.items ≡ out.old.items ++ choice value.now words.now) }
{
    fill(out, CHOICE, &[Html(value), Html(words)])
}

/// The path of the page of a round's forms.
///
/// # Errors
///
/// Where memory runs out.
pub fn path_of(alloc: Global, id: RoundId) -> Result<Vec<u8>, NoMemory>
    ensures { IfOk result (λ path. path.items ≡ path_of id) }
{
    let mut path = Vec::new(alloc);
    path.extend_from_slice(b"/rounds?round=")?;
    push_round_name(&mut path, id)?;
    Ok(path)
}

const PERSON_PATH: &[u8] = b"/person/$";

/// The path of the page of a competitor.
///
/// # Errors
///
/// Where memory runs out.
pub fn person_path(alloc: Global, number: u16) -> Result<Vec<u8>, NoMemory>
    ensures { IfOk result (λ path. path.items ≡ person_path number) }
{
    let mut path = Vec::new(alloc);
    fill(&mut path, PERSON_PATH, &[Number(number as u64)])?;
    Ok(path)
}

/// A number in decimal.
///
/// # Errors
///
/// Where memory runs out.
pub fn digits_of(alloc: Global, number: u32) -> Result<Vec<u8>, NoMemory>
    ensures { IfOk result (λ digits. digits.items ≡ decimal number) }
{
    let mut digits = Vec::new(alloc);
    push_decimal(&mut digits, number)?;
    Ok(digits)
}
