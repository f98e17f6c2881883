//! What is wrong with a line that is no command, in words.

ghost use Rattle.std.specs.Prelude.{◌≡◌, ◌++◌, ◌<◌, length, IfOk, OnOk, option_map, map};
ghost use Rattle.std.specs.Option.{option_copied};
ghost use Rattle.lines.specs.command_file.Faults.{border_of, extra_text, fault_text, field_at};
ghost use Rattle.lines.specs.command_file.Faults.{field_text, first_fault, index_text};
ghost use Rattle.lines.specs.command_file.Faults.{is_within_char, keeps_beyond, kept_text};
ghost use Rattle.lines.specs.command_file.Faults.{left_after, line_text, misspelt_text, named};
ghost use Rattle.lines.specs.command_file.Faults.{now_text, parts_of, remark_text, values_in};
ghost use Rattle.lines.specs.command_file.Faults.{quoted, shown, shown_byte, unknown_text, word_of};

use crate::command_file::command_text::InputCommand;
use crate::command_file::field_words::{form, is_now, name, verb};
use attempts::push_decimal;
use std::alloc::{AllocError, Global};
use texts::{CommandFault, FieldKind, cut, cut_remark, kind_at, read, row_named};

/// The most bytes of a text that are shown.
const MOST_SHOWN: usize = 40;

/// A byte as it is shown: a control character as a question mark.
fn shown_byte(byte: u8) -> u8
    ensures { result ≡ shown_byte byte }
{
    if byte < b' ' || byte == 127 {
        b'?'
    } else {
        byte
    }
}

/// Whether a byte of UTF-8 is not the first one of its character.
fn is_within_char(byte: u8) -> bool
    ensures { result ≡ is_within_char byte }
{
    128 <= byte && byte < 192
}

/// How many bytes of a long text are shown, so that no character is cut.
fn border_of(text: &[u8]) -> usize
    requires { 40 < length text.now }
    ensures { result ≡ border_of text.now }
{
    if !is_within_char(text[MOST_SHOWN]) {
        MOST_SHOWN
    } else if !is_within_char(text[MOST_SHOWN - 1]) {
        MOST_SHOWN - 1
    } else if !is_within_char(text[MOST_SHOWN - 2]) {
        MOST_SHOWN - 2
    } else {
        MOST_SHOWN - 3
    }
}

/// Adds bytes as they are shown.
fn push_bytes(out: &mut Vec<u8>, bytes: &[u8]) -> Result<(), AllocError>
    ensures { OnOk result (out.new.items ≡ out.old.items ++ map shown_byte bytes.now) }
{
    for byte in bytes {
        out.push(shown_byte(*byte))?;
    }
    Ok(())
}

/// Adds a text as it is shown, the front of it where it is long.
fn push_shown(out: &mut Vec<u8>, text: &[u8]) -> Result<(), AllocError>
    ensures { OnOk result (out.new.items ≡ out.old.items ++ shown text.now) }
{
    if text.len() <= MOST_SHOWN {
        return push_bytes(out, text);
    }
    push_bytes(out, &text[..border_of(text)])?;
    out.extend_from_slice(b"..")
}

/// What is left of a text after this many fields, of which its word is the first.
fn left_after(text: &[u8], fields: u8) -> Option<&[u8]>
    ensures { option_copied result ≡ left_after fields text.now }
{
    let mut left = Some(text);
    for _field in 0..fields {
        left = match left {
            Some(bytes) => cut(bytes, b' ').1,
            None => None,
        };
    }
    left
}

/// The field of a text with an index, where it is there: all that is left, or up to a space.
fn field_at(text: &[u8], index: u8, is_rest: bool) -> Option<&[u8]>
    ensures { option_copied result ≡ field_at is_rest index text.now }
{
    match left_after(text, index) {
        Some(left) => {
            if is_rest {
                Some(left)
            } else {
                Some(cut(left, b' ').0)
            }
        }
        None => None,
    }
}

/// What is in a text in front of its first space.
fn word_of(text: &[u8]) -> &[u8]
    ensures { result.now ≡ word_of text.now }
{
    cut(text, b' ').0
}

/// What is in a text in front of a remark, and the remark, where it may have one and has one.
fn parts_of(text: &[u8]) -> (&[u8], Option<&[u8]>)
    ensures { (result.0.now, option_copied result.1) ≡ parts_of text.now }
{
    match row_named(word_of(text)) {
        Some(row) if row.takes_remark => cut_remark(text),
        _ => (text, None),
    }
}

/// Adds a text as it is shown, between quotation marks.
#[tactic(auto, unfolding(crate::specs::command_file::Faults::quoted))]
fn push_quoted(out: &mut Vec<u8>, text: &[u8]) -> Result<(), AllocError>
    ensures { OnOk result (out.new.items ≡ out.old.items ++ quoted text.now) }
{
    out.extend_from_slice(b"'")?;
    push_shown(out, text)?;
    out.extend_from_slice(b"'")
}

/// Adds what a field is called.
fn push_named(out: &mut Vec<u8>, kind: FieldKind) -> Result<(), AllocError>
    ensures { OnOk result (out.new.items ≡ out.old.items ++ named kind) }
{
    out.extend_from_slice(b"the ")?;
    out.extend_from_slice(name(kind).as_bytes())
}

/// Adds what is wrong with a field that has these bytes.
fn push_misspelt(out: &mut Vec<u8>, kind: FieldKind, bytes: &[u8]) -> Result<(), AllocError>
    ensures { OnOk result (out.new.items ≡ out.old.items ++ misspelt_text kind bytes.now) }
{
    out.extend_from_slice(b" ")?;
    push_quoted(out, bytes)?;
    out.extend_from_slice(verb(kind).as_bytes())?;
    out.extend_from_slice(b"no ")?;
    out.extend_from_slice(form(kind).as_bytes())
}

/// Adds what is wrong with a field.
fn push_field_fault(
    out: &mut Vec<u8>,
    kind: FieldKind,
    given: Option<&[u8]>,
) -> Result<(), AllocError>
    ensures { OnOk result
        (out.new.items ≡ out.old.items ++ field_text kind (option_copied given.entry)) }
{
    push_named(out, kind)?;
    match given {
        None => {
            out.extend_from_slice(verb(kind).as_bytes())?;
            out.extend_from_slice(b"missing")
        }
        Some(bytes) => {
            if bytes.is_empty() {
                out.extend_from_slice(verb(kind).as_bytes())?;
                out.extend_from_slice(b"empty")
            } else {
                push_misspelt(out, kind, bytes)
            }
        }
    }
}

/// How many values the field of the values before has.
fn values_in(was: &[u8]) -> usize
    ensures { result ≡ values_in was.now }
{
    if was == b"-".as_slice() {
        0
    } else {
        was.split(|byte| *byte == b',').count()
    }
}

/// Whether one stays as it is of the attempts that are to count after this many.
fn keeps_beyond(values: usize, now: &[u8]) -> bool
    ensures { result ≡ keeps_beyond values now.now }
{
    now.split(|byte| *byte == b'/')
        .skip(values)
        .any(|part| part == b"=".as_slice())
}

/// Adds that attempts that are to count keep one that does not count.
fn push_kept(out: &mut Vec<u8>, now: &[u8]) -> Result<(), AllocError>
    ensures { OnOk result (out.new.items ≡ out.old.items ++ kept_text now.now) }
{
    push_named(out, FieldKind::Now)?;
    out.extend_from_slice(b" ")?;
    push_quoted(out, now)?;
    out.extend_from_slice(b" keep one that the values before do not have")
}

/// Adds what is wrong with the attempts that are to count, by the field of the values before.
fn push_now_fault(
    out: &mut Vec<u8>,
    was: Option<&[u8]>,
    given: Option<&[u8]>,
) -> Result<(), AllocError>
    ensures { OnOk result (out.new.items
        ≡ out.old.items ++ now_text (option_copied was.entry) (option_copied given.entry)) }
{
    if let (Some(was), Some(now)) = (was, given) {
        if keeps_beyond(values_in(was), now) {
            return push_kept(out, now);
        }
    }
    push_field_fault(out, FieldKind::Now, given)
}

/// Adds what is wrong with a remark.
fn push_remark_fault(out: &mut Vec<u8>, bytes: &[u8]) -> Result<(), AllocError>
    ensures { OnOk result (out.new.items ≡ out.old.items ++ remark_text bytes.now) }
{
    out.extend_from_slice(b"the remark ")?;
    if bytes.is_empty() {
        return out.extend_from_slice(b"is empty");
    }
    push_quoted(out, bytes)?;
    out.extend_from_slice(b" is no remark of at most 80 bytes with single spaces and no ")?;
    out.extend_from_slice(b"double quote, as A 14:02")
}

/// Adds what is said of what is after the last field: another one, or a remark.
fn push_extra(
    out: &mut Vec<u8>,
    left: Option<&[u8]>,
    remark: Option<&[u8]>,
) -> Result<(), AllocError>
    ensures { OnOk result (out.new.items
        ≡ out.old.items ++ extra_text (option_copied left.entry) (option_copied remark.entry)) }
{
    match left {
        None => match remark {
            None => out.extend_from_slice(b"a field is missing"),
            Some(bytes) => push_remark_fault(out, bytes),
        },
        Some(bytes) => {
            push_quoted(out, bytes)?;
            out.extend_from_slice(b" is one field too many")
        }
    }
}

/// Adds what is wrong at an index.
fn push_index_fault(out: &mut Vec<u8>, text: &[u8], index: u8) -> Result<(), AllocError>
    ensures { OnOk result (out.new.items ≡ out.old.items ++ index_text index text.now) }
{
    let (front, remark) = parts_of(text);
    match kind_at(word_of(text), index) {
        Some(kind) => {
            if is_now(kind) {
                let was = field_at(front, index.saturating_sub(1), false);
                push_now_fault(out, was, left_after(front, index))
            } else {
                push_field_fault(out, kind, field_at(front, index, kind.is_rest()))
            }
        }
        None => push_extra(out, left_after(front, index), remark),
    }
}

/// Adds what is said of a text whose word is no command's.
fn push_unknown(out: &mut Vec<u8>, text: &[u8]) -> Result<(), AllocError>
    ensures { OnOk result (out.new.items ≡ out.old.items ++ unknown_text text.now) }
{
    push_quoted(out, word_of(text))?;
    out.extend_from_slice(b" is no command, as ENT 333 17")
}

/// Adds what is wrong with a text.
fn push_fault(out: &mut Vec<u8>, text: &[u8], fault: CommandFault) -> Result<(), AllocError>
    ensures { OnOk result (out.new.items ≡ out.old.items ++ fault_text text.now fault) }
{
    match fault {
        CommandFault::TooLong => out.extend_from_slice(b"the text has more than 600 bytes"),
        CommandFault::NotACommand => push_unknown(out, text),
        CommandFault::BadField { index } => push_index_fault(out, text, index),
        CommandFault::NoMemory => Ok(()),
    }
}

/// What is said of a command whose text is at fault.
fn line_text(
    alloc: Global,
    command: &InputCommand,
    fault: CommandFault,
) -> Result<Vec<u8>, AllocError>
    ensures { IfOk result (λ said. said.items ≡ line_text command.now fault) }
{
    let mut out = Vec::from_slice(alloc, b"line ")?;
    push_decimal(&mut out, command.number())?;
    out.extend_from_slice(b": ")?;
    push_fault(&mut out, command.text(), fault)?;
    Ok(out)
}

/// What is wrong with the first of these whose text is no command in any edition: the number of its
/// line, and the field with what is in it (`line 7: the outcome '16.26' is no T:h:p, as T:1626:0`),
/// without a line feed. None where each is a command. Of a long field the front is shown, and a
/// question mark in place of a control character.
pub fn first_fault(alloc: Global, commands: &[InputCommand]) -> Result<Option<Vec<u8>>, AllocError>
    ensures { IfOk result
        (λ said. option_map (λ text. text.items) said ≡ first_fault commands.now) }
{
    for command in commands {
        match read(alloc, command.text()) {
            Ok(_) => {}
            Err(CommandFault::NoMemory) => return Err(AllocError),
            Err(fault) => {
                let said = line_text(alloc, command, fault)?;
                return Ok(Some(said));
            }
        }
    }
    Ok(None)
}
