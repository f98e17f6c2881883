//! A row of a log.

ghost use Rattle.std.specs.Prelude.{◌≡◌, ◌<◌, ◌++◌, IfOk, OnOk, count_by, decimal, map};
ghost use Rattle.std.specs.Prelude.{[], replicate, unwrap_or};
ghost use Rattle.sheets.specs.Sheet.{right};
ghost use Rattle.texts.specs.Reading.{command_of};
ghost use Rattle.log_rows.specs.Rows.{answer_word, before_remark, begins, column, printed};
ghost use Rattle.log_rows.specs.Rows.{remark_of, row, row_end, row_start};

use acceptor::NoMemory;
use acceptor::entry::Entry;
use itoa::Buffer;
use std::alloc::{AllocError, Global};
use texts::{Answer, CommandFault, RemarkedCommand, read};

/// Adds this many spaces.
fn push_spaces(out: &mut Vec<u8>, count: usize) -> Result<(), NoMemory>
    ensures { OnOk result (out.new.items ≡ out.old.items ++ replicate count 32) }
{
    for _ in 0..count {
        out.push(b' ')?;
    }
    Ok(())
}

/// Adds a number in decimal on the right of this many columns.
fn push_right(out: &mut Vec<u8>, width: usize, number: u32) -> Result<(), NoMemory>
    ensures { OnOk result (out.new.items ≡ out.old.items ++ right width (decimal number)) }
{
    let mut buffer = Buffer::new();
    let text = buffer.format(number).as_bytes();
    push_spaces(out, width.saturating_sub(text.len()))?;
    out.extend_from_slice(text)
}

/// Whether a character begins with a byte.
fn begins(byte: u8) -> bool
    ensures { result ≡ begins byte }
{
    !(byte >= 128 && byte < 192)
}

/// How many characters a text has.
fn characters(text: &[u8]) -> usize
    ensures { result ≡ count_by begins text.now }
{
    text.iter().filter(|byte| begins(**byte)).count()
}

/// Adds a text on the left of this many columns, one for each character, and two spaces.
#[tactic(auto, unfolding(crate::specs::Rows::column))]
fn push_column(out: &mut Vec<u8>, width: usize, text: &[u8]) -> Result<(), NoMemory>
    ensures { OnOk result (out.new.items ≡ out.old.items ++ column width text.now) }
{
    out.extend_from_slice(text)?;
    push_spaces(out, width.saturating_sub(characters(text)))?;
    out.extend_from_slice(b"  ")
}

/// What is printed of a byte.
fn printed(byte: u8) -> u8
    ensures { result ≡ printed byte }
{
    if byte >= 32 && byte != 127 {
        byte
    } else {
        b'?'
    }
}

/// Adds what is printed of a text.
fn push_printed(out: &mut Vec<u8>, text: &[u8]) -> Result<(), NoMemory>
    ensures { OnOk result (out.new.items ≡ out.old.items ++ map printed text.now) }
{
    for byte in text {
        out.push(printed(*byte))?;
    }
    Ok(())
}

/// An answer as a word.
fn answer_word(answer: Answer) -> &'static [u8]
    ensures { result.now ≡ answer_word answer }
{
    match answer {
        Answer::Done => b"Done",
        Answer::Refused(code) => code.name().as_bytes(),
    }
}

/// The remark of a command, and nothing where it has none.
fn remark_in(alloc: Global, told: &RemarkedCommand) -> Result<Vec<u8>, NoMemory>
    ensures { IfOk result (λ remark. remark.items ≡ unwrap_or told.now.remark []) }
{
    match &told.remark {
        Some(remark) => Vec::from_slice(alloc, remark.as_bytes()),
        None => Ok(Vec::new(alloc)),
    }
}

/// The remark of a text, and nothing where it has none or is no command.
fn remark_of(alloc: Global, text: &[u8]) -> Result<Vec<u8>, NoMemory>
    ensures { IfOk result (λ remark. remark.items ≡ remark_of (command_of text.now)) }
{
    match read(alloc, text) {
        Ok(told) => remark_in(alloc, &told),
        Err(CommandFault::NoMemory) => Err(AllocError),
        Err(CommandFault::TooLong | CommandFault::NotACommand | CommandFault::BadField { .. }) =>
            Ok(Vec::new(alloc)),
    }
}

/// A text without its remark.
fn before_remark<'a>(remark: &[u8], text: &'a [u8]) -> &'a [u8]
    ensures { result.now ≡ before_remark remark.now text.now }
{
    if remark.is_empty() {
        return text;
    }
    &text[..text.len().saturating_sub(remark.len() + 3)]
}

/// Adds how many entries the log has up to and with this one, its id, and its answer.
#[tactic(auto, unfolding(crate::specs::Rows::row_start))]
fn push_start(out: &mut Vec<u8>, position: u32, id: u64, answer: Answer) -> Result<(), NoMemory>
    requires { position < 65536 }
    ensures { OnOk result (out.new.items ≡ out.old.items ++ row_start position id answer) }
{
    let mut digits = Buffer::new();
    push_right(out, 6, position + 1)?;
    out.extend_from_slice(b"  ")?;
    push_column(out, 19, digits.format(id).as_bytes())?;
    push_column(out, 17, answer_word(answer))
}

/// Adds a remark, and a text without it.
#[tactic(auto, unfolding(crate::specs::Rows::row_end))]
fn push_end(out: &mut Vec<u8>, remark: &[u8], text: &[u8]) -> Result<(), NoMemory>
    ensures { OnOk result (out.new.items ≡ out.old.items ++ row_end remark.now text.now) }
{
    push_column(out, 24, remark)?;
    push_printed(out, before_remark(remark, text))?;
    out.extend_from_slice(b"\n")
}

/// Adds the row of the entry at a position, which was answered so.
pub(crate) fn push_row(
    out: &mut Vec<u8>,
    position: u32,
    entry: &Entry,
    answer: Answer,
) -> Result<(), NoMemory>
    requires { position < 65536 }
    ensures { OnOk result (out.new.items ≡ out.old.items ++ row position entry.now answer) }
{
    let remark = remark_of(*out.allocator(), entry.text())?;
    push_start(out, position, entry.id(), answer)?;
    push_end(out, &remark, entry.text())
}
