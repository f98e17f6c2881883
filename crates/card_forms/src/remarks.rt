//! Remarks of the commands that forms ask for.

ghost use Rattle.std.specs.Prelude.{◌≡◌, ◌+◌, IfOk, length, nat_le};
ghost use Rattle.card_forms.specs.Remarks.{NotesTheCommand, before_remark, is_same_but_remark};
ghost use Rattle.card_forms.specs.Remarks.{has_no_mark, is_plain, may_note, noted, takes_remark};
ghost use Rattle.texts.specs.Names.{is_remark};

use crate::command_text::CommandText;
use std::alloc::{AllocError, Global};
use texts::{cut, cut_remark, is_clear_name, row_named};

/// The most bytes of a command's text, 600, but for the three before a remark.
const MOST_TEXTS: usize = 597;

/// The most bytes of a remark.
const MOST_REMARK: usize = 80;

/// Whether the command of a text may have a remark.
fn takes_remark(text: &[u8]) -> bool
    ensures { result ≡ takes_remark text.now }
{
    match row_named(cut(text, b' ').0) {
        Some(row) => row.takes_remark,
        None => false,
    }
}

/// What is in a text before its remark.
fn before_remark(text: &[u8]) -> &[u8]
    ensures { result.now ≡ before_remark text.now }
{
    if takes_remark(text) {
        cut_remark(text).0
    } else {
        text
    }
}

/// Whether two texts are the same but for a remark.
pub fn is_same_but_remark(one: &[u8], other: &[u8]) -> bool
    ensures { result ≡ is_same_but_remark one.now other.now }
{
    before_remark(one) == before_remark(other)
}

/// Whether these bytes are a remark.
fn is_remark(bytes: &[u8]) -> bool
    ensures { result ≡ is_remark bytes.now }
{
    bytes.len() <= MOST_REMARK && is_clear_name(bytes)
}

/// Whether a text and a remark are short enough together.
fn fits(remark: &[u8], text: &[u8]) -> bool
    ensures { result ≡ nat_le (length text.now + length remark.now) 597 }
{
    text.len() + remark.len() <= MOST_TEXTS
}

/// Whether a text has no number sign.
fn has_no_mark(text: &[u8]) -> bool
    ensures { result ≡ has_no_mark text.now }
{
    text.iter().all(|byte| *byte != b'#')
}

/// Whether the command of a text may have a remark, and has none.
fn is_plain(text: &[u8]) -> bool
    ensures { result ≡ is_plain text.now }
{
    takes_remark(text) && has_no_mark(text)
}

/// Whether a remark is added to a text.
fn may_note(remark: &[u8], text: &[u8]) -> bool
    ensures { result ≡ may_note remark.now text.now }
{
    is_remark(remark) && fits(remark, text) && is_plain(text)
}

/// The text of a command with this remark, where the command may have one, has no number sign, and
/// has room for it in its 600 bytes; else the text as it is.
pub fn noted(alloc: Global, remark: &[u8], text: &CommandText) -> Result<CommandText, AllocError>
    ensures { IfOk result (λ it. it ≡ noted remark.now text.now) }
{
    let mut bytes = Vec::from_slice(alloc, text.as_bytes())?;
    if may_note(remark, text.as_bytes()) {
        bytes.extend_from_slice(b" # ")?;
        bytes.extend_from_slice(remark)?;
    }
    match CommandText::new(bytes) {
        Some(text) => Ok(text),
        None => unreachable!(),
    }
}

/// A law: a remark that is added changes nothing of what a text says but the remark.
pub fn remark_alone_is_added()
    ensures { NotesTheCommand }
{}
