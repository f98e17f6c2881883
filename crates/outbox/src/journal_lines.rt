//! The lines of a journal.

ghost use Rattle.std.specs.Prelude.{◌≡◌, ◌++◌, ◌∷◌, IfOk, IfSome, OnOk, decimal};
ghost use Rattle.std.specs.Option.{option_map};
ghost use Rattle.acceptor.specs.Entries.{IsId};
ghost use Rattle.outbox.specs.Lines.{answered_line, id_of, item_by, item_line, item_of, said};
ghost use Rattle.outbox.specs.Lines.{said_after, with_end};
ghost use Rattle.texts.specs.Fields.{cut};

use acceptor::entry::{Entry, EntryFault};
use itoa::Buffer;
use std::alloc::{AllocError, Global};
use texts::{cut, number_between};

/// The greatest id of an entry, 2^63 - 1.
const MOST_ID: u64 = 9_223_372_036_854_775_807;

/// The most bytes in the text of an entry.
const MOST_TEXT: usize = 600;

/// What a line of a journal says, but for the first.
#[derive(Drop)]
pub enum JournalLine {
    /// `item ID TEXT`: this entry was taken.
    Item(Entry),
    /// `answered ID`: a scoretaker has answered the item of this id.
    Answered(u64),
}

/// Puts a space and a number after the others.
fn push_number(lines: &mut Vec<u8>, number: u64) -> Result<(), AllocError>
    ensures { OnOk result (lines.new.items ≡ lines.old.items ++ 32 ∷ decimal number) }
{
    lines.extend_from_slice(b" ")?;
    lines.extend_from_slice(Buffer::new().format(number).as_bytes())
}

/// The line that says that an item was taken, with its end.
pub(crate) fn line_of(alloc: Global, entry: &Entry) -> Result<Vec<u8>, AllocError>
    ensures { IfOk result (λ line. line.items ≡ with_end (item_line entry.now)) }
{
    let mut line = Vec::from_slice(alloc, b"item")?;
    push_number(&mut line, entry.id())?;
    line.extend_from_slice(b" ")?;
    line.extend_from_slice(entry.text())?;
    line.extend_from_slice(b"\n")?;
    Ok(line)
}

/// The line that says that an item was answered, with its end.
pub(crate) fn line_of_answer(alloc: Global, id: u64) -> Result<Vec<u8>, AllocError>
    ensures { IfOk result (λ line. line.items ≡ with_end (answered_line id)) }
{
    let mut line = Vec::from_slice(alloc, b"answered")?;
    push_number(&mut line, id)?;
    line.extend_from_slice(b"\n")?;
    Ok(line)
}

/// The id that a word spells.
fn id_of(word: &[u8]) -> Option<u64>
    ensures value { result ≡ id_of word.now }
    ensures in_range { IfSome result IsId }
{
    number_between(1, MOST_ID, word)
}

/// The item of an id and a text.
fn item_of(alloc: Global, id: u64, text: &[u8]) -> Result<Option<JournalLine>, AllocError>
    requires { IsId id }
    ensures { IfOk result (λ line. line ≡ item_of (Some id) text.now) }
{
    if text.len() > MOST_TEXT {
        return Ok(None);
    }
    match Entry::new(alloc, id, text) {
        Ok(entry) => Ok(Some(JournalLine::Item(entry))),
        Err(EntryFault::NoMemory) => Err(AllocError),
        Err(EntryFault::BadId | EntryFault::TooLong) => unreachable!(),
    }
}

/// The item of what is after the first word.
fn item_by(alloc: Global, rest: &[u8]) -> Result<Option<JournalLine>, AllocError>
    ensures { IfOk result (λ line. line ≡ item_by (cut 32 rest.now)) }
{
    let (word, text) = cut(rest, b' ');
    let Some(text) = text else {
        return Ok(None);
    };
    match id_of(word) {
        Some(id) => item_of(alloc, id, text),
        None => Ok(None),
    }
}

/// What a line says by its first word, and what is after that.
fn said_after(alloc: Global, word: &[u8], rest: &[u8]) -> Result<Option<JournalLine>, AllocError>
    ensures { IfOk result (λ line. line ≡ said_after word.now rest.now) }
{
    if word == b"item".as_slice() {
        return item_by(alloc, rest);
    }
    if word == b"answered".as_slice() {
        return Ok(id_of(rest).map(|id| JournalLine::Answered(id)));
    }
    Ok(None)
}

/// What a line says, without its end. None: it is no line of a journal, or the first.
pub fn read_line(alloc: Global, line: &[u8]) -> Result<Option<JournalLine>, AllocError>
    ensures { IfOk result (λ read. read ≡ said line.now) }
{
    match cut(line, b' ') {
        (word, Some(rest)) => said_after(alloc, word, rest),
        (_, None) => Ok(None),
    }
}
