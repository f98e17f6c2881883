//! The entries of what a form asks for.

ghost use Rattle.std.specs.Prelude.{◌≡◌, ◌+◌, ◌≤◌, ◌^◌, ◌++◌, ◌∷◌, [], IfOk, OnOk, length};
ghost use Rattle.acceptor.specs.Entries.{IsId};
ghost use Rattle.card_forms.specs.Entries.{SameWhereTheCardIs, card_entry, card_in, card_of};
ghost use Rattle.card_forms.specs.Entries.{card_text, command_entries, entry_of, entry_with};
ghost use Rattle.card_forms.specs.Entries.{remark_of};

use crate::command_text::CommandText;
use crate::command_texts::CommandTexts;
use crate::form_id::FormId;
use acceptor::entry::{Entry, EntryFault};
use std::alloc::{AllocError, Global};
use texts::{
    CardEntry, Command, CommandFault, Name, RemarkedCommand, is_clear_name, print, print_remarked,
    read,
};

/// The most bytes of a command's text.
const MOST_TEXT: usize = 600;

/// The most bytes of a remark.
const MOST_REMARK: usize = 80;

/// The entry of a text, under this id. None: the text has more than 600 bytes.
fn entry_of(alloc: Global, id: u64, text: &[u8]) -> Result<Option<Entry>, AllocError>
    requires { IsId id }
    ensures { IfOk result (λ entry. entry ≡ entry_of id text.now) }
{
    match Entry::new(alloc, id, text) {
        Ok(entry) => Ok(Some(entry)),
        Err(EntryFault::NoMemory) => Err(AllocError),
        Err(EntryFault::TooLong) => Ok(None),
        Err(EntryFault::BadId) => unreachable!(),
    }
}

/// These bytes as a remark, if they are one.
fn remark_of(alloc: Global, bytes: &[u8]) -> Result<Option<Name>, AllocError>
    ensures { IfOk result (λ remark. remark ≡ remark_of bytes.now) }
{
    if bytes.len() > MOST_REMARK || !is_clear_name(bytes) {
        return Ok(None);
    }
    Ok(Some(Name::new(Vec::from_slice(alloc, bytes)?)))
}

/// The text of a card, with these bytes as its remark. It has none where they are no remark, or
/// where it would have more than 600 bytes with it.
fn card_text(alloc: Global, card: CardEntry, remark: &[u8]) -> Result<Vec<u8>, AllocError>
    ensures { IfOk result (λ text. text.items ≡ card_text card remark.now) }
{
    let told = RemarkedCommand {
        command: Command::Card(card),
        remark: remark_of(alloc, remark)?,
    };
    let text = print_remarked(alloc, &told)?;
    if text.len() <= MOST_TEXT {
        return Ok(text);
    }
    print(alloc, &told.command)
}

/// The entry of a card, under the id of its form, with a remark: who entered it, and when. The
/// remark is left out where it is none, or where it would make the text exceed 600 bytes. None: the
/// command has more than 600 bytes without a remark.
pub fn card_entry(
    alloc: Global,
    id: FormId,
    card: CardEntry,
    remark: &[u8],
) -> Result<Option<Entry>, AllocError>
    ensures { IfOk result (λ entry. entry ≡ card_entry id card remark.now) }
{
    let text = card_text(alloc, card, remark)?;
    entry_of(alloc, id.number(), &text)
}

/// A law: two texts that spell cards are the same but for a remark exactly where they spell the
/// same card.
pub fn same_where_the_card_is()
    ensures { SameWhereTheCardIs }
{}

/// The card of a command, if it is one.
fn card_of(command: Command) -> Option<CardEntry>
    ensures { result ≡ card_of command }
{
    match command {
        Command::Card(card) => Some(card),
        _ => None,
    }
}

/// The card that a text spells, with whatever remark; none where it spells no `CARD`.
pub fn card_in(alloc: Global, text: &[u8]) -> Result<Option<CardEntry>, AllocError>
    ensures { IfOk result (λ card. card ≡ card_in text.now) }
{
    match read(alloc, text) {
        Ok(told) => Ok(card_of(told.command)),
        Err(CommandFault::NoMemory) => Err(AllocError),
        Err(CommandFault::TooLong | CommandFault::NotACommand | CommandFault::BadField { .. }) =>
            Ok(None),
    }
}

/// The entry of a command, under this id.
fn command_entry(alloc: Global, id: u64, text: &CommandText) -> Result<Entry, AllocError>
    requires { IsId id }
    ensures { IfOk result (λ entry. entry ≡ entry_with id text.now) }
{
    match Entry::new(alloc, id, text.as_bytes()) {
        Ok(entry) => Ok(entry),
        Err(EntryFault::NoMemory) => Err(AllocError),
        Err(EntryFault::BadId | EntryFault::TooLong) => unreachable!(),
    }
}

/// Puts an entry after the others.
fn put(entries: &mut Vec<Entry>, entry: Entry) -> Result<(), AllocError>
    ensures { OnOk result (entries.new.items ≡ entries.old.items ++ entry ∷ []) }
{
    entries.push(entry)?;
    Ok(())
}

/// The entries of texts: the first has this id, and each further one the next.
fn text_entries(alloc: Global, id: u64, texts: &[CommandText]) -> Result<Vec<Entry>, AllocError>
    requires first { 1 ≤ id }
    requires last { id + length texts.now ≤ 2 ^ 63 }
    ensures { IfOk result (λ entries. entries.items ≡ command_entries id texts.now) }
{
    let mut entries = Vec::new(alloc);
    let mut next = id;
    for text in texts {
        let entry = command_entry(alloc, next, text)?;
        put(&mut entries, entry)?;
        next += 1;
    }
    Ok(entries)
}

/// The entries of commands: the first has the id of their form, and each further one the next.
pub fn command_entries(
    alloc: Global,
    id: FormId,
    texts: &CommandTexts,
) -> Result<Vec<Entry>, AllocError>
    ensures { IfOk result (λ entries. entries.items ≡ command_entries id texts.now) }
{
    text_entries(alloc, id.number(), texts.as_slice())
}
