//! Entries that are to be taken.

ghost use Rattle.std.specs.Prelude.{◌≡◌, ◌++◌, ◌∷◌, [], IfOk, OnOk, decimal};
ghost use Rattle.std.specs.Option.{option_map};
ghost use Rattle.table_service.specs.Taking.{PlansEntries, both_words, has_room};
ghost use Rattle.table_service.specs.Taking.{is_sent, last_id, other_in, other_of, place_after};
ghost use Rattle.table_service.specs.Taking.{place_with};

use crate::commanding::tell;
use crate::plan::{Effect, Problem, RequestPlan};
use acceptor::entry::Entry;
use card_forms::is_same_but_remark;
use itoa::Buffer;
use outbox::Outbox;
use std::alloc::{AllocError, Global};
use table_views::PageContext;

/// The most items that are known: as many as a log has entries.
const MOST_ITEMS: usize = 65_536;

/// A list of one entry.
pub(crate) fn list_of(alloc: Global, entry: Entry) -> Result<Vec<Entry>, AllocError>
    ensures { IfOk result (λ entries. entries.items ≡ entry ∷ []) }
{
    let mut entries = Vec::new(alloc);
    entries.push(entry)?;
    Ok(entries)
}

/// Whether the id of an entry is known with its text, whatever the remarks are.
pub(crate) fn is_sent(outbox: &Outbox, entry: &Entry) -> bool
    ensures { result ≡ is_sent outbox.now.list entry.now }
{
    match outbox.find(entry.id()) {
        Some(item) => is_same_but_remark(item.entry.text(), entry.text()),
        None => false,
    }
}

/// The text under which the id of an entry is known, where it is another one, whatever the remarks
/// are.
fn other_of<'a>(outbox: &'a Outbox, entry: &Entry) -> Option<&'a [u8]>
    ensures { option_map (λ text. text.now) result ≡ other_of outbox.now.list entry.now }
{
    let item = outbox.find(entry.id())?;
    if is_same_but_remark(item.entry.text(), entry.text()) {
        None
    } else {
        Some(item.entry.text())
    }
}

/// The first of these entries whose id is known with another text: that text, and its own.
fn other_in<'a>(outbox: &'a Outbox, entries: &'a [Entry]) -> Option<(&'a [u8], &'a [u8])>
    ensures { option_map (λ both. (both.0.now, both.1.now)) result
        ≡ other_in outbox.now.list entries.now }
{
    for entry in entries {
        if let Some(known) = other_of(outbox, entry) {
            return Some((known, entry.text()));
        }
    }
    None
}

/// Whether there is room for this many entries.
pub(crate) fn has_room(outbox: &Outbox, count: usize) -> bool
    ensures { result ≡ has_room outbox.now.list count }
{
    count <= MOST_ITEMS - outbox.len()
}

/// What is said of a form that was sent before with something else: both texts.
fn both_words(alloc: Global, known: &[u8], sent: &[u8]) -> Result<Vec<u8>, AllocError>
    ensures { IfOk result (λ words. words.items ≡ both_words known.now sent.now) }
{
    let mut words = Vec::from_slice(alloc, b"This form was sent before, with this:\n")?;
    words.extend_from_slice(known)?;
    words.extend_from_slice(b"\nWhat is sent now is not entered:\n")?;
    words.extend_from_slice(sent)?;
    words.extend_from_slice(b"\n")?;
    Ok(words)
}

/// The id of the last of these entries.
fn last_id(entries: &[Entry]) -> Option<u64>
    ensures { result ≡ last_id entries.now }
{
    match entries.last() {
        Some(entry) => Some(entry.id()),
        None => None,
    }
}

/// Adds a number in decimal.
fn push_number(text: &mut Vec<u8>, number: u64) -> Result<(), AllocError>
    ensures { OnOk result (text.new.items ≡ text.old.items ++ decimal number) }
{
    let mut buffer = Buffer::new();
    text.extend_from_slice(buffer.format(number).as_bytes())
}

/// The place of a page that waits for the item of an id.
pub(crate) fn place_with(alloc: Global, back: &[u8], id: u64) -> Result<Vec<u8>, AllocError>
    ensures { IfOk result (λ place. place.items ≡ place_with back.now id) }
{
    let mut place = Vec::from_slice(alloc, back)?;
    if back.contains(&b'?') {
        place.extend_from_slice(b"&sent=")?;
    } else {
        place.extend_from_slice(b"?sent=")?;
    }
    push_number(&mut place, id)?;
    Ok(place)
}

/// The place of the page after entries were taken: it waits for the last of them.
fn place_after(alloc: Global, back: &[u8], id: Option<u64>) -> Result<Vec<u8>, AllocError>
    ensures { IfOk result (λ place. place.items ≡ place_after back.now id) }
{
    match id {
        Some(id) => place_with(alloc, back, id),
        None => Vec::from_slice(alloc, back),
    }
}

/// What is to be done for entries that a form asks for: they are taken, and the browser moves on to
/// this page, which waits for the last of them. Those that were taken before stay as they are;
/// where the id of one of them is known with another text, whatever the remarks are, the page says
/// both, and none is taken.
pub(crate) fn plan_entries(
    alloc: Global,
    outbox: &Outbox,
    around: &PageContext<'_>,
    back: Vec<u8>,
    entries: Vec<Entry>,
) -> Result<RequestPlan, AllocError>
    ensures { IfOk result
        (PlansEntries outbox.now.list around.entry.now back.items entries.items) }
{
    if let Some((known, sent)) = other_in(outbox, &entries) {
        let words = both_words(alloc, known, sent)?;
        return tell(alloc, around, &back, &words);
    }
    if !has_room(outbox, entries.len()) {
        return Ok(RequestPlan::problem(Problem::Busy));
    }
    let place = place_after(alloc, &back, last_id(&entries))?;
    Ok(RequestPlan::see(place, Effect::Take(entries)))
}
