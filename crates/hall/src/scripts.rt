//! The events of a script, each from its line.

ghost use Rattle.std.specs.Prelude.{◌≡◌, ◌≤◌, ◌<◌, Some, option_map, option_and_then, IfOk, OnErr};
ghost use Rattle.std.specs.Prelude.{IfSome, length};
ghost use Rattle.texts.specs.Fields.{number_between};
ghost use Rattle.hall.specs.Scripts.{IsRead, SpellsSubmit, SpellsOneEvent, HasOneScript};
ghost use Rattle.hall.specs.model.Events.{by_word, entry_of, submit_of, IsSubmit};

use acceptor::NoMemory;
use acceptor::entry::{Entry, EntryFault};
use learner::event::WorldEvent;
use std::alloc::{AllocError, Global};
use texts::{cut, number_between};

/// The most that a script delivers by number.
const MOST_DELIVERED: u64 = 999_999_999;

/// The greatest id of an entry.
const MOST_ID: u64 = 9_223_372_036_854_775_807;

/// One number of 1 to `most`, and nothing after it.
fn number_of(most: u64, left: Option<&[u8]>) -> Option<u64>
    requires { most < 10000000000000000000 }
    ensures value { result
        ≡ option_and_then (number_between 1 most) (option_map (λ s. s.now) left.entry) }
    ensures within { IfSome result (λ n. (1 ≤ n) × (n ≤ most)) }
{
    number_between(1, most, left?)
}

/// The number of a desk, and nothing after it.
fn desk_of(desks: u8, left: Option<&[u8]>) -> Option<u8>
    ensures { result
        ≡ option_and_then (number_between 1 desks) (option_map (λ s. s.now) left.entry) }
{
    let desk = number_of(u64::from(desks), left)?;
    Some(desk as u8)
}

/// The entry of an id and a text, which has at most 600 bytes.
fn entry_of(alloc: Global, id: u64, text: &[u8]) -> Result<Option<Entry>, NoMemory>
    requires { (1 ≤ id) × (id ≤ 9223372036854775807) }
    ensures value { IfOk result (λ e. e ≡ entry_of id text.now) }
    ensures memory { OnErr result (length text.now ≤ 600) }
{
    match Entry::new(alloc, id, text) {
        Ok(entry) => Ok(Some(entry)),
        Err(EntryFault::NoMemory) => Err(AllocError),
        Err(_) => Ok(None),
    }
}

/// `submit`: a desk, an id and a text.
#[tactic(auto, unfolding(crate::specs::model::Events::submit_of))]
fn submit_of(alloc: Global, desks: u8, left: Option<&[u8]>) -> Result<Option<WorldEvent>, NoMemory>
    ensures value { IfOk result (λ e. e ≡ submit_of desks (option_map (λ s. s.now) left.entry)) }
    ensures memory { OnErr result
        (IsSubmit (submit_of desks (option_map (λ s. s.now) left.entry))) }
{
    let Some(fields) = left else {
        return Ok(None);
    };
    let (desk, left) = cut(fields, b' ');
    let Some(desk) = number_between(1, u64::from(desks), desk) else {
        return Ok(None);
    };
    let Some(more) = left else {
        return Ok(None);
    };
    let (id, left) = cut(more, b' ');
    let Some(id) = number_between(1, MOST_ID, id) else {
        return Ok(None);
    };
    let Some(text) = left else {
        return Ok(None);
    };
    let Some(entry) = entry_of(alloc, id, text)? else {
        return Ok(None);
    };
    Ok(Some(WorldEvent::Submit(desk as u8, entry)))
}

/// The event of a word and what is left after it.
fn event_of_word(
    alloc: Global,
    desks: u8,
    word: &[u8],
    left: Option<&[u8]>,
) -> Result<Option<WorldEvent>, NoMemory>
    ensures value { IfOk result
        (λ e. e ≡ by_word desks (word.now, option_map (λ s. s.now) left.entry)) }
    ensures memory { OnErr result
        (IsSubmit (by_word desks (word.now, option_map (λ s. s.now) left.entry))) }
{
    if word == b"submit".as_slice() {
        submit_of(alloc, desks, left)
    } else if word == b"start".as_slice() {
        Ok(desk_of(desks, left).map(|desk| WorldEvent::Start(desk)))
    } else if word == b"tick".as_slice() {
        Ok(desk_of(desks, left).map(|desk| WorldEvent::Tick(desk)))
    } else if word == b"deliver".as_slice() {
        Ok(number_of(MOST_DELIVERED, left).map(|number| WorldEvent::Deliver(number)))
    } else if word == b"restart".as_slice() {
        Ok(desk_of(desks, left).map(|desk| WorldEvent::Restart(desk)))
    } else {
        Ok(None)
    }
}

/// The event that a line spells in a hall of this many desks: `submit D ID TEXT`, `start D`, `tick
/// D`, `deliver K` or `restart D`, where D is the number of a desk, ID is 1 to 2^63 - 1, TEXT has
/// at most 600 bytes, and K is 1 to 999,999,999. Fields are parted by one space, and numbers are
/// decimal without leading zeros. `None` where the line is the spelling of no event.
///
/// # Errors
///
/// `NoMemory` where memory runs out for the text of a Submit.
pub fn event_of(alloc: Global, desks: u8, line: &[u8]) -> Result<Option<WorldEvent>, NoMemory>
    ensures spelled { IfOk result (IsRead desks line.now) }
    ensures memory { OnErr result (SpellsSubmit desks line.now) }
{
    let (word, left) = cut(line, b' ');
    event_of_word(alloc, desks, word, left)
}

/// The laws of a script's lines: a line spells at most one event, and lines have one list of
/// events, in front of the first line that spells none.
pub fn one_script()
    ensures event { SpellsOneEvent }
    ensures script { HasOneScript }
{}
