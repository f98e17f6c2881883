//! What became of an item.

ghost use Rattle.std.specs.Prelude.{◌≡◌, Some};
ghost use Rattle.outbox.specs.States.{answered_as, refused_as, state_at, state_of};

use acceptor::entry::Entry;
use mirror::Mirror;
use texts::{Answer, Code};

/// What became of an item, by the hall's log.
#[derive(Clone, Copy, Debug, PartialEq, Eq)]
pub enum ItemState {
    /// No entry of its id is in the log yet.
    Waits,
    /// Its entry is at this position, 0 to 65,535, and was answered Done.
    Saved { position: u32 },
    /// Its entry is at this position and was refused, since what it changes was changed meanwhile:
    /// code Changed.
    Changed { position: u32 },
    /// Its entry is at this position and was refused with this other code.
    Refused { position: u32, code: Code },
    /// An entry of its id with another text is at this position: nothing will come of it.
    OtherText { position: u32 },
}

/// What became of an entry that was refused.
fn refused_as(position: u32, code: Code) -> ItemState
    ensures { result ≡ refused_as position code }
{
    match code {
        Code::Changed => ItemState::Changed { position },
        _ => ItemState::Refused { position, code },
    }
}

/// What became of an entry that was answered so.
fn answered_as(position: u32, answer: Option<Answer>) -> ItemState
    ensures { result ≡ answered_as position answer }
{
    match answer {
        None => ItemState::Waits,
        Some(Answer::Done) => ItemState::Saved { position },
        Some(Answer::Refused(code)) => refused_as(position, code),
    }
}

/// What became of an entry, by the first position that has its id.
fn state_at(mirror: &Mirror, entry: &Entry, position: u32) -> ItemState
    ensures { result ≡ state_at mirror.now entry.now (Some position) }
{
    let Some(there) = mirror.log().entry(position) else {
        return ItemState::Waits;
    };
    if there.text() == entry.text() {
        answered_as(position, mirror.answer(position))
    } else {
        ItemState::OtherText { position }
    }
}

/// What became of an entry, by the entries of the log that the mirror holds: by the first one that
/// has its id, which is looked up in a table.
pub fn state_of(mirror: &Mirror, entry: &Entry) -> ItemState
    ensures { result ≡ state_of mirror.now entry.now }
{
    match mirror.log().position_of(entry.id()) {
        Some(position) => state_at(mirror, entry, position),
        None => ItemState::Waits,
    }
}
