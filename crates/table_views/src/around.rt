//! What every page is made from.

use crate::desks::HallStatus;
use card_forms::FormId;
use mirror::Mirror;
use outbox::{Item, ItemState};

/// An item, and what became of it.
#[derive(Clone, Copy)]
pub struct Recent<'a> {
    pub item: &'a Item,
    pub state: ItemState,
    /// The position of the entry by which the competitor's attempts count as they do, where the
    /// item is a card that was refused since they were changed meanwhile.
    pub by: Option<u32>,
}

/// What a page is made from, besides what it is of.
#[derive(Clone, Copy)]
pub struct PageContext<'a> {
    /// The log that is followed.
    pub mirror: &'a Mirror,
    pub desks: &'a HallStatus,
    /// The commands with which the competition was set up, or nothing. Their comments, as
    /// `# OPEN 333 2 ao5 - 60000 top:8`, propose how later rounds are held.
    pub proposals: &'a [u8],
    /// What each form has to carry so that it is taken.
    pub token: &'a [u8],
    /// Ids for the forms of the page. The form of a card has the first one, and the others are
    /// spare.
    pub ids: &'a [FormId; 32],
    /// The remark of a card that is entered now: who entered it, and when.
    pub remark: &'a [u8],
    /// What was sent of late, newest first, and all that was sent before and is not saved, until
    /// a scoretaker has answered it.
    pub recent: &'a [Recent<'a>],
    /// The milliseconds of the clock by which the items say since when they wait.
    pub now: u64,
    /// Whether the page is after the form of an item that waits, since less than two seconds.
    pub waits: bool,
}
