//! The clients whose connections are open.

ghost use Rattle.std.specs.Prelude.{◌≡◌, [], position, IfOk, IfSome, IfNone, None};
ghost use Rattle.multiplex.specs.{Passing.first_ticks, Dear.fresh_dear};
ghost use Rattle.multiplex.specs.Silence.{ready_after, waited_for};
ghost use Rattle.multiplex.specs.model.Tables.{IsLongestAt, has_number, is_silent};

use crate::dear::DearTurns;
use crate::notes::Notes;
use crate::own_ticks::OwnTicks;
use answers::Desk;
use guarded::{Access, LockedConnection};
use std::alloc::{AllocError, Global};
use ticking::Period;
use wire::{Difference, Version};

/// The most clients whose connections are open at once.
pub(crate) const MOST_OPEN: usize = 512;

/// For how long a client is waited for at most while a record of it comes, in milliseconds: ten
/// seconds and a round.
const LONGEST_RECORD: u64 = 11_000;

/// How a desk's clients are served.
#[derive(Clone, Copy)]
pub struct ServingOptions {
    /// The version of the wire in which frames are pushed to other desks.
    pub wire: Version,
    /// How many clients are accepted.
    pub most: u64,
    /// How long a client is waited for, in milliseconds.
    pub patience: u64,
    /// What is asked of a client: nothing, or a key.
    pub doors: Access,
}

/// A client whose connection is open.
#[derive(Drop)]
pub(crate) struct Guest {
    /// How many clients came before it.
    pub(crate) number: u64,
    pub(crate) talk: LockedConnection,
    pub(crate) notes: Notes,
    /// When it was last ready, in milliseconds after the first round. While a record comes, that is
    /// when it began.
    pub(crate) ready: u64,
}

/// The clients whose connections are open, in the order in which they came.
#[derive(Drop)]
pub(crate) struct ClientTable {
    pub(crate) guests: Vec<Guest>,
    /// How many clients came.
    pub(crate) next: u64,
    /// The time of the last round, in milliseconds after the first one.
    pub(crate) time: u64,
    pub(crate) own: OwnTicks,
    pub(crate) dear: DearTurns,
    /// How another desk differs, if that was heard, and whether it was said.
    pub(crate) differs: Option<Difference>,
    pub(crate) said: bool,
}

impl ClientTable {
    /// No client came yet.
    pub(crate) fn new<D: Desk>(
        alloc: Global,
        period: Option<Period>,
        node: &D,
    ) -> Result<ClientTable, AllocError>
        ensures empty { IfOk result (λ t. (t.guests.items ≡ []) × (t.next ≡ 0) × (t.time ≡ 0)) }
        ensures own { IfOk result
            (λ t. t.own ≡ first_ticks (D.home_of node.now) period (D.seen node.now)) }
        ensures dear { IfOk result (λ t. t.dear ≡ fresh_dear) }
        ensures differs { IfOk result (λ t. t.differs ≡ None) }
    {
        Ok(ClientTable {
            guests: Vec::with_capacity(alloc, MOST_OPEN)?,
            next: 0,
            time: 0,
            own: OwnTicks::new(period, node),
            dear: DearTurns::new(),
            differs: None,
            said: false,
        })
    }

    /// The place of the client with this number.
    pub(crate) fn place_of(&self, number: u64) -> Option<usize>
        ensures { result ≡ position (has_number number) self.now.guests.items }
    {
        place_of(&self.guests, number)
    }

    /// The place of the first client that wasn't ready for longer than it is waited for.
    pub(crate) fn place_of_silent(&self, patience: u64) -> Option<usize>
        ensures { result ≡ position (is_silent patience self.now.time) self.now.guests.items }
    {
        let time = self.time;
        place_of_silent(&self.guests, time, patience)
    }
}

/// The place of the client with this number.
fn place_of(guests: &[Guest], number: u64) -> Option<usize>
    ensures { result ≡ position (has_number number) guests.now }
{
    guests.iter().position(|guest| guest.number == number)
}

/// When a client was ready last, after a visit at this time: that stays where the record of it that
/// has begun is one that had begun before the visit.
pub(crate) fn ready_after(time: u64, before: Option<u64>, after: Option<u64>, ready: u64) -> u64
    ensures { result ≡ ready_after time before after ready }
{
    let Some(one) = before else {
        return time;
    };
    match after {
        Some(other) => { if one == other { ready } else { time } }
        None => time,
    }
}

/// For how long a client is waited for, where such a record of it has begun, or none has.
fn waited_for(patience: u64, begun: Option<u64>) -> u64
    ensures { result ≡ waited_for patience begun }
{
    match begun {
        Some(_) => patience.min(LONGEST_RECORD),
        None => patience,
    }
}

/// Whether a client wasn't ready for longer than it is waited for.
fn is_silent(guest: &Guest, time: u64, patience: u64) -> bool
    ensures { result ≡ is_silent patience time guest.now }
{
    time.saturating_sub(guest.ready) > waited_for(patience, guest.talk.begun())
}

/// The place of the first client that wasn't ready for longer than it is waited for.
fn place_of_silent(guests: &[Guest], time: u64, patience: u64) -> Option<usize>
    ensures { result ≡ position (is_silent patience time) guests.now }
{
    guests
        .iter()
        .position(|guest| is_silent(guest, time, patience))
}

/// The place of the client that wasn't ready for the longest time.
pub(crate) fn longest_silent(guests: &[Guest]) -> Option<usize>
    ensures longest { IfSome result (λ i. IsLongestAt guests.now i) }
    ensures nobody { IfNone result (guests.now ≡ []) }
{
    let mut found = None;
    let mut earliest = u64::MAX;
    for (place, guest) in guests.iter().enumerate() {
        if found.is_none() || guest.ready < earliest {
            found = Some(place);
            earliest = guest.ready;
        }
    }
    found
}
