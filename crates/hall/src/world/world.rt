//! A hall of desks run by a list of events: what was sent, what each desk holds, what was refused.

ghost use Rattle.std.specs.Prelude.{◌≡◌, IfOk};

use crate::world::desks::Desks;
use crate::world::laws::headline;
use acceptor::NoMemory;
use acceptor::message::Message;
use learner::event::WorldEvent;
use learner::log::Log;
use proposer::fault::{Refusal, StepFault};
use replica::roles::NodeFault;
use std::alloc::{AllocError, Global};
use std::marker::Model;

/// Why there is no world.
#[derive(Clone, Copy, PartialEq, Eq, Debug)]
pub enum WorldFault {
    /// A hall has 3 or 5 desks.
    BadCount,
    /// Memory was refused.
    NoMemory,
}

impl From<AllocError> for WorldFault {
    ghost use Rattle.std.specs.Prelude.{◌≡◌};
    ghost use Rattle.hall.specs.declared.world.world.WorldFault.TheVariants.{NoMemory};

    ghost from_gives = { λ _ fault. fault ≡ NoMemory };

    fn from(_: AllocError) -> WorldFault {
        WorldFault::NoMemory
    }
}

/// Three or five desks, all messages that they have sent, and the events that were done.
///
/// A world does one event at a time, at one desk. A message that is sent stays: it may be delivered
/// once, more than once, late or never. Contracts see a world as the number of its desks and its
/// events: what it shows is what the protocol's definition gives for these.
#[derive(Drop)]
pub struct World {
    alloc: Global,
    hall: Desks,
    events: Vec<WorldEvent>,
    refused: Option<Refusal>,
}

impl Model for World {
    ghost use Rattle.hall.specs.world.WorldValues.{WorldValue};
    ghost use Rattle.hall.specs.world.model.Halls.{IsAfter};

    ghost Value = { WorldValue };

    ghost view = { λ w. record { desks = w.hall.desks; events = w.events.items } };

    ghost invariant = { λ w. IsAfter w.hall w.events.items w.refused };
}

impl World {
    ghost use Rattle.std.specs.Prelude.{ℕ, ◌⊎◌, ◌↔◌, ◌∷◌, [], OnOk, OnErr, IsErrOf, length, take};
    ghost use Rattle.learner.specs.Steps.{IsDesk};
    ghost use Rattle.learner.specs.Worlds.{after, log_of};
    ghost use Rattle.hall.specs.world.WorldValues.{extended, last_fault};
    ghost use Rattle.hall.specs.world.Headline.{Agreement};

    /// This many desks before their first event. A count other than 3 and 5 is BadCount. Else,
    /// where memory is refused, the answer is NoMemory.
    pub fn new(alloc: Global, desks: u8) -> Result<World, WorldFault>
        ensures made { IfOk result (λ w. w ≡ record { desks = desks; events = [] }) }
        ensures bad_count { IsErrOf result WorldFault.BadCount ↔ (¬ ((desks ≡ 3) ⊎ (desks ≡ 5))) }
    {
        if desks != 3 && desks != 5 {
            return Err(WorldFault::BadCount);
        }
        Ok(World {
            alloc,
            hall: Desks::new(alloc, desks)?,
            events: Vec::new(alloc),
            refused: None,
        })
    }

    /// Does these events, one after the other. An event at a number that no desk has does nothing,
    /// as does one that its desk refuses.
    ///
    /// Where memory is refused, the answer is NoMemory. The world is then the one after the first
    /// `done()` events: those before the call, and those of the list that were done. Of the next
    /// event nothing is done.
    ///
    /// At every moment the desks agree: of any two logs one is a prefix of the other, every entry
    /// was submitted, and at a position that two logs have their sheets are the same, byte for
    /// byte.
    pub fn run(&mut self, events: &[WorldEvent]) -> Result<(), NoMemory>
        ensures all { OnOk result (self.new ≡ extended self.old events.now) }
        ensures front { (k : ℕ) × (self.new ≡ extended self.old (take k events.now)) }
        ensures same { self.new.desks ≡ self.old.desks }
        ensures agreement { Agreement self.new.desks self.new.events }
    {
        headline();
        for event in events {
            self.happen(event)?;
        }
        Ok(())
    }

    /// The log of a desk, of 1 to the number of desks.
    pub fn log(&self, desk: u8) -> &Log
        requires { IsDesk self.now.desks desk }
        ensures { result.now.entries ≡ log_of self.now.desks self.now.events desk }
    {
        self.hall.log(desk)
    }

    /// All messages ever sent, in order.
    pub fn sent(&self) -> &[Message]
        ensures { result.now ≡ (after self.now.desks self.now.events).sent }
    {
        self.hall.sent()
    }

    /// The events done, in order.
    pub fn events(&self) -> &[WorldEvent]
        ensures { result.now ≡ self.now.events }
    {
        self.events.as_slice()
    }

    /// The number of events done.
    pub fn done(&self) -> usize
        ensures { result ≡ length self.now.events }
    {
        self.events.len()
    }

    /// The refusal of the last event done, where its desk refused it: Busy, LogFull or
    /// BallotsSpent.
    pub fn refused(&self) -> Option<NodeFault>
        ensures { result ≡ last_fault self.now.desks self.now.events }
    {
        match self.refused {
            None => None,
            Some(why) => Some(NodeFault::from(StepFault::Refused(why))),
        }
    }

    /// Does one event, or nothing of it where memory is refused.
    fn happen(&mut self, event: &WorldEvent) -> Result<(), NoMemory>
        ensures ok { OnOk result (self.new ≡ extended self.old (event.now ∷ [])) }
        ensures err { OnErr result (self.new ≡ self.old) }
    {
        let done = copy(self.alloc, event)?;
        self.events.reserve(1)?;
        self.refused = self.hall.happen(event)?;
        self.events.push_reserved(done);
        Ok(())
    }
}

/// An equal event.
fn copy(alloc: Global, event: &WorldEvent) -> Result<WorldEvent, NoMemory>
    ensures { IfOk result (λ e. e ≡ event.now) }
{
    match event {
        WorldEvent::Submit(desk, entry) => Ok(WorldEvent::Submit(*desk, entry.copy_in(alloc)?)),
        WorldEvent::Start(desk) => Ok(WorldEvent::Start(*desk)),
        WorldEvent::Tick(desk) => Ok(WorldEvent::Tick(*desk)),
        WorldEvent::Deliver(k) => Ok(WorldEvent::Deliver(*k)),
        WorldEvent::Restart(desk) => Ok(WorldEvent::Restart(*desk)),
    }
}
