//! The desks of a hall as they run, side by side: an event at one of them, and what it sends.

ghost use Rattle.std.specs.Prelude.{◌≡◌, ◌<◌, List, IfOk, OnErr, Some, Ok, length, option_map};
ghost use Rattle.std.specs.Prelude.{slice_get};
ghost use Rattle.acceptor.specs.declared.message.Message.{Message};
ghost use Rattle.learner.specs.declared.event.DeskEvent.TheVariants.{Submit, Start, Tick, Deliver};
ghost use Rattle.learner.specs.Steps.{done, step};
ghost use Rattle.replica.specs.roles.model.RunningDesks.{Fits};
ghost use Rattle.hall.specs.world.model.Halls.{Does};

use acceptor::NoMemory;
use acceptor::entry::Entry;
use acceptor::message::Message;
use acceptor::stored::Stored;
use learner::event::WorldEvent;
use learner::log::Log;
use proposer::fault::{Refusal, StepFault};
use proposer::plan::Plan;
use replica::roles::Running;
use replica::roles::heeding::is_desk;
use std::alloc::{AllocError, Global};
use std::marker::Model;

/// The desks of a hall, numbered from 1, and all messages that they have sent, in order.
#[derive(Drop)]
pub struct Desks {
    alloc: Global,
    count: u8,
    desks: Vec<Running>,
    sent: Vec<Message>,
}

impl Model for Desks {
    ghost use Rattle.hall.specs.world.model.Halls.{HallValue, AreNumbered, known_by};

    ghost Value = { HallValue };

    ghost view = { λ h.
        record { desks = h.count; places = known_by h.desks.items; sent = h.sent.items } };

    ghost invariant = { λ h. AreNumbered h.count 1 h.desks.items };
}

impl Desks {
    ghost use Rattle.std.specs.Prelude.{◌⊎◌, None, OnOk};
    ghost use Rattle.learner.specs.Steps.{IsDesk};
    ghost use Rattle.learner.specs.Worlds.{new_world, at_desk, delivered};
    ghost use Rattle.learner.specs.Worlds.{restart_at, nth_sent, happens};
    ghost use Rattle.hall.specs.world.model.Halls.{world_of};
    ghost use Rattle.hall.specs.world.WorldValues.{refusal, refusal_at};

    /// Three or five desks before their first event. Where memory is refused, the answer is
    /// NoMemory.
    pub fn new(alloc: Global, count: u8) -> Result<Desks, NoMemory>
        requires { (count ≡ 3) ⊎ (count ≡ 5) }
        ensures desks { IfOk result (λ h. h.desks ≡ count) }
        ensures world { IfOk result (λ h. world_of h ≡ new_world) }
    {
        let mut desks = Vec::with_capacity(alloc, count as usize)?;
        for number in 1..count + 1 {
            let log = Log::new(alloc)?;
            let desk = Running::new(alloc, number, count, Stored::new(), log)?;
            desks.push(desk)?;
        }
        Ok(Desks {
            alloc,
            count,
            desks,
            sent: Vec::new(alloc),
        })
    }

    /// The log of a desk.
    pub fn log(&self, desk: u8) -> &Log
        requires { IsDesk self.now.desks desk }
        ensures { result.now.entries ≡ ((world_of self.now).desks desk).log }
    {
        self.desks[desk as usize - 1].log()
    }

    /// All messages that were sent, in order.
    pub fn sent(&self) -> &[Message]
        ensures { result.now ≡ self.now.sent }
    {
        self.sent.as_slice()
    }

    /// Does one event, and gives the refusal of the desk, where it refuses. Where memory is
    /// refused, the answer is NoMemory, and nothing of the event is done.
    pub fn happen(&mut self, event: &WorldEvent) -> Result<Option<Refusal>, NoMemory>
        ensures world { OnOk result
            (world_of self.new ≡ happens self.old.desks (world_of self.old) event.now) }
        ensures same { self.new.desks ≡ self.old.desks }
        ensures refused { IfOk result
            (λ r. r ≡ refusal self.old.desks (world_of self.old) event.now) }
        ensures err { OnErr result (self.new ≡ self.old) }
    {
        match event {
            WorldEvent::Submit(desk, entry) => self.submit(*desk, entry),
            WorldEvent::Start(desk) => self.start(*desk),
            WorldEvent::Tick(desk) => self.tick(*desk),
            WorldEvent::Deliver(k) => self.deliver(*k),
            WorldEvent::Restart(desk) => self.restart(*desk),
        }
    }

    /// An entry is handed in at a desk.
    fn submit(&mut self, desk: u8, entry: &Entry) -> Result<Option<Refusal>, NoMemory>
        ensures world { OnOk result
            (world_of self.new
            ≡ at_desk self.old.desks (world_of self.old) desk (Submit entry.now)) }
        ensures same { self.new.desks ≡ self.old.desks }
        ensures refused { IfOk result
            (λ r. r ≡ refusal_at self.old.desks (world_of self.old) desk (Submit entry.now)) }
        ensures err { OnErr result (self.new ≡ self.old) }
    {
        if !is_desk(self.count, desk) {
            return Ok(None);
        }
        let entry = entry.copy_in(self.alloc)?;
        submit(&mut self.desks[desk as usize - 1], entry)
    }

    /// A desk gets a Start.
    fn start(&mut self, desk: u8) -> Result<Option<Refusal>, NoMemory>
        ensures world { OnOk result
            (world_of self.new ≡ at_desk self.old.desks (world_of self.old) desk Start) }
        ensures same { self.new.desks ≡ self.old.desks }
        ensures refused { IfOk result
            (λ r. r ≡ refusal_at self.old.desks (world_of self.old) desk Start) }
        ensures err { OnErr result (self.new ≡ self.old) }
    {
        if !is_desk(self.count, desk) {
            return Ok(None);
        }
        start(&mut self.desks[desk as usize - 1], &mut self.sent)
    }

    /// At a desk some time has passed.
    fn tick(&mut self, desk: u8) -> Result<Option<Refusal>, NoMemory>
        ensures world { OnOk result
            (world_of self.new ≡ at_desk self.old.desks (world_of self.old) desk Tick) }
        ensures same { self.new.desks ≡ self.old.desks }
        ensures refused { IfOk result
            (λ r. r ≡ refusal_at self.old.desks (world_of self.old) desk Tick) }
        ensures err { OnErr result (self.new ≡ self.old) }
    {
        if !is_desk(self.count, desk) {
            return Ok(None);
        }
        tick(&mut self.desks[desk as usize - 1], &mut self.sent)
    }

    /// The k-th message ever sent comes to its receiver.
    fn deliver(&mut self, k: u64) -> Result<Option<Refusal>, NoMemory>
        ensures world { OnOk result
            (world_of self.new
            ≡ delivered self.old.desks (world_of self.old) (nth_sent self.old.sent k)) }
        ensures same { self.new.desks ≡ self.old.desks }
        ensures refused { IfOk result (λ r. r ≡ None) }
        ensures err { OnErr result (self.new ≡ self.old) }
    {
        if k == 0 {
            return Ok(None);
        }
        let place = (k - 1) as usize;
        let Some(message) = message_at(&self.sent, place) else {
            return Ok(None);
        };
        let desk = message.to;
        if !is_desk(self.count, desk) {
            return Ok(None);
        }
        deliver(&mut self.desks[desk as usize - 1], &mut self.sent, place)
    }

    /// A desk loses what it has not stored.
    fn restart(&mut self, desk: u8) -> Result<Option<Refusal>, NoMemory>
        ensures world { OnOk result
            (world_of self.new ≡ restart_at self.old.desks (world_of self.old) desk) }
        ensures same { self.new.desks ≡ self.old.desks }
        ensures refused { IfOk result (λ r. r ≡ None) }
        ensures err { OnErr result (self.new ≡ self.old) }
    {
        if is_desk(self.count, desk) {
            self.desks[desk as usize - 1].restart()?;
        }
        Ok(None)
    }
}

/// The message at this place, where there is one.
fn message_at(sent: &[Message], place: usize) -> Option<&Message>
    ensures { option_map (λ m. m.now) result ≡ slice_get sent.now place }
{
    sent.get(place)
}

/// The desk takes an entry into its queue, or refuses it.
fn submit(desk: &mut Running, entry: Entry) -> Result<Option<Refusal>, NoMemory>
    ensures ok { let x = desk.old in
        IfOk result (λ r. (sent : List Message)
        → Does x desk.new sent sent r (step x.desks x.number x.desk (Submit entry))) }
    ensures same { (desk.new.number ≡ desk.old.number) × (desk.new.desks ≡ desk.old.desks) }
    ensures err { OnErr result (desk.new.desk ≡ desk.old.desk) }
{
    match desk.submit(entry) {
        Ok(()) => Ok(None),
        Err(StepFault::Refused(why)) => Ok(Some(why)),
        Err(StepFault::NoMemory) => Err(AllocError),
    }
}

/// The desk starts, or refuses to.
fn start(desk: &mut Running, sent: &mut Vec<Message>) -> Result<Option<Refusal>, NoMemory>
    ensures ok { let x = desk.old in
        IfOk result (λ r. Does x desk.new sent.old.items sent.new.items r
        (step x.desks x.number x.desk Start)) }
    ensures same { (desk.new.number ≡ desk.old.number) × (desk.new.desks ≡ desk.old.desks) }
    ensures err { OnErr result
        ((desk.new.desk ≡ desk.old.desk) × (sent.new.items ≡ sent.old.items)) }
{
    match desk.start() {
        Ok(plan) => take(desk, sent, plan),
        Err(StepFault::Refused(why)) => Ok(Some(why)),
        Err(StepFault::NoMemory) => Err(AllocError),
    }
}

/// The desk does what it does from time to time, or refuses to.
fn tick(desk: &mut Running, sent: &mut Vec<Message>) -> Result<Option<Refusal>, NoMemory>
    ensures ok { let x = desk.old in
        IfOk result (λ r. Does x desk.new sent.old.items sent.new.items r
        (step x.desks x.number x.desk Tick)) }
    ensures same { (desk.new.number ≡ desk.old.number) × (desk.new.desks ≡ desk.old.desks) }
    ensures err { OnErr result
        ((desk.new.desk ≡ desk.old.desk) × (sent.new.items ≡ sent.old.items)) }
{
    match desk.tick() {
        Ok(plan) => take(desk, sent, plan),
        Err(StepFault::Refused(why)) => Ok(Some(why)),
        Err(StepFault::NoMemory) => Err(AllocError),
    }
}

/// The desk is given the message at this place of those sent.
fn deliver(
    desk: &mut Running,
    sent: &mut Vec<Message>,
    place: usize,
) -> Result<Option<Refusal>, NoMemory>
    requires { place < length sent.old.items }
    ensures ok { let x = desk.old in
        IfOk result (λ r. (m : Message) → slice_get sent.old.items place ≡ Some m
        → Does x desk.new sent.old.items sent.new.items r
        (step x.desks x.number x.desk (Deliver m))) }
    ensures same { (desk.new.number ≡ desk.old.number) × (desk.new.desks ≡ desk.old.desks) }
    ensures err { OnErr result
        ((desk.new.desk ≡ desk.old.desk) × (sent.new.items ≡ sent.old.items)) }
{
    let plan = desk.deliver(&sent[place])?;
    take(desk, sent, plan)
}

/// The desk takes the plan of a step, and its messages are sent. Where memory is refused, neither.
fn take(
    desk: &mut Running,
    sent: &mut Vec<Message>,
    plan: Plan,
) -> Result<Option<Refusal>, NoMemory>
    requires { Fits desk.old plan }
    ensures ok { IfOk result
        (λ r. Does desk.old desk.new sent.old.items sent.new.items r
        (Ok (done desk.old.desk plan))) }
    ensures same { (desk.new.number ≡ desk.old.number) × (desk.new.desks ≡ desk.old.desks) }
    ensures err { OnErr result
        ((desk.new.desk ≡ desk.old.desk) × (sent.new.items ≡ sent.old.items)) }
{
    sent.reserve(plan.messages.as_slice().len())?;
    let mut messages = desk.adopt(plan).into_vec();
    // There is room for them all.
    let _ = sent.append(&mut messages);
    Ok(None)
}
