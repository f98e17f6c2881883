//! One desk as it runs: its number, its stored state, its log and its proposer, and its steps.

ghost use Rattle.std.specs.Prelude.{◌≡◌, IfOk};
ghost use Rattle.acceptor.specs.Storing.{stored_after, log_after};
ghost use Rattle.replica.specs.roles.model.RunningDesks.{HasRoom};

use crate::roles::heeding::is_heeded;
use acceptor::NoMemory;
use acceptor::ballot::Ballot;
use acceptor::entry::Entry;
use acceptor::message::{Body, Message, Messages};
use acceptor::sending::to_one;
use acceptor::steps::{LogView, on_accept, on_prepare};
use acceptor::stored::{Change, Stored};
use learner::laws::steps_stay_in_range;
use learner::learning::{on_behind, on_decided};
use learner::log::Log;
use proposer::fault::StepFault;
use proposer::plan::Plan;
use proposer::proposer::Proposer;
use proposer::role::Role;
use std::alloc::{AllocError, Global};
use std::marker::Model;

/// One desk as it runs: what it stores, its log, and its proposing side.
///
/// `start`, `tick` and `deliver` change nothing that the protocol speaks of: each gives the plan of
/// one step, and makes the room that the log needs for it. Once the plan's change is stored,
/// `adopt` takes the plan, which needs no memory.
#[derive(Drop)]
pub struct Running {
    alloc: Global,
    stored: Stored,
    log: Log,
    proposer: Proposer,
}

impl Model for Running {
    ghost use Rattle.replica.specs.roles.model.RunningDesks.{RunningDesk, desk_of, IsRunning};

    ghost Value = { RunningDesk };

    ghost view = { λ r. desk_of r.stored r.log r.proposer };

    ghost invariant = { λ r. IsRunning (desk_of r.stored r.log r.proposer) };
}

impl Running {
    ghost use Rattle.std.specs.Prelude.{◌≤◌, ◌⊎◌, [], None, Ok, IsOk, IsOkAnd, OnOk, OnErr, length};
    ghost use Rattle.acceptor.specs.Ballots.{no_ballot};
    ghost use Rattle.acceptor.specs.declared.message.Body.TheVariants.{Prepare, Accept};
    ghost use Rattle.learner.specs.declared.event.DeskEvent.TheVariants.{Submit, Start, Tick};
    ghost use Rattle.learner.specs.declared.event.DeskEvent.TheVariants.{Deliver};
    ghost use Rattle.learner.specs.Desks.{adopt, restarted};
    ghost use Rattle.learner.specs.Ranges.{DeskIsInRange, IsReal};
    ghost use Rattle.learner.specs.Steps.{IsDesk, answered, done, on_body, step};
    ghost use Rattle.proposer.specs.Plans.{IsNothing};
    ghost use Rattle.proposer.specs.Refusals.{PlansAs, RefusesAs};
    ghost use Rattle.replica.specs.roles.Opening.{opened};
    ghost use Rattle.replica.specs.roles.model.RunningDesks.{Fits, IsStep, start_of, tick_of};
    ghost use Rattle.replica.specs.roles.model.RunningDesks.{delivery};

    /// Desk `number` of 3 or 5 desks, as it starts with this in store. Where memory is refused, the
    /// answer is NoMemory.
    pub fn new(
        alloc: Global,
        number: u8,
        desks: u8,
        stored: Stored,
        log: Log,
    ) -> Result<Running, NoMemory>
        requires count { (desks ≡ 3) ⊎ (desks ≡ 5) }
        requires ours { IsDesk desks number }
        requires in_range { DeskIsInRange desks (opened stored log.entries) }
        ensures { IfOk result
            (λ r. r
            ≡ record {
              number = number;
              desks = desks;
              desk = opened stored log.entries;
              room = log.room;
            }) }
    {
        let proposer = Proposer::new(alloc, number, desks)?;
        Ok(Running {
            alloc,
            stored,
            log,
            proposer,
        })
    }

    /// The number of this desk, 1 to `desks`.
    pub fn number(&self) -> u8
        ensures number { result ≡ self.now.number }
        ensures ours { IsDesk self.now.desks result }
    {
        self.proposer.desk()
    }

    /// The number of desks, at most 5.
    pub fn desks(&self) -> u8
        ensures desks { result ≡ self.now.desks }
        ensures few { result ≤ 5 }
    {
        self.proposer.desks()
    }

    /// The entries that the desk knows to be decided.
    pub fn log(&self) -> &Log
        ensures entries { result.now.entries ≡ self.now.desk.log }
        ensures in_range { DeskIsInRange self.now.desks self.now.desk }
    {
        &self.log
    }

    /// The entries that wait to be proposed, the first one first, at most 64.
    pub fn queue(&self) -> &[Entry]
        ensures queue { result.now ≡ self.now.desk.queue }
        ensures short { length result.now ≤ 64 }
    {
        self.proposer.queue()
    }

    /// What the desk does for a ballot of its own.
    pub fn role(&self) -> &Role
        ensures { result.now ≡ self.now.desk.role }
    {
        self.proposer.role()
    }

    /// The highest ballot that the desk has promised, (0, 0) where it has promised none.
    pub fn promised(&self) -> Ballot
        ensures promised { result ≡ self.now.desk.stored.promised }
        ensures real { (result ≡ no_ballot) ⊎ IsReal self.now.desks result }
    {
        self.stored.promised
    }

    /// Loses what is not stored: the role, the queue, and the greatest number that the desk has
    /// seen. Where memory is refused, the answer is NoMemory, and nothing changes.
    pub fn restart(&mut self) -> Result<(), NoMemory>
        ensures ok { OnOk result (self.new ≡ record self.old { desk = restarted self.old.desk }) }
        ensures err { OnErr result (self.new ≡ self.old) }
    {
        let proposer = Proposer::new(self.alloc, self.number(), self.desks())?;
        self.proposer = proposer;
        Ok(())
    }

    /// Takes an entry into the queue. Nothing is to be stored or sent.
    ///
    /// With 64 entries in the queue the desk is Busy. Else, with 65,536 in the log, it is LogFull.
    /// Else, where memory is refused, the answer is NoMemory. A refused entry is dropped, and
    /// nothing changes.
    pub fn submit(&mut self, entry: Entry) -> Result<(), StepFault>
        ensures step { let x = self.old in
            OnOk result (step x.desks x.number x.desk (Submit entry)
            ≡ Ok (record { desk = self.new.desk; messages = [] })) }
        ensures refused { let x = self.old in
            RefusesAs result (step x.desks x.number x.desk (Submit entry)) }
        ensures same { self.new ≡ record self.old { desk = self.new.desk } }
        ensures err { OnErr result (self.new ≡ self.old) }
    {
        steps_stay_in_range();
        let len = self.log.len();
        self.proposer.submit(entry, len)
    }

    /// What the desk plans at a Start. It makes room for the plan, and changes nothing else.
    ///
    /// An idle desk makes a new ballot. One that leads asks for votes for the first entry of its
    /// queue, by the ballot that it has; where it has promised a higher one it makes a new ballot.
    /// Any other desk plans nothing. With 65,536 entries in the log an idle or leading desk is
    /// LogFull. Else, where a new ballot is due and no number is left for one, the answer is
    /// BallotsSpent. Else, where memory is refused, it is NoMemory; a desk that plans nothing takes
    /// none.
    pub fn start(&mut self) -> Result<Plan, StepFault>
        ensures plan { let x = self.old in
            IfOk result (λ p. step x.desks x.number x.desk Start ≡ Ok (done x.desk p)) }
        ensures refused { let x = self.old in
            RefusesAs result (step x.desks x.number x.desk Start) }
        ensures fits { IfOk result (Fits self.new) }
        ensures same { self.new ≡ record self.old { room = self.new.room } }
        ensures start { PlansAs result (start_of self.old) }
        ensures quiet { IsOkAnd (start_of self.old) IsNothing → IsOk result }
    {
        let len = self.log.len();
        let plan = self.proposer.start(&self.stored, len)?;
        Ok(self.ready(plan)?)
    }

    /// What the desk plans from time to time. It makes room for the plan, and changes nothing else.
    /// Where a new ballot is due and no number is left for one, the answer is BallotsSpent. Else,
    /// where memory is refused, it is NoMemory.
    pub fn tick(&mut self) -> Result<Plan, StepFault>
        ensures plan { let x = self.old in
            IfOk result (λ p. step x.desks x.number x.desk Tick ≡ Ok (done x.desk p)) }
        ensures refused { let x = self.old in RefusesAs result (step x.desks x.number x.desk Tick) }
        ensures fits { IfOk result (Fits self.new) }
        ensures same { self.new ≡ record self.old { room = self.new.room } }
        ensures tick { PlansAs result (tick_of self.old) }
    {
        let len = self.log.len();
        let plan = self.proposer.tick(&self.stored, len)?;
        Ok(self.ready(plan)?)
    }

    /// What the desk plans at a message. It makes room for the plan, and changes nothing else. A
    /// message to another desk, from a desk that is not of the hall, or with a field out of its
    /// range plans nothing. Where the desk plans nothing, the answer is Ok. Else, where memory is
    /// refused, it is NoMemory.
    pub fn deliver(&mut self, message: &Message) -> Result<Plan, NoMemory>
        ensures plan { let x = self.old in
            IfOk result
            (λ p. step x.desks x.number x.desk (Deliver message.now) ≡ Ok (done x.desk p)) }
        ensures fits { IfOk result (Fits self.new) }
        ensures same { self.new ≡ record self.old { room = self.new.room } }
        ensures delivery { IfOk result (λ p. p ≡ delivery self.old message.now) }
        ensures quiet { IsNothing (delivery self.old message.now) → IsOk result }
    {
        let plan = self.plan(message)?;
        self.ready(plan)
    }

    /// Takes the plan, and gives its messages. It takes no memory.
    pub fn adopt(&mut self, plan: Plan) -> Messages
        requires { Fits self.old plan }
        ensures desk { self.new.desk ≡ adopt self.old.desk plan }
        ensures same { (self.new.number ≡ self.old.number) × (self.new.desks ≡ self.old.desks) }
        ensures messages { result ≡ plan.messages }
    {
        let Plan {
            role,
            seen,
            drop_first,
            change,
            messages,
        } = plan;
        make(&mut self.stored, &mut self.log, change);
        self.proposer.adopt(Plan {
            role,
            seen,
            drop_first,
            change: None,
            messages: Messages::none(self.alloc),
        });
        messages
    }

    /// The plan, once the log has room for the entry that it may append.
    fn ready(&mut self, plan: Plan) -> Result<Plan, NoMemory>
        requires { IsStep self.old plan }
        ensures plan { IfOk result (λ p. p ≡ plan) }
        ensures fits { IfOk result (Fits self.new) }
        ensures same { self.new ≡ record self.old { room = self.new.room } }
        ensures quiet { plan.change ≡ None → IsOk result }
    {
        steps_stay_in_range();
        if let Some(Change::Appended(_)) = &plan.change {
            // The log isn't full, since the plan leaves it in its range.
            match self.log.reserve() {
                Ok(()) => {}
                Err(_) => return Err(AllocError),
            }
        }
        Ok(plan)
    }

    /// What the desk plans at a message.
    fn plan(&self, message: &Message) -> Result<Plan, NoMemory>
        ensures plan { IfOk result (λ p. p ≡ delivery self.now message.now) }
        ensures quiet { IsNothing (delivery self.now message.now) → IsOk result }
    {
        if !is_heeded(self.desks(), self.number(), message) {
            return Ok(self.proposer.nothing());
        }
        match &message.body {
            Body::Prepare { ballot, pos } => self.on_prepare(message.from, *ballot, *pos),
            Body::Promise { .. } => self.proposer.on_promise(message),
            Body::Accept { ballot, pos, entry } => {
                self.on_accept(message.from, *ballot, *pos, entry)
            }
            Body::Accepted { .. } => self.proposer.on_accepted(message),
            Body::Nack { .. } => self.proposer.on_nack(message),
            Body::Behind { .. } => on_behind(self.alloc, &self.log, &self.proposer, message),
            Body::Decided { .. } => on_decided(self.alloc, &self.log, &self.proposer, message),
        }
    }

    /// What the desk plans at a Prepare.
    fn on_prepare(&self, from: u8, ballot: Ballot, pos: u32) -> Result<Plan, NoMemory>
        ensures { let x = self.now in
            IfOk result (λ p. p ≡ on_body x.desks x.number x.desk from (Prepare ballot pos)) }
    {
        let here = LogView {
            len: self.log.len(),
            entry: self.log.entry(pos),
        };
        let (change, body) = on_prepare(self.alloc, &self.stored, here, ballot, pos)?;
        self.answer(from, change, body)
    }

    /// What the desk plans at an Accept.
    fn on_accept(&self, from: u8, ballot: Ballot, pos: u32, entry: &Entry) -> Result<Plan, NoMemory>
        ensures { let x = self.now in
            IfOk result
            (λ p. p ≡ on_body x.desks x.number x.desk from (Accept ballot pos entry.now)) }
    {
        let here = LogView {
            len: self.log.len(),
            entry: self.log.entry(pos),
        };
        let (change, body) = on_accept(self.alloc, &self.stored, here, ballot, pos, entry)?;
        self.answer(from, change, body)
    }

    /// The plan that stores this, and answers the sender.
    fn answer(&self, to: u8, change: Option<Change>, body: Body) -> Result<Plan, NoMemory>
        ensures { let x = self.now in
            IfOk result
            (λ p. p ≡ answered x.number x.desk to (record { change = change; body = body })) }
    {
        let messages = to_one(self.alloc, self.number(), to, body)?;
        Ok(Plan {
            role: None,
            seen: self.proposer.seen(),
            drop_first: false,
            change,
            messages,
        })
    }
}

/// Makes the change, in the room that the log has for it.
fn make(stored: &mut Stored, log: &mut Log, change: Option<Change>)
    requires { HasRoom log.old.room change }
    ensures stored { stored.new ≡ stored_after stored.old change }
    ensures log { log.new.entries ≡ log_after log.old.entries change }
{
    match change {
        None => {}
        Some(Change::Promised(ballot)) => stored.promised = ballot,
        Some(Change::Voted(vote)) => {
            stored.promised = vote.ballot;
            stored.vote = Some(vote);
        }
        Some(Change::Tried(number)) => stored.tried = number,
        Some(Change::Appended(entry)) => log.append(entry),
    }
}
