//! One desk of a replicated log, over the store that keeps its state.

ghost use Rattle.std.specs.Prelude.{◌≡◌, ◌≢◌, ◌⊎◌, ◌≤◌, ◌<◌, Err, false, IfOk, IfErr, IsTrue};
ghost use Rattle.std.specs.Prelude.{length};
ghost use Rattle.std.specs.List.{AllByRecursion};
ghost use Rattle.acceptor.specs.Ballots.{no_ballot};
ghost use Rattle.learner.specs.Ranges.{IsReal};
ghost use Rattle.store.specs.Ranges.{IsHome};
ghost use Rattle.replica.specs.{roles.Opening.opened, Settles.Settles, Stores.KeepsStill};
ghost use Rattle.replica.specs.{Handles.Handles, Lengths.nothing_told, Opens.GivesBack, Opens.Opens};
ghost use Rattle.replica.specs.Stores.{HasKept, HoldsDesk, HoldsNoOther};

use crate::entries::look_at_all;
use crate::handling::take_event;
use crate::lengths::told_by;
use crate::roles::{NodeFault, Running};
use acceptor::ballot::Ballot;
use acceptor::entry::Entry;
use acceptor::message::Messages;
use learner::event::DeskEvent;
use learner::log::Log;
use proposer::role::Role;
use std::alloc::Global;
use std::marker::Model;
use store::fault::LoadFault;
use store::home::Home;
use store::keeper::Keeper;

/// One desk of a hall and its log, over a keeper. It takes one event at a time.
///
/// What is said of the store holds under the keeper's premise, `is_honest`: so far the store has
/// given back what was written to it, and nobody else has written it. A keeper in memory needs
/// none.
pub struct Replica<K: Keeper> {
    alloc: Global,
    keeper: K,
    desk: Running,
    is_down: bool,
    told: [u32; 5],
}

// It is written out, so that a caller does not prove again how each part is dropped.
impl<K: Keeper + Drop> Drop for Replica<K> {
    fn drop(self) {
        let Replica {
            alloc: _,
            keeper: _,
            desk: _,
            is_down: _,
            told: _,
        } = self;
    }
}

impl<K: Keeper> Model for Replica<K> {
    ghost use Rattle.std.specs.Prelude.{◌≡◌, ◌≤◌, false};
    ghost use Rattle.std.specs.List.{AllByRecursion};
    ghost use Rattle.replica.specs.Nodes.{NodeValue};

    ghost Value = { NodeValue K };

    ghost view = { λ n. record {
      keeper = n.keeper;
      desk = n.desk.desk;
      is_down = n.is_down;
      told = n.told;
    } };

    ghost invariant = { λ n. ((K.home_of n.keeper).desk ≡ n.desk.number)
        × ((K.home_of n.keeper).desks ≡ n.desk.desks)
        × (n.is_down ≡ false → K.is_down n.keeper ≡ false)
        × (n.is_down ≡ false → K.is_honest n.keeper
        → K.keeps n.keeper n.desk.desk.stored n.desk.desk.log)
        × AllByRecursion (λ len. len ≤ 65536) n.told };
}

impl<K: Keeper + Drop> Replica<K> {
    /// Opens the desk that the keeper keeps: it has the state and the log that the keeper loads, is
    /// idle, and has an empty queue. Nothing may wait in the keeper.
    ///
    /// Damaged: what the store holds is not a state in its ranges, or the count of failures is at
    /// its end. Device: the device refused, and a failure was counted. NoMemory: the keeper's load
    /// or the desk was refused memory. A refusal drops the keeper: `open_or_give_back` says what it
    /// leaves.
    pub fn open(alloc: Global, keeper: K) -> Result<Replica<K>, LoadFault>
        requires settled { K.is_settled keeper }
        ensures opened { IfOk result (λ replica. Opens K.Keeper keeper replica) }
        ensures refused { IfErr result (λ fault. (fault ≡ LoadFault.NoMemory)
            ⊎ ((k : K) × K.load_gives keeper (Err fault) k)) }
    {
        match Replica::open_or_give_back(alloc, keeper) {
            Ok(node) => Ok(node),
            Err((fault, _)) => Err(fault),
        }
    }

    /// As `open`, but a refusal gives the keeper back, with why.
    ///
    /// Damaged: what the store holds is not a state in its ranges, or the count of failures is at
    /// its end. Device: the device refused, and a failure was counted. NoMemory: the keeper's load
    /// or the desk was refused memory, and the keeper keeps what it kept. Whatever the refusal, its
    /// store holds nothing that it could not hold before, and is lost only where it could be
    /// before.
    pub fn open_or_give_back(alloc: Global, keeper: K) -> Result<Replica<K>, (LoadFault, K)>
        requires settled { K.is_settled keeper }
        ensures opened { IfOk result (λ replica. Opens K.Keeper keeper replica) }
        ensures given_back { IfErr result (λ e. GivesBack K.Keeper keeper e.0 e.1) }
        ensures refused { IfErr result (λ e. (e.0 ≡ LoadFault.NoMemory)
            ⊎ K.load_gives keeper (Err e.0) e.1) }
    {
        Replica::load(alloc, keeper)
    }

    /// The same, clause by clause.
    fn load(alloc: Global, keeper: K) -> Result<Replica<K>, (LoadFault, K)>
        requires settled { K.is_settled keeper }
        ensures up { IfOk result (λ node. node.is_down ≡ false) }
        ensures first { IfOk result (λ node. node.desk ≡ opened node.desk.stored node.desk.log) }
        ensures told { IfOk result (λ node. node.told ≡ nothing_told) }
        ensures loaded { IfOk result (λ node. K.is_honest node.keeper
            → K.may_hold keeper node.desk.stored node.desk.log) }
        ensures same { IfOk result (λ node. HasKept K.Keeper keeper node.keeper node.desk) }
        ensures stored { IfOk result (λ node. HoldsDesk K.Keeper node.keeper node.desk) }
        ensures settled { IfOk result (λ node. K.is_settled node.keeper) }
        ensures honest { IfOk result (λ node. K.is_honest node.keeper → K.is_honest keeper) }
        ensures home { IfOk result (λ node. K.home_of node.keeper ≡ K.home_of keeper) }
        ensures back_honest { IfErr result (λ e. K.is_honest e.1 → K.is_honest keeper) }
        ensures back_home { IfErr result (λ e. K.home_of e.1 ≡ K.home_of keeper) }
        ensures back_no_other { IfErr result (λ e. HoldsNoOther K.Keeper keeper e.1) }
        ensures back_whole { IfErr result (λ e. K.is_honest e.1
            → K.may_break e.1 → K.may_break keeper) }
        ensures back_memory { IfErr result (λ e. e.0 ≡ LoadFault.NoMemory
            → KeepsStill K.Keeper keeper e.1) }
        ensures back_counted { IfErr result (λ e. e.0 ≡ LoadFault.Device
            → K.failures_of keeper < K.failures_of e.1) }
        ensures back_uncounted { IfErr result (λ e. e.0 ≢ LoadFault.Device
            → K.failures_of e.1 ≡ K.failures_of keeper) }
        ensures back_down { IfErr result (λ e. e.0 ≢ LoadFault.Device
            → IsTrue (K.is_down e.1) → IsTrue (K.is_down keeper)) }
        ensures refused { IfErr result (λ e. (e.0 ≡ LoadFault.NoMemory)
            ⊎ K.load_gives keeper (Err e.0) e.1) }
    {
        let mut keeper = keeper;
        let home = keeper.home();
        match keeper.load(alloc) {
            Ok((stored, log)) => match Running::new(alloc, home.desk, home.desks, stored, log) {
                Ok(desk) => Ok(Replica {
                    alloc,
                    keeper,
                    desk,
                    is_down: false,
                    told: [0; 5],
                }),
                Err(_) => Err((LoadFault::NoMemory, keeper)),
            },
            Err(fault) => Err((fault, keeper)),
        }
    }

    /// The hall, the number of this desk, 1 to the number of desks, and that number, 3 or 5.
    pub fn home(&self) -> Home
        ensures home { result ≡ K.home_of self.now.keeper }
        ensures in_range { IsHome result }
    {
        self.keeper.home()
    }

    /// Whether the desk is Down: a save or a settling has failed, and `handle` answers Down to each
    /// event.
    pub fn is_down(&self) -> bool
        ensures { result ≡ self.now.is_down }
    {
        self.is_down
    }

    /// The entries that wait to be proposed, at most 64.
    pub fn queue(&self) -> &[Entry]
        ensures queue { result.now ≡ self.now.desk.queue }
        ensures most { length self.now.desk.queue ≤ 64 }
    {
        self.desk.queue()
    }

    /// What the desk does for a ballot of its own.
    pub fn role(&self) -> &Role
        ensures { result.now ≡ self.now.desk.role }
    {
        self.desk.role()
    }

    /// The highest ballot that the desk has promised, (0, 0) where it has promised none.
    pub fn promised(&self) -> Ballot
        ensures promised { result ≡ self.now.desk.stored.promised }
        ensures real { (result ≡ no_ballot)
            ⊎ IsReal (K.home_of self.now.keeper).desks result }
    {
        self.desk.promised()
    }

    /// The greatest length of its log that each desk reported to this one, that of desk 1 first, at
    /// most 65,536: a Behind reports the length of its sender's log, and a Decided that it is above
    /// a position. It is 0 for a desk that reported none since this one was opened, and for one
    /// that the hall does not have.
    pub fn told(&self) -> [u32; 5]
        ensures told { result ≡ self.now.told }
        ensures most { AllByRecursion (λ len. len ≤ 65536) result }
    {
        self.told
    }

    /// Takes an event: does the step of the protocol, and saves its one change. That may wait until
    /// `settle` is called: no message that was handed out may leave the desk before that call has
    /// answered true.
    ///
    /// The messages are in the order in which they are to be sent. Each is from this desk to a desk
    /// of the hall, with its fields in the ranges of a frame. A message for another desk, from none
    /// of the hall, or with a field out of its range does nothing, as does any message that the
    /// protocol ignores: the answer is Ok, and nothing is stored. Where the answer is Ok, what a
    /// message of a desk of the hall reports of that desk's log is seen in `told` from then on.
    ///
    /// At a desk that is Down every event is Down. Else a submission is Busy with 64 entries in the
    /// queue, and it is LogFull with 65,536 in the log; a Start is LogFull at an idle or leading
    /// desk with 65,536 in the log; a Start or a Tick that needs a new ballot is BallotsSpent where
    /// no number is left. Where memory is refused, the answer is NoMemory. Each of these leaves the
    /// desk and its store as they were. Where the save fails by the device, the answer is Down, in
    /// this call and in every later one: nothing is handed out, the desk still shows its state
    /// before that event, and a store that is settled and opened again holds the state before it or
    /// the one after it.
    #[tactic(auto, using(crate::proofs::Finding::finds_same))]
    pub fn handle(&mut self, event: DeskEvent) -> Result<Messages, NodeFault>
        ensures { Handles K.Keeper self.old event result self.new }
    {
        if self.is_down {
            return Err(NodeFault::Down);
        }
        let told = told_by(self.home(), &event, self.told);
        match take_event(self.alloc, &mut self.keeper, &mut self.desk, event) {
            Ok(messages) => {
                self.told = told;
                look_at_all(messages.as_slice());
                Ok(messages)
            }
            Err(NodeFault::Down) => {
                self.is_down = true;
                Err(NodeFault::Down)
            }
            Err(fault) => Err(fault),
        }
    }

    /// Commits the changes of all events since the last such call, together and in order: after a
    /// stop at any moment a store that is opened again holds the state before them all, or the
    /// state after them all. Where none waits, the device is not asked.
    ///
    /// False: the desk is Down, as it was before, or from now on.
    pub fn settle(&mut self) -> bool
        ensures { Settles K.Keeper self.old result self.new }
    {
        if self.is_down {
            return false;
        }
        if self.keeper.settle() {
            return true;
        }
        self.is_down = true;
        false
    }

    /// The entries that this desk knows to be decided. At a desk that is Down they are those before
    /// the event whose save failed.
    pub fn log(&self) -> &Log
        ensures entries { result.now.entries ≡ self.now.desk.log }
        ensures most { length self.now.desk.log ≤ 65536 }
    {
        self.desk.log()
    }

    /// The keeper, with what it has kept.
    pub fn into_keeper(self) -> K
        ensures { result ≡ self.keeper }
    {
        let Replica {
            alloc: _,
            keeper,
            desk: _,
            is_down: _,
            told: _,
        } = self;
        keeper
    }
}
