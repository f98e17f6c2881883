//! What the code that serves a desk needs of it.

ghost use Rattle.std.specs.Prelude.{◌≡◌, ◌⊎◌, ◌↔◌, ◌≤◌, List, Result, Err, Some, IfOk, OnOk, IfErr};
ghost use Rattle.std.specs.Prelude.{Bool, IsTrue, true, false, length};
ghost use Rattle.std.specs.List.{AllByRecursion};
ghost use Rattle.acceptor.specs.Ballots.{no_ballot};
ghost use Rattle.acceptor.specs.declared.message.Message.{Message as MessageValue};
ghost use Rattle.learner.specs.{declared.event.DeskEvent.DeskEvent as EventValue, Ranges.IsReal};
ghost use Rattle.learner.specs.Steps.{step, IsDesk};
ghost use Rattle.answers.specs.Answers.{told, sheet_at, NoSheetAt};
ghost use Rattle.replica.specs.{declared.roles.fault.NodeFault.NodeFault as Refusal, Handles.Takes};
ghost use Rattle.replica.specs.Lengths.{told_after};
ghost use Rattle.answers.specs.Seen.{Seen, settled};
ghost use Rattle.store.specs.{Ranges.IsHome, declared.home.Home.Home as Place};

use crate::answers::IdState;
use crate::fault::LogSheetFault;
use acceptor::NoMemory;
use acceptor::ballot::Ballot;
use acceptor::message::Messages;
use formats::Event as EventOf;
use learner::event::DeskEvent;
use learner::log::Log;
use proposer::role::Role;
use replica::roles::NodeFault;
use sheets::SheetStyle;
use store::home::Home;

/// One desk of a hall, as serving uses it.
pub trait Desk {
    /// What is seen of it.
    ghost seen: { Self → Seen };

    /// The hall, its number, and the number of desks.
    ghost home_of: { Self → Place };

    /// All that is said of a call: the desk before it, the event, the answer, the desk behind it.
    ghost handles: { Self → EventValue → Result (List MessageValue) Refusal → Self → Type 0 };

    /// All that is said of a settling: the desk before it, the answer, the desk after it.
    ghost settles: { Self → Bool → Self → Type 0 };

    /// Nothing that an event has changed waits to be committed.
    ghost is_settled: { Self → Type 0 };

    /// The hall, the number of this desk, 1 to the number of desks, and that number, 3 or 5.
    fn home(&self) -> Home
        ensures home { result ≡ home_of self.now }
        ensures in_range { IsHome result }
        ensures ours { IsDesk result.desks result.desk }
        ensures few { result.desks ≤ 5 };

    /// Takes an event, and gives the messages that come of it, in the order in which they are to be
    /// sent. They may not leave the desk before `settle` has answered true. What is refused, and
    /// what a refusal leaves, is as `Replica::handle` says.
    fn handle(&mut self, event: DeskEvent) -> Result<Messages, NodeFault>
        ensures handles { handles self.old event result self.new }
        ensures takes { let home = home_of self.old in let x = (seen self.old).desk in
            (seen self.old).is_down ≡ false
            → Takes (step home.desks home.desk x event) home.desks home.desk x (seen self.new).desk
            result }
        ensures ended { (seen self.old).is_down ≡ true
            → (result ≡ Err NodeFault.Down) × (seen self.new ≡ seen self.old) }
        ensures told { (seen self.new).told
            ≡ told_after (home_of self.old) event result (seen self.old).told }
        ensures down { (result ≡ Err NodeFault.Down) ↔ ((seen self.new).is_down ≡ true) }
        ensures home { home_of self.new ≡ home_of self.old };

    /// Commits what the events since the last such call have changed, all of it together. False:
    /// the desk is Down, as it was before, or from now on.
    fn settle(&mut self) -> bool
        ensures settles { settles self.old result self.new }
        ensures settled { IsTrue result → is_settled self.new }
        ensures seen { seen self.new ≡ settled result (seen self.old) }
        ensures home { home_of self.new ≡ home_of self.old };

    /// The entries that this desk knows to be decided. At a desk that is Down they are those before
    /// the event whose save failed.
    fn log(&self) -> &Log
        ensures entries { result.now.entries ≡ (seen self.now).desk.log }
        ensures most { length (seen self.now).desk.log ≤ 65536 };

    /// How many entries wait to be proposed, 0 to 64.
    fn queued(&self) -> u8
        ensures queued { result ≡ length (seen self.now).desk.queue }
        ensures most { result ≤ 64 };

    /// What it does for a ballot of its own.
    fn role(&self) -> &Role
        ensures { result.now ≡ (seen self.now).desk.role };

    /// The highest ballot that it has promised, (0, 0) where it has promised none.
    fn promised(&self) -> Ballot
        ensures promised { result ≡ (seen self.now).desk.stored.promised }
        ensures real { (result ≡ no_ballot) ⊎ IsReal (home_of self.now).desks result };

    /// The greatest length of its log that each desk reported to this one, that of desk 1 first, at
    /// most 65,536. It is 0 for a desk that reported none, and for one that the hall does not have.
    /// A desk tells the length of its log by a Behind, and that it is above a position by a
    /// Decided.
    fn told(&self) -> [u32; 5]
        ensures told { result ≡ (seen self.now).told }
        ensures most { AllByRecursion (λ len. len ≤ 65536) result };

    /// Whether the desk is Down: a save or a settling has failed, and `handle` answers Down to each
    /// event.
    fn is_down(&self) -> bool
        ensures { result ≡ (seen self.now).is_down };

    /// What has become of a submitted id, by the log and the queue, also where the desk is Down.
    fn answer(&self, id: u64) -> Result<IdState, NoMemory>
        ensures { let x = (seen self.now).desk in
            IfOk result (λ answer. answer ≡ told x.log x.queue id) };

    /// The sheet of a round after the log's first `position` entries, also where the desk is Down.
    ///
    /// A position above the log's length is NotThere. Else, where none of the accepted commands up
    /// to there opened the round, the answer is NoSuchRound. Else, where memory is refused, it is
    /// NoMemory.
    fn sheet_at(
        &self,
        position: u32,
        event: EventOf,
        round: u8,
        style: SheetStyle,
    ) -> Result<Vec<u8>, LogSheetFault>
        ensures there { OnOk result (position ≤ length (seen self.now).desk.log) }
        ensures sheet { let log = (seen self.now).desk.log in
            IfOk result (λ text. sheet_at style log position event round ≡ Some text.items) }
        ensures none { let log = (seen self.now).desk.log in
            IfErr result
            (λ fault. NoSheetAt fault log position (sheet_at style log position event round)) };
}
