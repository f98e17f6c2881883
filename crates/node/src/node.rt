//! One desk of a hall: its replicated log, and what the log's entries have come to.

ghost use Rattle.std.specs.Prelude.{◌≡◌, ◌⊎◌, Err, IfOk, IfErr};
ghost use Rattle.node.specs.Seeing.{seen_of};
ghost use Rattle.replica.specs.{Handles.Handles, Opens.Opens, Opens.GivesBack, Settles.Settles};

use acceptor::NoMemory;
use acceptor::ballot::Ballot;
use acceptor::message::Messages;
use answers::{Desk, IdState, LogSheetFault, Transcript};
use formats::Event as EventOf;
use learner::event::DeskEvent;
use learner::log::Log;
use proposer::role::Role;
use replica::{NodeFault, Replica};
use sheets::SheetStyle;
use std::alloc::Global;
use std::marker::Model;
use store::fault::LoadFault;
use store::home::Home;
use store::keeper::Keeper;

/// One desk of a hall, over a keeper: a `Replica`, and beside its log the transcript of it, so that
/// it is a `Desk` that serves.
///
/// Where memory was refused, the transcript lacks entries of the log: then the next event that the
/// desk takes makes up for those, as far as there is memory, and until then what they were answered
/// is read off the log.
pub struct Node<K: Keeper> {
    alloc: Global,
    replica: Replica<K>,
    transcript: Transcript,
}

// It is written out, so that a caller does not prove again how each part is dropped.
impl<K: Keeper + Drop> Drop for Node<K> {
    fn drop(self) {
        let Node {
            alloc: _,
            replica: _,
            transcript: _,
        } = self;
    }
}

impl<K: Keeper> Model for Node<K> {
    ghost use Rattle.replica.specs.Nodes.{NodeValue};

    ghost Value = { NodeValue K };

    ghost view = { λ n. n.replica };

    ghost use Rattle.answers.specs.Transcripts.{IsFront};

    ghost invariant = { λ n. IsFront n.transcript n.replica.desk.log };
}

impl<K: Keeper + Drop> Node<K> {
    /// Opens the desk that the keeper keeps, as `Replica::open` does.
    pub fn open(alloc: Global, keeper: K) -> Result<Node<K>, LoadFault>
        requires settled { K.is_settled keeper }
        ensures opened { IfOk result (λ node. Opens K.Keeper keeper node) }
        ensures refused { IfErr result (λ fault. (fault ≡ LoadFault.NoMemory)
            ⊎ ((k : K) × K.load_gives keeper (Err fault) k)) }
    {
        match Node::open_or_give_back(alloc, keeper) {
            Ok(node) => Ok(node),
            Err((fault, _)) => Err(fault),
        }
    }

    /// As `open`, but a refusal gives the keeper back, as that of `Replica::open_or_give_back`.
    pub fn open_or_give_back(alloc: Global, keeper: K) -> Result<Node<K>, (LoadFault, K)>
        requires settled { K.is_settled keeper }
        ensures opened { IfOk result (λ node. Opens K.Keeper keeper node) }
        ensures given_back { IfErr result (λ e. GivesBack K.Keeper keeper e.0 e.1) }
        ensures refused { IfErr result (λ e. (e.0 ≡ LoadFault.NoMemory)
            ⊎ K.load_gives keeper (Err e.0) e.1) }
    {
        let Ok(mut transcript) = Transcript::new(alloc) else {
            return Err((LoadFault::NoMemory, keeper));
        };
        match Replica::open_or_give_back(alloc, keeper) {
            Ok(replica) => {
                let _ = transcript.catch_up(replica.log());
                Ok(Node {
                    alloc,
                    replica,
                    transcript,
                })
            }
            Err(refused) => Err(refused),
        }
    }

    /// The keeper, with what it has kept.
    pub fn into_keeper(self) -> K
        ensures { result ≡ self.keeper }
    {
        let Node {
            alloc: _,
            replica,
            transcript: _,
        } = self;
        replica.into_keeper()
    }
}

impl<K: Keeper + Drop> Desk for Node<K> {
    ghost seen = { seen_of };

    ghost home_of = { λ n. K.home_of n.keeper };

    ghost handles = { Handles K.Keeper };

    ghost settles = { Settles K.Keeper };

    ghost is_settled = { λ n. K.is_settled n.keeper };

    fn home(&self) -> Home {
        self.replica.home()
    }

    fn handle(&mut self, event: DeskEvent) -> Result<Messages, NodeFault> {
        match self.replica.handle(event) {
            Ok(messages) => {
                let _ = self.transcript.catch_up(self.replica.log());
                Ok(messages)
            }
            Err(fault) => Err(fault),
        }
    }

    fn settle(&mut self) -> bool {
        self.replica.settle()
    }

    fn log(&self) -> &Log {
        self.replica.log()
    }

    fn queued(&self) -> u8 {
        self.replica.queue().len() as u8
    }

    fn role(&self) -> &Role {
        self.replica.role()
    }

    fn promised(&self) -> Ballot {
        self.replica.promised()
    }

    fn told(&self) -> [u32; 5] {
        self.replica.told()
    }

    fn is_down(&self) -> bool {
        self.replica.is_down()
    }

    fn answer(&self, id: u64) -> Result<IdState, NoMemory> {
        self.transcript
            .state_of(self.alloc, self.replica.log(), self.replica.queue(), id)
    }

    fn sheet_at(
        &self,
        position: u32,
        event: EventOf,
        round: u8,
        style: SheetStyle,
    ) -> Result<Vec<u8>, LogSheetFault> {
        self.transcript.sheet_at(
            self.alloc,
            self.replica.log(),
            position,
            event,
            round,
            style,
        )
    }
}
