//! An event, its messages, and Start where the log grew.

ghost use Rattle.std.specs.Prelude.{◌≡◌, IfOk, OnOk, OnErr};
ghost use Rattle.serving.specs.model.Sessions.{Comes, ComesPart, Meets, MeetsPart, TakesIn, desks};
ghost use Rattle.serving.specs.Serving.{grew, start_if_grown, take};

use crate::calls::{NodeAnswer, call};
use crate::peers::Peers;
use crate::session::Session;
use acceptor::NoMemory;
use answers::Desk;
use learner::event::DeskEvent;
use std::collections::VecDeque;

/// Whether Start is due after a frame that began with this many entries in the log.
fn grew<D: Desk>(before: u32, node: &D) -> bool
    ensures { result ≡ grew before (D.seen node.now) }
{
    !node.is_down() && before < node.log().len() && node.queued() > 0
}

impl Session {
    /// Gives the node an event and pushes its messages.
    fn call_and_push<D: Desk, P: Peers>(
        self,
        node: &mut D,
        peers: &mut P,
        event: DeskEvent,
    ) -> Result<NodeAnswer, NoMemory>
        requires home { D.home_of node.old ≡ self.home }
        ensures ok { IfOk result (Meets D.Desk P.Peers self event
            (desks node.old peers.old) (desks node.new peers.new)) }
        ensures err { OnErr result (MeetsPart D.Desk P.Peers self event
            (desks node.old peers.old) (desks node.new peers.new)) }
        ensures home { D.home_of node.new ≡ D.home_of node.old }
    {
        let mut waiting = VecDeque::new(self.alloc);
        let answer = call(node, &mut waiting, event)?;
        self.push_all(&mut waiting, peers)?;
        Ok(answer)
    }

    /// Gives the node Start and pushes its messages, where it is due after a frame that began with
    /// this many entries in the log.
    pub fn start_if_grown<D: Desk, P: Peers>(
        self,
        node: &mut D,
        peers: &mut P,
        before: u32,
    ) -> Result<(), NoMemory>
        requires home { D.home_of node.old ≡ self.home }
        ensures ok { OnOk result (Comes D.Desk P.Peers self (start_if_grown self.home before)
            (desks node.old peers.old) (desks node.new peers.new)) }
        ensures err { OnErr result (ComesPart D.Desk P.Peers self
            (start_if_grown self.home before) (desks node.old peers.old) (desks node.new peers.new)) }
        ensures home { D.home_of node.new ≡ D.home_of node.old }
    {
        if grew(before, node) {
            self.call_and_push(node, peers, DeskEvent::Start)?;
        }
        Ok(())
    }

    /// Gives the node an event and pushes its messages, and then Start where the log grew and
    /// entries wait.
    pub fn take<D: Desk, P: Peers>(
        self,
        node: &mut D,
        peers: &mut P,
        event: DeskEvent,
    ) -> Result<NodeAnswer, NoMemory>
        requires home { D.home_of node.old ≡ self.home }
        ensures ok { IfOk result (TakesIn D.Desk P.Peers self event
            (desks node.old peers.old) (desks node.new peers.new)) }
        ensures err { OnErr result (ComesPart D.Desk P.Peers self (take self.home event)
            (desks node.old peers.old) (desks node.new peers.new)) }
        ensures home { D.home_of node.new ≡ D.home_of node.old }
    {
        let before = node.log().len();
        let answer = self.call_and_push(node, peers, event)?;
        self.start_if_grown(node, peers, before)?;
        Ok(answer)
    }
}
