//! A request: its calls, its pushes and its answer.

ghost use Rattle.std.specs.Prelude.{◌≡◌, [], None, Some, IfOk, OnOk, OnErr, IfSome};
ghost use Rattle.learner.specs.Ranges.{AreInRange};
ghost use Rattle.wire.specs.{Ranges.IsEntry, declared.values.Version.Version};
ghost use Rattle.serving.specs.{Answering.IsAnswer, Answering.IsAnswerIn, Asking.AsksInRange};
ghost use Rattle.serving.specs.{Asking.IsAskedIn, model.Sessions.Serves, model.Sessions.desks};
ghost use Rattle.serving.specs.declared.request.Request.TheVariants.{Heard, Entered, Ticked};
ghost use Rattle.serving.specs.model.Sessions.{ServesPart, StartsNext, StartsNextPart};

use crate::calls::{NodeAnswer, call};
use crate::copies::copied;
use crate::peers::Peers;
use crate::replies::{answer_first, asked, printed};
use crate::request::Request;
use crate::session::Session;
use crate::standing::inspected;
use acceptor::NoMemory;
use acceptor::entry::Entry;
use acceptor::message::Message;
use answers::Desk;
use learner::event::DeskEvent;
use std::collections::VecDeque;
use wire::{ClientRefusal as Refusal, FrameBody};

impl Session {
    /// A desk says something: it is delivered.
    fn hear<D: Desk, P: Peers>(
        self,
        node: &mut D,
        peers: &mut P,
        message: Message,
    ) -> Result<(), NoMemory>
        requires home { D.home_of node.old ≡ self.home }
        ensures ok { OnOk result (Serves D.Desk P.Peers self (Heard message)
            (desks node.old peers.old) (desks node.new peers.new) None) }
        ensures err { OnErr result (ServesPart D.Desk P.Peers self (Heard message)
            (desks node.old peers.old) (desks node.new peers.new)) }
        ensures home { D.home_of node.new ≡ D.home_of node.old }
    {
        self.take(node, peers, DeskEvent::Deliver(message))?;
        Ok(())
    }

    /// The desk is given a Tick, and this is what a client is answered that gave it.
    pub fn tick<D: Desk, P: Peers>(self, node: &mut D, peers: &mut P) -> Result<FrameBody, NoMemory>
        requires home { D.home_of node.old ≡ self.home }
        ensures ok { IfOk result (λ answer. Serves D.Desk P.Peers self Ticked
            (desks node.old peers.old) (desks node.new peers.new) (Some answer)) }
        ensures err { OnErr result (ServesPart D.Desk P.Peers self Ticked
            (desks node.old peers.old) (desks node.new peers.new)) }
        ensures in_range { IfOk result IsAnswer }
        ensures home { D.home_of node.new ≡ D.home_of node.old }
    {
        let answer = self.take(node, peers, DeskEvent::Tick)?;
        Ok(answer_first(FrameBody::Fine, answer, node))
    }

    /// Gives the node Start, and pushes the messages that wait and those of it.
    fn start<D: Desk, P: Peers>(
        self,
        node: &mut D,
        peers: &mut P,
        waiting: &mut VecDeque<Message>,
    ) -> Result<(), NoMemory>
        requires home { D.home_of node.old ≡ self.home }
        requires in_range { AreInRange self.home.desks self.home.desk waiting.old.items }
        ensures ok { OnOk result (StartsNext D.Desk P.Peers self
            (desks node.old peers.old) (desks node.new peers.new)
            waiting.old.items waiting.new.items) }
        ensures err { OnErr result (StartsNextPart D.Desk P.Peers self
            (desks node.old peers.old) (desks node.new peers.new) waiting.old.items) }
        ensures empty { OnOk result (waiting.new.items ≡ []) }
        ensures home { D.home_of node.new ≡ D.home_of node.old }
    {
        call(node, waiting, DeskEvent::Start)?;
        self.push_all(waiting, peers)
    }

    /// A client enters a command: where the desk accepts it, Start follows.
    fn enter<D: Desk, P: Peers>(
        self,
        node: &mut D,
        peers: &mut P,
        entry: Entry,
    ) -> Result<FrameBody, NoMemory>
        requires home { D.home_of node.old ≡ self.home }
        requires in_range { IsEntry entry }
        ensures ok { IfOk result (λ answer. Serves D.Desk P.Peers self (Entered entry)
            (desks node.old peers.old) (desks node.new peers.new) (Some answer)) }
        ensures err { OnErr result (ServesPart D.Desk P.Peers self (Entered entry)
            (desks node.old peers.old) (desks node.new peers.new)) }
        ensures in_range { IfOk result IsAnswer }
        ensures home { D.home_of node.new ≡ D.home_of node.old }
    {
        let id = entry.id();
        let mut waiting = VecDeque::new(self.alloc);
        let answer = call(node, &mut waiting, DeskEvent::Submit(entry))?;
        if answer != NodeAnswer::Taken {
            return Ok(answer_first(FrameBody::Taken { id }, answer, node));
        }
        self.start(node, peers, &mut waiting)?;
        Ok(answer_first(FrameBody::Taken { id }, answer, node))
    }

    /// Makes the calls and pushes of a request, and gives its answer, where it has one.
    #[tactic(auto, using(crate::proofs::Refusing::refuses_in))]
    pub fn serve_request<D: Desk, P: Peers>(
        self,
        node: &mut D,
        peers: &mut P,
        request: Request,
    ) -> Result<Option<FrameBody>, NoMemory>
        requires home { D.home_of node.old ≡ self.home }
        requires in_range { AsksInRange request }
        ensures ok { IfOk result (Serves D.Desk P.Peers self request
            (desks node.old peers.old) (desks node.new peers.new)) }
        ensures err { OnErr result (ServesPart D.Desk P.Peers self request
            (desks node.old peers.old) (desks node.new peers.new)) }
        ensures in_range { (version : Version) → IsAskedIn version request
            → IfOk result (λ w. IfSome w (IsAnswerIn version)) }
        ensures home { D.home_of node.new ≡ D.home_of node.old }
    {
        match request {
            Request::Heard { message } => {
                self.hear(node, peers, message)?;
                Ok(None)
            }
            Request::Lagging { message } => {
                self.tell(node, peers, message)?;
                Ok(None)
            }
            Request::Learned { run } => {
                self.learn(node, peers, run)?;
                Ok(None)
            }
            Request::Entered { entry } => Ok(Some(self.enter(node, peers, entry)?)),
            Request::Ticked => Ok(Some(self.tick(node, peers)?)),
            Request::Asked { id } => Ok(Some(asked(node, id))),
            Request::Printed {
                event,
                round,
                position,
                style,
            } => Ok(Some(printed(node, event, round, position, style))),
            Request::Inspected { differs } => Ok(Some(inspected(node, differs))),
            Request::Copied { position } => Ok(Some(copied(self.alloc, node, position))),
            Request::Stopped => Ok(Some(FrameBody::Fine)),
            Request::Strange => Ok(Some(FrameBody::Refused {
                refusal: Refusal::Foreign,
            })),
            Request::Ignored => Ok(None),
            Request::Denied => Ok(Some(FrameBody::Refused {
                refusal: Refusal::NotAllowed,
            })),
            Request::Withheld => Ok(Some(FrameBody::Refused {
                refusal: Refusal::HallDiffers,
            })),
        }
    }
}
