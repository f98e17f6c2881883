//! Runs of entries: what a desk says was decided, and what a desk is sent that lacks entries.

ghost use Rattle.std.specs.Prelude.{◌≡◌, ◌≤◌, ◌+◌, ◌∷◌, [], option_map, IfOk, IfSome, OnOk, OnErr};
ghost use Rattle.std.specs.Prelude.{None, length};
ghost use Rattle.learner.specs.Ranges.{AreInRange};
ghost use Rattle.serving.specs.{Adding.Hands, model.Sessions.TellsPart, model.Sessions.desks};
ghost use Rattle.serving.specs.Telling.{entries_told, entry_told, entries_said, run_of, run_pushed};
ghost use Rattle.serving.specs.model.Gathering.{Gathers, IsRun};
ghost use Rattle.serving.specs.declared.request.Request.TheVariants.{Lagging, Learned};
ghost use Rattle.serving.specs.model.Sessions.{Delivers, DeliversPart, LearnsAll, LearnsPart};
ghost use Rattle.serving.specs.model.Sessions.{Serves, ServesPart, TellsAll};

use crate::calls::call;
use crate::peers::Peers;
use crate::request::DecidedRun;
use crate::session::Session;
use acceptor::NoMemory;
use acceptor::entry::Entry;
use acceptor::message::{Body, Message};
use answers::Desk;
use learner::event::DeskEvent;
use std::alloc::Global;
use std::collections::VecDeque;
use store::home::Home;
use wire::{Entries, Frame, FrameBody, Version, encode};

/// The most entries of a run.
const MOST_ENTRIES: usize = 16;

/// The entry that a message says is at a position, where it says so to this desk.
fn entry_told(to: u8, pos: u32, message: &Message) -> Option<&Entry>
    ensures { option_map (λ e. e.now) result ≡ entry_told to pos message.now }
{
    match &message.body {
        Body::Decided { pos: there, entry } => {
            if message.to == to && *there == pos {
                Some(entry)
            } else {
                None
            }
        }
        Body::Prepare { .. }
        | Body::Promise { .. }
        | Body::Accept { .. }
        | Body::Accepted { .. }
        | Body::Nack { .. }
        | Body::Behind { .. } => None,
    }
}

/// Puts the entries that messages say to one desk from a position on, one each, after others.
/// False: they do not say so.
#[tactic(auto, unfolding(crate::specs::Telling::entries_told), using(crate::proofs::Told::gathers_none, crate::proofs::Told::gathers_not, crate::proofs::Told::gathers_more))]
fn gather(
    alloc: Global,
    entries: &mut Entries,
    to: u8,
    pos: u32,
    messages: &[Message],
) -> Result<bool, NoMemory>
    requires room { pos + length messages.now ≤ 65600 }
    ensures { IfOk result
        (λ all. Gathers all entries.old entries.new (entries_told to pos messages.now)) }
{
    let [message, rest @ ..] = messages else {
        return Ok(true);
    };
    let Some(entry) = entry_told(to, pos, message) else {
        return Ok(false);
    };
    entries.push(entry.copy_in(alloc)?)?;
    gather(alloc, entries, to, pos + 1, rest)
}

/// The run that messages of this desk are: at most 16, to one other desk, each saying what was
/// decided at the position after that of the one before. None: they are no run.
#[tactic(auto, unfolding(crate::specs::Telling::run_of), using(crate::proofs::Told::run_in_range))]
fn run_of(alloc: Global, home: Home, messages: &[Message]) -> Result<Option<DecidedRun>, NoMemory>
    requires in_range { AreInRange home.desks home.desk messages.now }
    ensures run { IfOk result (λ run. run ≡ run_of home.desk messages.now) }
    ensures in_range { IfOk result (λ run. IfSome run (λ r. IsRun home.desks r)) }
{
    let [first, ..] = messages else {
        return Ok(None);
    };
    if first.to == home.desk || messages.len() > MOST_ENTRIES {
        return Ok(None);
    }
    let Body::Decided { pos, .. } = &first.body else {
        return Ok(None);
    };
    let mut entries = Entries::none(alloc);
    if gather(alloc, &mut entries, first.to, *pos, messages)? {
        Ok(Some(DecidedRun {
            from: first.from,
            to: first.to,
            pos: *pos,
            entries,
        }))
    } else {
        Ok(None)
    }
}

/// What is said of the entries of a run: the first one in version 1, which is all that its frames
/// hold, and all of them in the later versions.
fn said(alloc: Global, version: Version, entries: Entries) -> Result<Entries, NoMemory>
    ensures { IfOk result (λ es. es ≡ entries_said version entries) }
{
    match version {
        Version::Two | Version::Three | Version::Four | Version::Five => Ok(entries),
        Version::One => {
            let first = match entries.as_slice() {
                [] => return Ok(Entries::none(alloc)),
                [first, ..] => first.copy_in(alloc)?,
            };
            Entries::one(alloc, first)
        }
    }
}

impl Session {
    /// Delivers the entries, each as an event of its own. The messages of the last one wait, and
    /// those of the others are dropped; once the desk is down the other entries are dropped.
    fn deliver_each<D: Desk>(
        self,
        node: &mut D,
        waiting: &mut VecDeque<Message>,
        run: DecidedRun,
    ) -> Result<(), NoMemory>
        requires most { run.pos + length run.entries ≤ 65536 }
        requires home { D.home_of node.old ≡ self.home }
        requires in_range { AreInRange self.home.desks self.home.desk waiting.old.items }
        ensures ok { OnOk result (Delivers D.Desk self.home run
            node.old waiting.old.items node.new waiting.new.items) }
        ensures err { OnErr result
            (DeliversPart D.Desk self.home run node.old waiting.old.items node.new) }
        ensures in_range { AreInRange self.home.desks self.home.desk waiting.new.items }
        ensures home { D.home_of node.new ≡ D.home_of node.old }
    {
        let DecidedRun {
            from,
            to,
            mut pos,
            entries,
        } = run;
        let mut entries = VecDeque::from(entries.into_vec());
        while let Some(entry) = entries.pop_front() {
            let body = Body::Decided { pos, entry };
            pos += 1;
            waiting.clear();
            call(
                node,
                waiting,
                DeskEvent::Deliver(Message { from, to, body }),
            )?;
            if node.is_down() {
                return Ok(());
            }
        }
        Ok(())
    }

    /// Delivers the entries, and pushes the messages of the last one.
    fn learn_and_push<D: Desk, P: Peers>(
        self,
        node: &mut D,
        peers: &mut P,
        run: DecidedRun,
    ) -> Result<(), NoMemory>
        requires most { run.pos + length run.entries ≤ 65536 }
        requires home { D.home_of node.old ≡ self.home }
        ensures ok { OnOk result (LearnsAll D.Desk P.Peers self run
            (desks node.old peers.old) (desks node.new peers.new)) }
        ensures err { OnErr result (LearnsPart D.Desk P.Peers self run
            (desks node.old peers.old) (desks node.new peers.new)) }
        ensures home { D.home_of node.new ≡ D.home_of node.old }
    {
        let mut waiting = VecDeque::new(self.alloc);
        self.deliver_each(node, &mut waiting, run)?;
        self.push_all(&mut waiting, peers)
    }

    /// A desk says what was decided: each entry is delivered, and Start follows where the log grew.
    pub fn learn<D: Desk, P: Peers>(
        self,
        node: &mut D,
        peers: &mut P,
        run: DecidedRun,
    ) -> Result<(), NoMemory>
        requires most { run.pos + length run.entries ≤ 65536 }
        requires home { D.home_of node.old ≡ self.home }
        ensures ok { OnOk result (Serves D.Desk P.Peers self (Learned run)
            (desks node.old peers.old) (desks node.new peers.new) None) }
        ensures err { OnErr result (ServesPart D.Desk P.Peers self (Learned run)
            (desks node.old peers.old) (desks node.new peers.new)) }
        ensures home { D.home_of node.new ≡ D.home_of node.old }
    {
        let before = node.log().len();
        self.learn_and_push(node, peers, run)?;
        self.start_if_grown(node, peers, before)
    }

    /// Pushes a run as one frame.
    fn push_run<P: Peers>(self, run: DecidedRun, peers: &mut P) -> Result<(), NoMemory>
        requires in_range { IsRun self.home.desks run }
        ensures ok { let sent = run_pushed self.wire self.home.hall run in
            OnOk result (Hands (P.handed peers.old) (P.handed peers.new) (sent ∷ [])) }
        ensures err { OnErr result (peers.new ≡ peers.old) }
    {
        let Session { alloc, home, wire } = self;
        let DecidedRun {
            from,
            to,
            pos,
            entries,
        } = run;
        let entries = said(alloc, wire, entries)?;
        // Read here, so that the proof knows each entry's range.
        let _entries = entries.as_slice();
        let frame = Frame {
            version: wire,
            hall: home.hall,
            from,
            to,
            what: FrameBody::Decided { pos, entries },
        };
        let bytes = encode(alloc, &frame)?;
        peers.push(to, &bytes);
        Ok(())
    }

    /// Gives the node a message of a desk that lacks entries, and pushes the answer: as one frame
    /// where it is a run.
    fn call_and_answer<D: Desk, P: Peers>(
        self,
        node: &mut D,
        peers: &mut P,
        message: Message,
    ) -> Result<(), NoMemory>
        requires home { D.home_of node.old ≡ self.home }
        ensures ok { OnOk result (TellsAll D.Desk P.Peers self message
            (desks node.old peers.old) (desks node.new peers.new)) }
        ensures err { OnErr result (TellsPart D.Desk P.Peers self message
            (desks node.old peers.old) (desks node.new peers.new)) }
        ensures home { D.home_of node.new ≡ D.home_of node.old }
    {
        let mut waiting = VecDeque::new(self.alloc);
        call(node, &mut waiting, DeskEvent::Deliver(message))?;
        let messages = Vec::from(waiting);
        if let Some(run) = run_of(self.alloc, self.home, &messages)? {
            return self.push_run(run, peers);
        }
        let mut waiting = VecDeque::from(messages);
        self.push_all(&mut waiting, peers)
    }

    /// A desk says how long its log is: it is sent what it lacks, and Start follows where this
    /// desk's own log grew.
    pub fn tell<D: Desk, P: Peers>(
        self,
        node: &mut D,
        peers: &mut P,
        message: Message,
    ) -> Result<(), NoMemory>
        requires home { D.home_of node.old ≡ self.home }
        ensures ok { OnOk result (Serves D.Desk P.Peers self (Lagging message)
            (desks node.old peers.old) (desks node.new peers.new) None) }
        ensures err { OnErr result (ServesPart D.Desk P.Peers self (Lagging message)
            (desks node.old peers.old) (desks node.new peers.new)) }
        ensures home { D.home_of node.new ≡ D.home_of node.old }
    {
        let before = node.log().len();
        self.call_and_answer(node, peers, message)?;
        self.start_if_grown(node, peers, before)
    }
}
