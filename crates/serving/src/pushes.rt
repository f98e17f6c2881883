//! Messages as frames, pushed to their receivers.

ghost use Rattle.std.specs.Prelude.{◌≡◌, ◌≤◌, [], ◌∷◌, IfOk, OnOk, OnErr};
ghost use Rattle.learner.specs.Ranges.{IsInRange, AreInRange};
ghost use Rattle.wire.specs.Ranges.{IsEntry, IsFrame};
ghost use Rattle.serving.specs.{model.Framing.IsTyped, model.Framing.ReportIsTyped, Serving.framed};
ghost use Rattle.serving.specs.{model.Sessions.Pushes, model.Sessions.PushesSome, Serving.what_of};

use crate::peers::Peers;
use crate::session::Session;
use acceptor::NoMemory;
use acceptor::ballot::Ballot;
use acceptor::entry::Entry;
use acceptor::message::{Body, Message, Report};
use std::alloc::Global;
use std::collections::VecDeque;
use wire::{Entries, Frame, FrameBody, Version, encode};

/// The entry, whose id and text are in their ranges.
fn kept(entry: Entry) -> Entry
    ensures same { result ≡ entry }
    ensures in_range { IsEntry result }
{
    entry
}

/// The report, whose fields are in their ranges.
fn kept_report(vote: Option<Report>) -> Option<Report>
    ensures same { result ≡ vote }
    ensures in_range { ReportIsTyped result }
{
    match vote {
        None => None,
        Some(report) => Some(Report {
            ballot: report.ballot,
            entry: kept(report.entry),
        }),
    }
}

/// A message's body as a frame's.
fn what_of(alloc: Global, body: Body) -> Result<FrameBody, NoMemory>
    ensures what { IfOk result (λ what. what ≡ what_of body) }
    ensures typed { IsTyped body }
{
    Ok(match body {
        Body::Prepare { ballot, pos } => FrameBody::Prepare { ballot, pos },
        Body::Promise { ballot, pos, vote } => FrameBody::Promise {
            ballot,
            pos,
            vote: kept_report(vote),
        },
        Body::Accept { ballot, pos, entry } => FrameBody::Accept {
            ballot,
            pos,
            entry: kept(entry),
        },
        Body::Accepted { ballot, pos } => FrameBody::Accepted { ballot, pos },
        Body::Nack {
            ballot,
            pos,
            promised,
        } => FrameBody::Nack {
            ballot,
            pos,
            promised,
        },
        Body::Behind { len } => FrameBody::Behind { len },
        Body::Decided { pos, entry } => FrameBody::Decided {
            pos,
            entries: Entries::one(alloc, kept(entry))?,
        },
    })
}

/// A message from desk to desk of a hall of `desks` as a frame of this version.
fn framed(
    alloc: Global,
    version: Version,
    hall: u32,
    desks: u8,
    message: Message,
) -> Result<Frame, NoMemory>
    requires few { desks ≤ 5 }
    requires in_range { IsInRange desks message }
    ensures frame { IfOk result (λ frame. frame ≡ framed version hall message) }
    ensures spelled { IfOk result IsFrame }
{
    let Message { from, to, body } = message;
    let what = what_of(alloc, body)?;
    Ok(Frame {
        version,
        hall,
        from,
        to,
        what,
    })
}

impl Session {
    /// Pushes a message to its receiver.
    fn push_message<P: Peers>(self, message: Message, peers: &mut P) -> Result<(), NoMemory>
        requires in_range { IsInRange self.home.desks message }
        ensures ok { OnOk result (Pushes P.Peers self (message ∷ []) peers.old peers.new) }
        ensures err { OnErr result (peers.new ≡ peers.old) }
    {
        let Session { alloc, home, wire } = self;
        let to = message.to;
        let frame = framed(alloc, wire, home.hall, home.desks, message)?;
        let bytes = encode(alloc, &frame)?;
        peers.push(to, &bytes);
        Ok(())
    }

    /// Pushes the messages that wait, in order.
    pub fn push_all<P: Peers>(
        self,
        waiting: &mut VecDeque<Message>,
        peers: &mut P,
    ) -> Result<(), NoMemory>
        requires in_range { AreInRange self.home.desks self.home.desk waiting.old.items }
        ensures pushed { OnOk result (Pushes P.Peers self waiting.old.items peers.old peers.new) }
        ensures empty { OnOk result (waiting.new.items ≡ []) }
        ensures err { OnErr result
            (PushesSome P.Peers self waiting.old.items peers.old peers.new) }
    {
        while let Some(message) = waiting.pop_front() {
            self.push_message(message, peers)?;
        }
        Ok(())
    }
}
