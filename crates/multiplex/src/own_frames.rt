//! What a desk says to itself: its frames wait beside the links, and are heard before it settles.

ghost use Rattle.std.specs.Prelude.{◌≡◌, ◌==◌, ℕ, List, [], ◌∷◌, IsTrue};
ghost use Rattle.std.specs.Bool.{OnFalse, OnTrue};
ghost use Rattle.polled.specs.Telling.{Tells};
ghost use Rattle.serving.specs.Adding.{Hands};
ghost use Rattle.multiplex.specs.model.{Ticks.desks, Visiting.HearsNext, Visiting.HearsWhere};
ghost use Rattle.multiplex.specs.model.Visiting.{HearsThenSettles, SettlesDesks};
ghost use Rattle.multiplex.specs.Musts.{WaitsAfter};

use crate::links::PeerLinks;
use answers::Desk;
use serving::{Connection, Peers, Permission};
use std::alloc::Global;
use std::mem;
use wire::{Difference, Version};

/// Such links, beside which the frames wait that the desk has pushed to itself.
pub trait OwnLinks: PeerLinks {
    /// The frames that wait, one after the other, as bytes.
    ghost waiting: { Self → List ℕ };

    /// The frames that wait, one after the other. They wait no more.
    fn own(&mut self) -> Vec<u8>
        ensures frames { result.items ≡ waiting self.old }
        ensures none { waiting self.new ≡ [] }
        ensures handed { Self.handed self.new ≡ Self.handed self.old };
}

/// The links of a desk to the others, and the frames that it has pushed to itself.
#[derive(Drop)]
pub struct OwnFrames<L> {
    alloc: Global,
    desk: u8,
    pub links: L,
    waiting: Vec<u8>,
}

impl<L> OwnFrames<L> {
    /// Beside these links of the desk with this number nothing waits yet.
    pub fn new(alloc: Global, desk: u8, links: L) -> OwnFrames<L>
        ensures desk { result.desk ≡ desk }
        ensures links { result.links ≡ links }
        ensures none { result.waiting.items ≡ [] }
    {
        OwnFrames {
            alloc,
            desk,
            links,
            waiting: Vec::new(alloc),
        }
    }
}

/// Adds a frame to those that wait. Where memory is refused for it, it is dropped.
fn hold(waiting: &mut Vec<u8>, frame: &[u8])
    ensures { WaitsAfter frame.now waiting.old waiting.new }
{
    let _ = waiting.extend_from_slice(frame);
}

impl<L: PeerLinks> Peers for OwnFrames<L> {
    ghost use Rattle.std.specs.Prelude.{None};

    // What another desk was handed over to its link is said by the links.
    ghost handed = { λ _. None };

    /// Gives a frame to the links. One to the desk itself waits; where memory is refused for it, it
    /// is dropped.
    fn push(&mut self, to: u8, frame: &[u8])
        ensures own { OnTrue (to == self.old.desk) (self.new.links ≡ self.old.links) }
        ensures waits { OnTrue (to == self.old.desk)
            (WaitsAfter frame.now self.old.waiting self.new.waiting) }
        ensures others { OnFalse (to == self.old.desk) (self.new.waiting ≡ self.old.waiting) }
        ensures pushed { OnFalse (to == self.old.desk) (Hands (L.handed self.old.links)
            (L.handed self.new.links) (record { to = to; bytes = frame.now } ∷ [])) }
    {
        if to == self.desk {
            hold(&mut self.waiting, frame);
        } else {
            self.links.push(to, frame);
        }
    }
}

impl<L: PeerLinks> PeerLinks for OwnFrames<L> {
    ghost use Rattle.multiplex.specs.Musts.{due_beside};

    ghost kept = { λ own. L.kept own.links };

    // At once where a frame waits.
    ghost due = { λ own now left. due_beside L.due own.waiting.items own.links now left };

    fn keep(&mut self, now: u64)
        ensures waiting { self.new.waiting ≡ self.old.waiting }
        ensures kept { Tells (L.kept self.old.links) (L.kept self.new.links) (now ∷ []) }
    {
        self.links.keep(now);
    }

    fn differs(&mut self, difference: Difference)
        ensures waiting { self.new.waiting ≡ self.old.waiting }
        ensures kept { L.kept self.new.links ≡ L.kept self.old.links }
    {
        self.links.differs(difference);
    }

    fn wait(&self, now: u64) -> Option<u64> {
        if self.waiting.is_empty() {
            self.links.wait(now)
        } else {
            Some(0)
        }
    }
}

impl<L: PeerLinks> OwnLinks for OwnFrames<L> {
    ghost waiting = { λ own. own.waiting.items };

    fn own(&mut self) -> Vec<u8>
        ensures links { self.new.links ≡ self.old.links }
        ensures frames { result.items ≡ self.old.waiting.items }
        ensures none { self.new.waiting.items ≡ [] }
    {
        mem::replace(&mut self.waiting, Vec::new(self.alloc))
    }
}

/// Serves the messages of desks that a connection brought, one after the other, until another frame
/// is next, or none.
fn hear<D: Desk, P: Peers>(talk: &mut Connection, node: &mut D, peers: &mut P)
    requires home { D.home_of node.old ≡ talk.old.home }
    ensures hears { HearsNext D.Desk P.Peers talk.old talk.new
        (desks node.old peers.old) (desks node.new peers.new) }
    ensures home { D.home_of node.new ≡ D.home_of node.old }
{
    while talk.hears_desk() {
        if !talk.advance(node, peers, Permission::All, None) {
            return;
        }
    }
}

/// Hears what the desk has said to itself, where it is to be heard now: the messages are served as
/// a connection would bring them. Where memory is refused for it, they are dropped, and so are more
/// than a connection serves: messages may be lost.
fn hear_own<D: Desk, L: OwnLinks>(
    alloc: Global,
    wire: Version,
    hears: bool,
    node: &mut D,
    links: &mut L,
)
    ensures hears { HearsWhere D.Desk L.Peers L.waiting hears wire (D.home_of node.old)
        (desks node.old links.old) (desks node.new links.new) }
    ensures home { D.home_of node.new ≡ D.home_of node.old }
{
    if !hears {
        return;
    }
    let frames = links.own();
    if frames.is_empty() {
        return;
    }
    let Ok(mut talk) = Connection::new(alloc, node, wire) else {
        return;
    };
    talk.receive(&frames);
    hear(&mut talk, node, links);
}

/// Hears what the desk has said to itself, where it is to be heard now, and settles all that was
/// changed. False: the desk is down.
pub(crate) fn settle<D: Desk, L: OwnLinks>(
    alloc: Global,
    wire: Version,
    hears: bool,
    node: &mut D,
    links: &mut L,
) -> bool
    ensures settles { SettlesDesks D.Desk L.Peers wire (D.home_of node.old) result
        (desks node.old links.old) (desks node.new links.new) }
    ensures heard { HearsThenSettles D.Desk L.Peers L.waiting hears wire (D.home_of node.old) result
        (desks node.old links.old) node.new }
    ensures settled { IsTrue result → D.is_settled node.new }
    ensures home { D.home_of node.new ≡ D.home_of node.old }
{
    hear_own(alloc, wire, hears, node, links);
    node.settle()
}
