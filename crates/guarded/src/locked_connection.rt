//! A connection behind its door.

ghost use Rattle.std.specs.Prelude.{◌≡◌, ◌≢◌, ◌≤◌, ◌↔◌, [], length, IfNone, IfOk, IfSome, IsTrue};
ghost use Rattle.std.specs.{Prelude.None, Prelude.Some, Bool.OnFalse, Bool.OnTrue};
ghost use Rattle.seal.specs.Records.{preface_of};
ghost use Rattle.sealed.specs.ServerSeals.{Sends, caller_of};
ghost use Rattle.wire.specs.Ranges.{IsDifference, IsFrame};
ghost use Rattle.serving.specs.{Differing.first_frame, Turns.after_sent as after_taken};
ghost use Rattle.guarded.specs.{Permitting.permission_of, LockedConnections.is_plain};
ghost use Rattle.guarded.specs.LockedConnections.{Advances, HearsDesk, IsDear, IsDone, IsFree};
ghost use Rattle.guarded.specs.LockedConnections.{IsOver, Receives, WantsRead, after_sent, begun};
ghost use Rattle.guarded.specs.LockedConnections.{fresh_locked_connection, greets, has_key, moment};

use crate::permitting::permission_of;
use answers::Desk;
use sealed::{Access, Caller, NoMemory, ServerSeal, StreamRefusal};
use serving::{Connection, ConnectionEnd, Peers, Permission};
use std::alloc::Global;
use std::marker::Model;
use wire::{Difference, Frame, Version};

/// Whether the desk sends its preface now: the client's is whole with this piece, and was not
/// before it; or the stream is refused.
fn greets(refusal: Option<StreamRefusal>, before: bool, now: bool) -> bool
    ensures { result ≡ greets refusal before now }
{
    match refusal {
        Some(StreamRefusal::Unsealed) => true,
        Some(StreamRefusal::NoMemory) => false,
        None => now && !before,
    }
}

/// A connection of a desk behind its door, served by turns: `receive` takes a piece of what came
/// over the stream, `advance` serves the next frame of what is let in, and `output` is what is to
/// be sent over the stream. It makes no system call.
///
/// Where the desk has keys, it sends its preface once that of the client is whole, or once it
/// refuses a stream that is not sealed, so that a client without a key knows that one is asked for.
/// What is sent to a holder of a key is records of the answers, and to anyone else the answers
/// themselves. Of a stream of which a record doesn't fit what stood before it is served, and then
/// the connection is done.
///
/// A contract sees what it has between two turns.
#[derive(Drop)]
pub struct LockedConnection {
    alloc: Global,
    called: ServerSeal,
    talk: Connection,
    /// What is to be sent, and how many bytes of it were taken.
    output: Vec<u8>,
    taken: usize,
    /// Whether memory was refused.
    starved: bool,
}

impl Model for LockedConnection {
    ghost use Rattle.std.specs.Prelude.{◌≡◌, ◌≤◌, [], drop, false, length};
    ghost use Rattle.guarded.specs.LockedConnections.{LockedConnectionOf};

    ghost Value = { LockedConnectionOf };

    ghost view = { λ g. record {
      called = g.called;
      talk = g.talk;
      output = drop g.taken g.output.items;
      starved = g.starved;
    } };

    ghost invariant = { λ g. (g.taken ≤ length g.output.items)
        × (g.starved ≡ false → g.talk.pending ≡ []) };
}

/// Whether this one is let in without a key.
fn is_plain(caller: Option<Caller>) -> bool
    ensures { result ≡ is_plain caller }
{
    match caller {
        Some(Caller::Anyone) => true,
        Some(Caller::Visitor) => true,
        Some(Caller::Holder { .. }) => false,
        None => false,
    }
}

/// Whether this one has a key of the desk.
fn has_key(caller: Option<Caller>) -> bool
    ensures { result ≡ has_key caller }
{
    match caller {
        Some(Caller::Holder { .. }) => true,
        Some(Caller::Anyone) => false,
        Some(Caller::Visitor) => false,
        None => false,
    }
}

/// Takes an answer whole, and gives records of it. None: memory was refused, or there is no number
/// for a record. Then the answer is still there.
fn seal_answer(called: &mut ServerSeal, talk: &mut Connection) -> Option<Vec<u8>>
    ensures sends { IfSome result
        (λ sent. Sends talk.old.pending called.old called.new sent.items) }
    ensures taken { IfSome result
        (λ sent. talk.new ≡ after_taken talk.old (length talk.old.pending)) }
    ensures kept { IfNone result (talk.new ≡ talk.old) }
{
    let answer = talk.output();
    let count = answer.len();
    match called.seal(answer) {
        Ok(sent) => {
            talk.sent(count);
            Some(sent)
        }
        Err(_) => None,
    }
}

/// Takes an answer whole, and gives what is sent of it: to a caller who is let in without a key the
/// answer itself, and else records of it. None: memory was refused, or there is no number for a
/// record. Then the answer is still there.
fn take_answer(called: &mut ServerSeal, talk: &mut Connection) -> Option<Vec<u8>>
    ensures sends { IfSome result
        (λ sent. Sends talk.old.pending called.old called.new sent.items) }
    ensures taken { IfSome result
        (λ sent. talk.new ≡ after_taken talk.old (length talk.old.pending)) }
    ensures kept { IfNone result (talk.new ≡ talk.old) }
{
    if is_plain(called.caller()) {
        return Some(talk.take_output());
    }
    seal_answer(called, talk)
}

impl LockedConnection {
    /// A connection with this desk that brought nothing yet, behind these doors. The random bytes
    /// are new in each connection. What is said to other desks is pushed in the version `wire`; all
    /// versions are read.
    pub fn new<D: Desk>(
        alloc: Global,
        node: &D,
        wire: Version,
        doors: Access,
        random: [u8; 16],
    ) -> Result<LockedConnection, NoMemory>
        ensures { IfOk result
            (λ g. g ≡ fresh_locked_connection doors random (D.home_of node.now) wire) }
    {
        let called = ServerSeal::new(alloc, doors, random)?;
        let talk = Connection::new(alloc, node, wire)?;
        Ok(LockedConnection {
            alloc,
            called,
            talk,
            output: Vec::new(alloc),
            taken: 0,
            starved: false,
        })
    }

    /// Whether a frame may be begun: the connection did not end, and nothing is still to be sent.
    fn is_free(&self) -> bool
        ensures { IsTrue result ↔ IsFree self.now }
    {
        !self.starved && self.talk.end().is_none() && self.output().is_empty()
    }

    /// Whether the next piece of the stream may come: the connection is open, all that came before
    /// is served, and all is sent.
    pub fn wants_read(&self) -> bool
        ensures { IsTrue result ↔ WantsRead self.now }
    {
        !self.starved
            && self.output().is_empty()
            && !self.called.is_over()
            && self.talk.wants_read()
    }

    /// The number of the record that has begun to come, where the connection waits for the rest of
    /// it: all that came before is served, and all is sent. The client's preface counts as the
    /// beginning of record 0.
    pub fn begun(&self) -> Option<u64>
        ensures { result ≡ begun self.now }
    {
        if self.talk.next().is_some() || self.wants_write() {
            return None;
        }
        self.called.begun()
    }

    /// Whether the caller has a key of the desk.
    pub fn has_key(&self) -> bool
        ensures { result ≡ has_key (caller_of self.now.called) }
    {
        has_key(self.called.caller())
    }

    /// Whether a frame may be begun, and the next one asks for a sheet or for entries of the log.
    pub fn is_dear(&self) -> bool
        ensures { IsTrue result ↔ IsDear self.now }
    {
        self.is_free() && self.talk.is_dear()
    }

    /// Whether a frame may be begun, and the next one is a message of a desk to a desk.
    pub fn hears_desk(&self) -> bool
        ensures { IsTrue result ↔ HearsDesk self.now }
    {
        self.is_free() && self.talk.hears_desk()
    }

    /// The frame that is begun next, if a frame may be begun and one waits.
    pub fn next(&self) -> Option<&Frame>
        ensures some { IfSome result (λ f.
            IsFree self.now × (first_frame self.now.talk.waiting ≡ Some f.now)) }
        ensures spelled { IfSome result (λ f. IsFrame f.now) }
        ensures none { IfNone result (IsFree self.now → first_frame self.now.talk.waiting ≡ None) }
    {
        if self.is_free() {
            self.talk.next()
        } else {
            None
        }
    }

    /// What the caller may ask of the desk.
    pub fn permission(&self) -> Permission
        ensures { result ≡ permission_of self.now.called.doors (caller_of self.now.called) }
    {
        permission_of(self.called.doors(), self.called.caller())
    }

    /// Has the desk's preface sent. False: memory was refused.
    fn greet(&mut self) -> bool
        ensures greets { OnTrue result
            (self.new ≡ record self.old { output = preface_of self.old.called.random }) }
        ensures kept { OnFalse result (self.new ≡ self.old) }
    {
        let preface = self.called.preface();
        match Vec::from_slice(self.alloc, &preface) {
            Ok(output) => {
                self.output = output;
                self.taken = 0;
                true
            }
            Err(_) => false,
        }
    }

    /// Takes the next piece of the stream. What is let in of it waits to be served.
    pub fn receive(&mut self, piece: &[u8])
        requires { WantsRead self.old }
        ensures { Receives piece.now self.old self.new }
    {
        let before = self.called.is_sealed();
        let Ok(more) = self.called.receive(piece) else {
            self.starved = true;
            return;
        };
        let now = self.called.is_sealed();
        if greets(self.called.refusal(), before, now) && !self.greet() {
            self.starved = true;
            return;
        }
        self.talk.receive(&more);
    }

    /// Serves the next frame, if one waits, the connection is open, and nothing is still to be
    /// sent, and returns whether it did. It is served as far as the caller may ask, and no command
    /// is accepted where another desk `differs`. Call it after each piece, and each time that all
    /// was sent, until it returns false.
    pub fn advance<D: Desk, P: Peers>(
        &mut self,
        node: &mut D,
        peers: &mut P,
        differs: Option<Difference>,
    ) -> bool
        requires home { D.home_of node.old ≡ self.old.talk.home }
        requires differs { IsDifference differs }
        ensures turn { Advances D.Desk P.Peers differs result
            (moment node.old peers.old self.old) (moment node.new peers.new self.new) }
        ensures home { D.home_of node.new ≡ D.home_of node.old }
    {
        if !self.is_free() {
            return false;
        }
        let may = self.permission();
        if !self.talk.advance(node, peers, may, differs) {
            return false;
        }
        match take_answer(&mut self.called, &mut self.talk) {
            Some(output) => {
                self.output = output;
                self.taken = 0;
            }
            None => self.starved = true,
        }
        true
    }

    /// What is still to be sent.
    pub fn output(&self) -> &[u8]
        ensures { result.now ≡ self.now.output }
    {
        &self.output[self.taken..]
    }

    /// Whether something is to be sent.
    pub fn wants_write(&self) -> bool
        ensures { IsTrue result ↔ (self.now.output ≢ []) }
    {
        !self.output().is_empty()
    }

    /// Says that this many bytes of the output were sent.
    pub fn sent(&mut self, count: usize)
        requires { count ≤ length self.old.output }
        ensures { self.new ≡ after_sent self.old count }
    {
        self.taken += count;
    }

    /// How serving ended, where it did: as [`Connection::end`] says.
    pub fn end(&self) -> Option<ConnectionEnd>
        ensures { result ≡ self.now.talk.end }
    {
        self.talk.end()
    }

    /// Whether nothing more comes of the connection: memory was refused, it ended, or nothing more
    /// is let in, and all that was let in is served.
    fn is_over(&self) -> bool
        ensures { IsTrue result ↔ IsOver self.now }
    {
        self.starved
            || self.talk.end().is_some()
            || (self.called.is_over() && self.talk.wants_read())
    }

    /// Whether nothing is to be done any more: it is over, and all was sent.
    pub fn is_done(&self) -> bool
        ensures { IsTrue result ↔ IsDone self.now }
    {
        self.is_over() && self.output().is_empty()
    }
}
