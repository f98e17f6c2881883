//! The question to a desk that tells who answers at its address, and what is known of that.

ghost use Rattle.std.specs.Prelude.{◌≡◌, ◌+◌, ◌≤◌, ℕ, ◌==◌, ◌||◌, ◌++◌, List, [], false, length};
ghost use Rattle.std.specs.Prelude.{not, take};
ghost use Rattle.wire.specs.{Ranges.IsFrame, Spelling.spelling, declared.frame.Frame.Frame};
ghost use Rattle.desk_sockets.specs.Answering.{forgotten, heard, is_foreign, is_told, unknown};

use std::alloc::Global;
use std::marker::Model;
use wire::{Frame, FrameBody, Version, encode};

/// How many bytes at the front of a frame say which desk of which hall sent it: its length has
/// four, its version one, the hall four, and the sender one.
const FRONT: usize = 10;

/// Which desk of which hall is asked.
#[derive(Clone, Copy)]
pub(crate) struct AskedPeer {
    pub(crate) hall: u32,
    pub(crate) desk: u8,
}

/// The bytes of a question to a desk, as a client asks it. None: there is no such desk, or memory
/// runs out.
pub(crate) fn question(alloc: Global, hall: u32, desk: u8) -> Option<Vec<u8>> {
    if desk < 1 || desk > 5 {
        return None;
    }
    let frame = Frame {
        version: Version::One,
        hall,
        from: 0,
        to: desk,
        what: FrameBody::Ask { id: 1 },
    };
    encode(alloc, &frame).ok()
}

impl AskedPeer {
    /// Whether the front of a frame names another hall, or another desk as its sender.
    fn is_foreign(self, front: &[u8; FRONT]) -> bool
        ensures is { result ≡ is_foreign self front.now }
        ensures frames { (f : Frame) (rest : List ℕ) → IsFrame f
            → front.now ≡ take 10 (spelling f ++ rest)
            → result ≡ (not (f.hall == self.hall) || not (f.from == self.desk)) }
    {
        let hall = u32::from_be_bytes([front[5], front[6], front[7], front[8]]);
        hall != self.hall || front[9] != self.desk
    }
}

/// Puts bytes after the first ones of a front, of which this many have come, and says how many have
/// come by then.
fn put(front: &mut [u8; FRONT], held: usize, bytes: &[u8]) -> usize
    requires { held + length bytes.now ≤ 10 }
    ensures put { take result front.new ≡ take held front.old ++ bytes.now }
    ensures held { result ≡ held + length bytes.now }
    ensures size { length front.new ≡ length front.old }
{
    let end = held + bytes.len();
    front[held..end].copy_from_slice(bytes);
    end
}

/// Who answers at the address of a desk, as far as it is known.
///
/// A contract sees who is asked, the first bytes that were said on the connection, and what they
/// told.
#[derive(Drop)]
pub(crate) struct Answering {
    /// Who is asked, if somebody is.
    asked: Option<AskedPeer>,
    /// The first bytes that were said on the connection, of which this many have come.
    front: [u8; FRONT],
    held: usize,
    /// Whether the right desk has answered since it could not be reached.
    known: bool,
    /// Whether another hall or desk has answered, which isn't said yet.
    foreign: bool,
}

impl Model for Answering {
    ghost use Rattle.std.specs.Prelude.{◌≤◌, take};
    ghost use Rattle.desk_sockets.specs.Answering.{AnsweringOf, answering};

    ghost Value = { AnsweringOf };

    ghost view = { λ a. answering a.asked (take a.held a.front) a.known a.foreign };

    ghost invariant = { λ a. a.held ≤ 10 };
}

impl Answering {
    /// Nothing was said yet.
    pub(crate) fn new(asked: Option<AskedPeer>) -> Answering
        ensures { result ≡ unknown asked }
    {
        Answering {
            asked,
            front: [0; FRONT],
            held: 0,
            known: false,
            foreign: false,
        }
    }

    /// Who is asked, if somebody is.
    pub(crate) fn asked(&self) -> Option<AskedPeer>
        ensures { result ≡ self.now.asked }
    {
        self.asked
    }

    /// Whether the right desk has answered since it could not be reached.
    pub(crate) fn is_known(&self) -> bool
        ensures { result ≡ self.now.known }
    {
        self.known
    }

    /// Whether it is known who answers, or somebody has answered on this connection.
    pub(crate) fn is_told(&self) -> bool
        ensures { result ≡ is_told self.now }
    {
        self.known || self.held >= FRONT
    }

    /// A connection is begun, on which nothing was said.
    pub(crate) fn begin(&mut self)
        ensures { self.new ≡ record self.old { front = [] } }
    {
        self.held = 0;
    }

    /// It isn't known any more who answers.
    pub(crate) fn forget(&mut self)
        ensures { self.new ≡ forgotten self.old }
    {
        self.known = false;
    }

    /// Notes what was said on the connection. Its first ten bytes tell who answers.
    pub(crate) fn hear(&mut self, said: &[u8])
        ensures { self.new ≡ heard said.now self.old }
    {
        if self.held >= FRONT {
            return;
        }
        let count = (FRONT - self.held).min(said.len());
        self.held = put(&mut self.front, self.held, &said[..count]);
        if self.held < FRONT {
            return;
        }
        let Some(asked) = self.asked else {
            return;
        };
        if asked.is_foreign(&self.front) {
            self.known = false;
            self.foreign = true;
            return;
        }
        self.known = true;
    }

    /// Whether another hall or desk has answered, since this was asked last.
    pub(crate) fn take_foreign(&mut self) -> bool
        ensures foreign { result ≡ self.old.foreign }
        ensures taken { self.new ≡ record self.old { foreign = false } }
    {
        let foreign = self.foreign;
        self.foreign = false;
        foreign
    }
}
