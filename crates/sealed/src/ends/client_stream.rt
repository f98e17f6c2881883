//! A caller's end of a connection.

ghost use Rattle.std.specs.Prelude.{◌≡◌, ◌≤◌, drop, length, IfErr, IfOk};
ghost use Rattle.sealed.specs.ends.ClientStreams.{Fails, FailsToGive, Gives, Receives, Seals};
ghost use Rattle.sealed.specs.ends.ClientStreams.{calling_of, end_trouble, first_output};
ghost use Rattle.sealed.specs.ends.ClientStreams.{fresh_client_stream};
ghost use Rattle.sealed.specs.ends.ClientStreams.{is_open, own_key, sealed_trouble, trouble_of};

use crate::ends::plain::{FRONT, hold, is_mark, passed};
use crate::ends::trouble::CallTrouble;
use crate::{ClientSeal, NoMemory, SealFault, SealTrouble};
use std::alloc::Global;
use std::marker::Model;

/// The most bytes that are taken at once, those of a record's body.
const MOST: usize = 16_384;

/// A caller's end of a connection with a desk: what goes to it, and what comes from it, in whatever
/// pieces. `output` is what is to be sent over the connection.
///
/// With a key the caller's preface is to be sent first, and what is given is taken once the desk's
/// came. Each time it is sealed into one record. What is handed on is in records that fit. Without
/// a key all is sent and handed on as it is, but for what a desk sends that asks for a key: of that
/// nothing is handed on.
///
/// A contract sees the side of the key, where there is one, the first bytes that came, whether
/// something was handed on, and what is to be sent.
#[derive(Drop)]
pub struct ClientStream {
    alloc: Global,
    calling: Option<ClientSeal>,
    /// The first bytes that came, at most four.
    front: Vec<u8>,
    heard: bool,
    /// What is to be sent, and how many bytes of it were sent.
    output: Vec<u8>,
    taken: usize,
}

impl Model for ClientStream {
    ghost use Rattle.std.specs.Prelude.{◌≤◌, drop, length, vec_capacity};
    ghost use Rattle.sealed.specs.ends.ClientStreams.{ClientStreamOf};

    ghost Value = { ClientStreamOf };

    ghost view = { λ c. record {
      calling = c.calling;
      front = c.front.items;
      heard = c.heard;
      output = drop c.taken c.output.items;
    } };

    ghost invariant = { λ c. (c.taken ≤ length c.output.items)
        × (4 ≤ vec_capacity c.front) × (length c.front.items ≤ 4) };
}

/// The side of a key, where there is one.
fn calling_of(
    alloc: Global,
    key: Option<[u8; 32]>,
    random: [u8; 16],
) -> Result<Option<ClientSeal>, NoMemory>
    ensures { IfOk result (λ calling. calling ≡ calling_of key random) }
{
    match key {
        Some(key) => Ok(Some(ClientSeal::new(alloc, key, random)?)),
        None => Ok(None),
    }
}

/// What is sent first: the preface, where there is a key.
fn first_output(alloc: Global, calling: &Option<ClientSeal>) -> Result<Vec<u8>, NoMemory>
    ensures { IfOk result (λ bytes. bytes.items ≡ first_output calling.now) }
{
    match calling {
        Some(calling) => Vec::from_slice(alloc, &calling.preface()),
        None => Ok(Vec::new(alloc)),
    }
}

/// What is wrong, in a caller's words.
fn sealed_trouble(trouble: Option<SealTrouble>) -> Option<CallTrouble>
    ensures { result ≡ sealed_trouble trouble }
{
    match trouble {
        Some(SealTrouble::NoKey) => Some(CallTrouble::NoKey),
        Some(SealTrouble::OtherKey) => Some(CallTrouble::OtherKey),
        None => None,
    }
}

impl ClientStream {
    /// A connection that brought nothing yet, of a caller who has this key or none. The random
    /// bytes are new in each connection. With a key the caller's preface is to be sent.
    pub fn new(
        alloc: Global,
        key: Option<[u8; 32]>,
        random: [u8; 16],
    ) -> Result<ClientStream, NoMemory>
        ensures { IfOk result (λ c. c ≡ fresh_client_stream key random) }
    {
        let calling = calling_of(alloc, key, random)?;
        let output = first_output(alloc, &calling)?;
        Ok(ClientStream {
            alloc,
            calling,
            front: Vec::with_capacity(alloc, FRONT)?,
            heard: false,
            output,
            taken: 0,
        })
    }

    /// Whether something can be given: always without a key, and with one once the desk's preface
    /// came.
    pub fn is_open(&self) -> bool
        ensures { result ≡ is_open self.now }
    {
        match &self.calling {
            Some(calling) => calling.is_open(),
            None => true,
        }
    }

    /// What is sent of bytes that are taken.
    fn seal(&mut self, bytes: &[u8]) -> Result<Vec<u8>, SealFault>
        ensures seals { IfOk result (λ sent. Seals bytes.now self.old self.new sent.items) }
        ensures fails { IfErr result (λ e. Fails e bytes.now self.old) }
        ensures key { own_key self.new ≡ own_key self.old }
    {
        match &mut self.calling {
            Some(calling) => {
                let sent = calling.seal(bytes)?;
                Ok(sent)
            }
            None => {
                let sent = Vec::from_slice(self.alloc, bytes)?;
                Ok(sent)
            }
        }
    }

    /// Takes the front of the bytes to be sent, at most 16,384, and says how many it took: none as
    /// long as the connection is not open, or something is still to be sent.
    ///
    /// After an error the connection is to be ended: what was given is not sent. The error is
    /// `NoMemory` where memory was refused, and with a key that of [`crate::ClientSeal::seal`].
    pub fn give(&mut self, bytes: &[u8]) -> Result<usize, SealFault>
        ensures gives { IfOk result (λ count. Gives bytes.now count self.old self.new) }
        ensures fails { IfErr result (λ e. FailsToGive e bytes.now self.old) }
        ensures key { own_key self.new ≡ own_key self.old }
    {
        if !self.is_open() || !self.output().is_empty() {
            return Ok(0);
        }
        let count = bytes.len().min(MOST);
        let sent = self.seal(&bytes[..count])?;
        self.output = sent;
        self.taken = 0;
        Ok(count)
    }

    /// What is still to be sent.
    pub fn output(&self) -> &[u8]
        ensures { result.now ≡ self.now.output }
    {
        &self.output[self.taken..]
    }

    /// Says that this many bytes of the output were sent.
    pub fn sent(&mut self, count: usize)
        requires { count ≤ length self.old.output }
        ensures { self.new ≡ record self.old { output = drop count self.old.output } }
    {
        self.taken += count;
    }

    /// Takes the next piece of what comes, and hands on what the desk said with it. After an error,
    /// that memory was refused, the connection is to be ended.
    pub fn receive(&mut self, piece: &[u8]) -> Result<Vec<u8>, NoMemory>
        ensures receives { IfOk result (λ more. Receives piece.now self.old self.new more.items) }
        ensures key { own_key self.new ≡ own_key self.old }
    {
        let before = self.front.len();
        hold(&mut self.front, piece);
        let more = match &mut self.calling {
            Some(calling) => calling.receive(piece)?,
            None => passed(self.alloc, &self.front, before, piece)?,
        };
        if !more.is_empty() {
            self.heard = true;
        }
        Ok(more)
    }

    /// What is wrong, by what came so far. Nothing more is handed on then.
    pub fn trouble(&self) -> Option<CallTrouble>
        ensures { result ≡ trouble_of self.now }
    {
        match &self.calling {
            Some(calling) => sealed_trouble(calling.trouble()),
            None => {
                if is_mark(&self.front) {
                    Some(CallTrouble::HasKey)
                } else {
                    None
                }
            }
        }
    }

    /// What is wrong, where the connection ends now: as `trouble` says; or, with a key, no byte
    /// came, so that the desk has none; or the desk's preface came and nothing was handed on, so
    /// that it has another.
    pub fn trouble_at_end(&self) -> Option<CallTrouble>
        ensures { result ≡ end_trouble self.now }
    {
        if let Some(trouble) = self.trouble() {
            return Some(trouble);
        }
        let Some(calling) = &self.calling else {
            return None;
        };
        if self.front.is_empty() {
            return Some(CallTrouble::NoKey);
        }
        if calling.is_open() && !self.heard {
            Some(CallTrouble::OtherKey)
        } else {
            None
        }
    }
}
