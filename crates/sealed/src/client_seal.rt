//! The side of the caller of a desk, with a key.

ghost use Rattle.std.specs.Prelude.{◌≡◌, ◌↔◌, false, IfErr, IfOk, IsSome, IsTrue, None};
ghost use Rattle.seal.specs.Records.{preface_of};
ghost use Rattle.sealed.specs.ClientSeals.{FailsTo, IsSameCaller, Receives, SendsTo, trouble_of};
ghost use Rattle.sealed.specs.{ClientSeals.fresh_client_seal, model.Opening.OpensTo};

use crate::front::{PREFACE, StreamFront, front_of, hold};
use crate::tunnel::Tunnel;
use seal::{Direction, NoMemory, SealFault, connection_key, preface};
use std::alloc::Global;
use std::marker::Model;

/// What is wrong with what a desk sends.
#[derive(Clone, Copy, Debug, PartialEq, Eq)]
pub enum SealTrouble {
    /// It is not sealed: the desk asks for no key.
    NoKey,
    /// A record does not fit: the desk has another key, or somebody changed what it sent.
    OtherKey,
}

/// The side of the caller of a desk, with a key: what the desk sends, in whatever pieces, and what
/// of it is handed on.
///
/// A contract sees the key, the random bytes, and how far the stream is known.
#[derive(Drop)]
pub struct ClientSeal {
    alloc: Global,
    key: [u8; 32],
    random: [u8; 16],
    /// The bytes in front, until it is known what the stream is.
    front: Vec<u8>,
    tunnel: Option<Tunnel>,
    unsealed: bool,
}

impl Model for ClientSeal {
    ghost use Rattle.std.specs.Prelude.{◌≤◌, vec_capacity, length};
    ghost use Rattle.sealed.specs.ClientSeals.{ClientSealOf};

    ghost Value = { ClientSealOf };

    ghost view = { λ c. record {
      key = c.key;
      random = c.random;
      held = c.front.items;
      tunnel = c.tunnel;
      unsealed = c.unsealed;
    } };

    ghost invariant = { λ c. (20 ≤ vec_capacity c.front) × (length c.front.items ≤ 20) };
}

impl ClientSeal {
    /// The side of a holder of this key, at the beginning of a connection. The random bytes are new
    /// in each connection.
    pub fn new(alloc: Global, key: [u8; 32], random: [u8; 16]) -> Result<ClientSeal, NoMemory>
        ensures { IfOk result (λ c. c ≡ fresh_client_seal key random) }
    {
        Ok(ClientSeal {
            alloc,
            key,
            random,
            front: Vec::with_capacity(alloc, PREFACE)?,
            tunnel: None,
            unsealed: false,
        })
    }

    /// What is sent in front of all else, before anything came.
    pub fn preface(&self) -> [u8; 20]
        ensures { result ≡ preface_of self.now.random }
    {
        preface(&self.random)
    }

    /// Whether the desk's preface came, so that something can be sent.
    pub fn is_open(&self) -> bool
        ensures { IsTrue result ↔ IsSome self.now.tunnel }
    {
        self.tunnel.is_some()
    }

    /// What is wrong with what came. Nothing more is handed on then.
    pub fn trouble(&self) -> Option<SealTrouble>
        ensures { result ≡ trouble_of self.now }
    {
        match &self.tunnel {
            Some(tunnel) => match tunnel.fault() {
                Some(_) => Some(SealTrouble::OtherKey),
                None => None,
            },
            None => {
                if self.unsealed {
                    Some(SealTrouble::NoKey)
                } else {
                    None
                }
            }
        }
    }

    /// Opens the connection, after a preface with these random bytes.
    fn open(&mut self, server: &[u8; 16], rest: &[u8]) -> Result<Vec<u8>, NoMemory>
        ensures opens { IfOk result
            (λ more. OpensTo server.now rest.now self.old self.new more.items) }
        ensures same { IsSameCaller self.old self.new }
    {
        let key = connection_key(&self.key, &self.random, server);
        let mut tunnel = Tunnel::new(self.alloc, key, Direction::ToClient)?;
        let handed = tunnel.feed(rest)?;
        self.tunnel = Some(tunnel);
        Ok(handed)
    }

    /// Takes the next piece while it isn't known what the stream is.
    fn begin(&mut self, piece: &[u8]) -> Result<Vec<u8>, NoMemory>
        requires unknown { self.old.unsealed ≡ false }
        requires closed { self.old.tunnel ≡ None }
        ensures receives { IfOk result (λ more. Receives piece.now self.old self.new more.items) }
        ensures same { IsSameCaller self.old self.new }
    {
        let added = hold(&mut self.front, piece);
        let rest = &piece[added..];
        match front_of(&self.front) {
            StreamFront::Short => Ok(Vec::new(self.alloc)),
            StreamFront::Unsealed => {
                self.unsealed = true;
                Ok(Vec::new(self.alloc))
            }
            StreamFront::Sealed { random } => {
                let handed = self.open(&random, rest)?;
                Ok(handed)
            }
        }
    }

    /// Takes the next piece of what comes, and hands on the bytes of the records that are whole now
    /// and fit. Where memory is refused, the connection is to be ended.
    pub fn receive(&mut self, piece: &[u8]) -> Result<Vec<u8>, NoMemory>
        ensures receives { IfOk result (λ more. Receives piece.now self.old self.new more.items) }
        ensures same { IsSameCaller self.old self.new }
    {
        if let Some(tunnel) = &mut self.tunnel {
            let handed = tunnel.feed(piece)?;
            return Ok(handed);
        }
        if self.unsealed {
            return Ok(Vec::new(self.alloc));
        }
        self.begin(piece)
    }

    /// What is sent of bytes. Before the desk's preface came nothing is sent.
    ///
    /// `NoMemory` where memory was refused, and `NoNumber` where more records are needed than there
    /// are numbers left of 2^64 - 1. Then nothing more can be sent, since a number is left out.
    pub fn seal(&mut self, bytes: &[u8]) -> Result<Vec<u8>, SealFault>
        ensures sends { IfOk result (λ sent. SendsTo bytes.now self.old self.new sent.items) }
        ensures fails { IfErr result (λ e. FailsTo e bytes.now self.old) }
        ensures same { IsSameCaller self.old self.new }
    {
        let Some(tunnel) = &mut self.tunnel else {
            return Ok(Vec::new(self.alloc));
        };
        let sent = tunnel.seal(self.alloc, bytes)?;
        Ok(sent)
    }
}
