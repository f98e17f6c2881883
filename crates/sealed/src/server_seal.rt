//! A desk's side of a connection.

ghost use Rattle.std.specs.Prelude.{◌≡◌, ◌≢◌, [], None, Some, IfErr, IfOk, OnErr, OnOk};
ghost use Rattle.seal.specs.Records.{preface_of};
ghost use Rattle.sealed.specs.ServerSeals.{Fails, IsSameDesk, KeepsCaller, Receives, Sends};
ghost use Rattle.sealed.specs.ServerSeals.{caller_of, begun, first_passing, fresh_server_seal};
ghost use Rattle.sealed.specs.{ServerSeals.is_over, ServerSeals.is_sealed, Sent.KeepsSent};
ghost use Rattle.sealed.specs.model.Steps.{OpensAfter, Passes};
ghost use Rattle.sealed.specs.declared.callers.StreamRefusal.TheVariants.{NoMemory as Starved};

use crate::callers::{Access, Caller, StreamRefusal};
use crate::front::{PREFACE, StreamFront, front_of, hold};
use crate::trial::Trial;
use seal::{NoMemory, SealFault, preface};
use std::alloc::Global;
use std::marker::Model;

/// A desk's side of a connection: what came, in whatever pieces, and what of it is handed on to be
/// served.
///
/// A contract sees what the desk asks for, its random bytes, and how far the stream is known.
#[derive(Drop)]
pub struct ServerSeal {
    alloc: Global,
    doors: Access,
    random: [u8; 16],
    /// The bytes in front, until it is known what the stream is.
    front: Vec<u8>,
    passing: Option<Caller>,
    trial: Option<Trial>,
    refusal: Option<StreamRefusal>,
}

impl Model for ServerSeal {
    ghost use Rattle.std.specs.Prelude.{◌≤◌, vec_capacity, length};
    ghost use Rattle.sealed.specs.ServerSeals.{ServerSealOf};

    ghost Value = { ServerSealOf };

    ghost view = { λ c. record {
      doors = c.doors;
      random = c.random;
      held = c.front.items;
      passing = c.passing;
      trial = c.trial;
      refusal = c.refusal;
    } };

    ghost invariant = { λ c. (20 ≤ vec_capacity c.front) × (length c.front.items ≤ 20) };
}

/// Who calls before the first byte came.
fn first_passing(doors: Access) -> Option<Caller>
    ensures { result ≡ first_passing doors }
{
    match doors {
        Access::Open => Some(Caller::Anyone),
        Access::Locked { .. } => None,
    }
}

impl ServerSeal {
    /// The side of a desk that asks for this, at the beginning of a connection. The random bytes
    /// are new in each connection.
    pub fn new(alloc: Global, doors: Access, random: [u8; 16]) -> Result<ServerSeal, NoMemory>
        ensures { IfOk result (λ c. c ≡ fresh_server_seal doors random) }
    {
        Ok(ServerSeal {
            alloc,
            doors,
            random,
            front: Vec::with_capacity(alloc, PREFACE)?,
            passing: first_passing(doors),
            trial: None,
            refusal: None,
        })
    }

    /// What the desk asks of the stream.
    pub fn doors(&self) -> Access
        ensures { result ≡ self.now.doors }
    {
        self.doors
    }

    /// Who calls, once it is known.
    pub fn caller(&self) -> Option<Caller>
        ensures { result ≡ caller_of self.now }
    {
        match &self.trial {
            Some(trial) => match trial.holder() {
                Some(key) => Some(Caller::Holder { key }),
                None => None,
            },
            None => self.passing,
        }
    }

    /// Why nothing more is read, if so.
    pub fn refusal(&self) -> Option<StreamRefusal>
        ensures { result ≡ self.now.refusal }
    {
        self.refusal
    }

    /// Whether nothing more is handed on: the stream was refused, or a record of it does not fit
    /// under the desk's keys.
    pub fn is_over(&self) -> bool
        ensures { result ≡ is_over self.now }
    {
        let misfits = match &self.trial {
            Some(trial) => trial.is_over(),
            None => false,
        };
        self.refusal.is_some() || misfits
    }

    /// The number of the record of a sealed stream that has begun to come and is not whole, if one
    /// has. The client's preface counts as the beginning of the first one, 0.
    pub fn begun(&self) -> Option<u64>
        ensures { result ≡ begun self.now }
    {
        if let Some(trial) = &self.trial {
            return trial.begun();
        }
        if self.passing.is_some() || self.front.is_empty() {
            None
        } else {
            Some(0)
        }
    }

    /// Whether the client's preface came whole, so that its stream is tried with the desk's keys.
    pub fn is_sealed(&self) -> bool
        ensures { result ≡ is_sealed self.now }
    {
        self.trial.is_some()
    }

    /// What the desk sends in front of all else to a client who sent a preface, and where it
    /// refuses a stream, so that a client without a key knows that one is asked for.
    pub fn preface(&self) -> [u8; 20]
        ensures { result ≡ preface_of self.now.random }
    {
        preface(&self.random)
    }

    /// Lets a stream pass that is not sealed, where such are let pass.
    fn pass(&mut self, rest: &[u8]) -> Result<Vec<u8>, NoMemory>
        ensures passes { IfOk result (λ more. Passes rest.now self.old self.new more.items) }
        ensures sends { OnOk result (KeepsSent self.old self.new) }
        ensures same { IsSameDesk self.old self.new }
    {
        let shows = match self.doors {
            Access::Open => true,
            Access::Locked { locks } => locks.sheets,
        };
        if !shows {
            self.refusal = Some(StreamRefusal::Unsealed);
            return Ok(Vec::new(self.alloc));
        }
        let mut handed = Vec::with_capacity(self.alloc, self.front.len() + rest.len())?;
        handed.extend_from_slice(&self.front)?;
        handed.extend_from_slice(rest)?;
        self.passing = Some(Caller::Visitor);
        Ok(handed)
    }

    /// Begins to try the keys, after a preface with these random bytes.
    fn open(&mut self, client: &[u8; 16], rest: &[u8]) -> Result<Vec<u8>, NoMemory>
        requires unknown { self.old.passing ≡ None }
        requires untried { self.old.trial ≡ None }
        ensures opens { IfOk result
            (λ more. OpensAfter client.now rest.now self.old self.new more.items) }
        ensures sends { OnOk result (KeepsSent self.old self.new) }
        ensures same { IsSameDesk self.old self.new }
    {
        let Access::Locked { locks } = &self.doors else {
            return Ok(Vec::new(self.alloc));
        };
        let mut trial = Trial::new(self.alloc, locks, client, &self.random)?;
        let handed = trial.feed(rest)?;
        self.trial = Some(trial);
        Ok(handed)
    }

    /// Takes the next piece while it isn't known what the stream is.
    fn begin(&mut self, piece: &[u8]) -> Result<Vec<u8>, NoMemory>
        requires unknown { self.old.passing ≡ None }
        requires untried { self.old.trial ≡ None }
        requires open { self.old.refusal ≡ None }
        ensures receives { IfOk result (λ more. Receives piece.now self.old self.new more.items) }
        ensures sends { OnOk result (KeepsSent self.old self.new) }
        ensures stays { KeepsCaller self.old self.new }
        ensures same { IsSameDesk self.old self.new }
    {
        let added = hold(&mut self.front, piece);
        let rest = &piece[added..];
        match front_of(&self.front) {
            StreamFront::Short => Ok(Vec::new(self.alloc)),
            StreamFront::Unsealed => {
                let passed = self.pass(rest)?;
                Ok(passed)
            }
            StreamFront::Sealed { random } => {
                let opened = self.open(&random, rest)?;
                Ok(opened)
            }
        }
    }

    /// Takes the next piece of a stream that was not refused.
    fn take(&mut self, piece: &[u8]) -> Result<Vec<u8>, NoMemory>
        requires open { self.old.refusal ≡ None }
        ensures receives { IfOk result (λ more. Receives piece.now self.old self.new more.items) }
        ensures sends { OnOk result (KeepsSent self.old self.new) }
        ensures stays { KeepsCaller self.old self.new }
        ensures same { IsSameDesk self.old self.new }
    {
        if let Some(trial) = &mut self.trial {
            let handed = trial.feed(piece)?;
            return Ok(handed);
        }
        match self.passing {
            Some(_) => {
                let handed = Vec::from_slice(self.alloc, piece)?;
                Ok(handed)
            }
            None => self.begin(piece),
        }
    }

    /// Takes the next piece of what comes, and hands on what is to be served of it now.
    ///
    /// Where memory is refused, nothing more is read, and `refusal` says so. After a refusal
    /// nothing is handed on. What is sent later goes on with what was sent before. Once it is known
    /// who calls, that stays.
    pub fn receive(&mut self, piece: &[u8]) -> Result<Vec<u8>, NoMemory>
        ensures receives { IfOk result (λ more. Receives piece.now self.old self.new more.items) }
        ensures sends { OnOk result (KeepsSent self.old self.new) }
        ensures refused { IfOk result (λ more. self.old.refusal ≢ None
            → (more.items ≡ []) × (self.new ≡ self.old)) }
        ensures starved { OnErr result (self.new.refusal ≡ Some Starved) }
        ensures stays { KeepsCaller self.old self.new }
        ensures same { IsSameDesk self.old self.new }
    {
        if self.refusal.is_some() {
            return Ok(Vec::new(self.alloc));
        }
        match self.take(piece) {
            Ok(handed) => Ok(handed),
            Err(fault) => {
                self.refusal = Some(StreamRefusal::NoMemory);
                Err(fault)
            }
        }
    }

    /// What is sent of bytes: these themselves to a caller without a key, and records of them to a
    /// holder of one. As long as nobody calls nothing is sent.
    ///
    /// `NoMemory` where memory was refused, and to a holder of a key `NoNumber` where more records
    /// are needed than there are numbers left. Then nothing more can be sent, since the number of a
    /// record is left out.
    pub fn seal(&mut self, bytes: &[u8]) -> Result<Vec<u8>, SealFault>
        ensures sends { IfOk result (λ sent. Sends bytes.now self.old self.new sent.items) }
        ensures fails { IfErr result (λ e. Fails e bytes.now self.old) }
        ensures same { IsSameDesk self.old self.new }
    {
        if let Some(trial) = &mut self.trial {
            let sent = trial.seal(bytes)?;
            return Ok(sent);
        }
        match self.passing {
            Some(_) => {
                let sent = Vec::from_slice(self.alloc, bytes)?;
                Ok(sent)
            }
            None => Ok(Vec::new(self.alloc)),
        }
    }
}
