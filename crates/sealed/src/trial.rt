//! A sealed stream at a desk, whose first record tells under which of two keys it is.

ghost use Rattle.std.specs.Prelude.{◌≡◌, ◌++◌, ℕ, List, IfErr, IfOk, None};
ghost use Rattle.sealed.specs.Trials.{FailsFor, IsSameTrial, SealsFor, Tries, begun_in, entry_of};
ghost use Rattle.sealed.specs.Trials.{fresh_trial, over};

use crate::callers::{DeskKeys, Holder};
use crate::tunnel::Tunnel;
use seal::{Direction, NoMemory, SealFault, connection_key};
use std::alloc::Global;
use std::marker::Model;

/// A sealed stream at a desk. Until its first record fits under one of the desk's keys, both are
/// tried, the hall's first.
///
/// A contract sees the connection under each key, and which of them it is.
#[derive(Drop)]
pub struct Trial {
    alloc: Global,
    hall: Tunnel,
    entry: Option<Tunnel>,
    holder: Option<Holder>,
}

impl Model for Trial {
    ghost use Rattle.sealed.specs.Trials.{TrialOf};

    ghost Value = { TrialOf };

    ghost view = { λ t. record { hall = t.hall; entry = t.entry; holder = t.holder } };
}

/// The connection under an entry key, where there is one.
fn entry_tunnel(
    alloc: Global,
    entry: Option<[u8; 32]>,
    client: &[u8; 16],
    server: &[u8; 16],
) -> Result<Option<Tunnel>, NoMemory>
    ensures { IfOk result (λ t. t ≡ entry_of entry client.now server.now) }
{
    match entry {
        Some(key) => {
            let key = connection_key(&key, client, server);
            Ok(Some(Tunnel::new(alloc, key, Direction::ToServer)?))
        }
        None => Ok(None),
    }
}

impl Trial {
    /// A stream at its beginning, after a preface with the random bytes of the client. The desk's
    /// own are those of the server.
    pub fn new(
        alloc: Global,
        locks: &DeskKeys,
        client: &[u8; 16],
        server: &[u8; 16],
    ) -> Result<Trial, NoMemory>
        ensures { IfOk result (λ t. t ≡ fresh_trial locks.now client.now server.now) }
    {
        let key = connection_key(&locks.hall, client, server);
        let hall = Tunnel::new(alloc, key, Direction::ToServer)?;
        let entry = entry_tunnel(alloc, locks.entry, client, server)?;
        Ok(Trial {
            alloc,
            hall,
            entry,
            holder: None,
        })
    }

    /// Which key it is sealed under, once a record fits.
    pub fn holder(&self) -> Option<Holder>
        ensures { result ≡ self.now.holder }
    {
        self.holder
    }

    /// Whether nothing more is handed on: a record did not fit.
    pub fn is_over(&self) -> bool
        ensures { result ≡ over self.now }
    {
        let hall = self.hall.fault().is_some();
        let entry = match &self.entry {
            Some(entry) => entry.fault().is_some(),
            None => true,
        };
        match self.holder {
            Some(Holder::Hall) => hall,
            Some(Holder::Entry) => entry,
            None => hall && entry,
        }
    }

    /// The number of the record that has begun to come and is not whole, if one has.
    pub fn begun(&self) -> Option<u64>
        ensures { result ≡ begun_in self.now }
    {
        let hall = self.hall.begun();
        let entry = match &self.entry {
            Some(entry) => entry.begun(),
            None => None,
        };
        match self.holder {
            Some(Holder::Hall) => hall,
            Some(Holder::Entry) => entry,
            None => hall.or(entry),
        }
    }

    /// Takes the next piece, where no record fits yet.
    fn choose(&mut self, piece: &[u8]) -> Result<Vec<u8>, NoMemory>
        requires { self.old.holder ≡ None }
        ensures tries { IfOk result (λ r. (stream handed : List ℕ) → Tries stream handed self.old
            → Tries (stream ++ piece.now) (handed ++ r.items) self.new) }
        ensures same { IsSameTrial self.old self.new }
    {
        let handed = self.hall.feed(piece)?;
        if !handed.is_empty() {
            self.holder = Some(Holder::Hall);
            return Ok(handed);
        }
        let Some(entry) = &mut self.entry else {
            return Ok(handed);
        };
        let given = entry.feed(piece)?;
        if given.is_empty() {
            return Ok(given);
        }
        self.holder = Some(Holder::Entry);
        Ok(given)
    }

    /// Takes the next piece of the stream, and hands on the bytes of the records that are whole now
    /// and fit. Where memory is refused, the stream is over, since one key may have seen the piece.
    pub fn feed(&mut self, piece: &[u8]) -> Result<Vec<u8>, NoMemory>
        ensures tries { IfOk result (λ r. (stream handed : List ℕ) → Tries stream handed self.old
            → Tries (stream ++ piece.now) (handed ++ r.items) self.new) }
        ensures same { IsSameTrial self.old self.new }
    {
        match self.holder {
            Some(Holder::Hall) => {
                let handed = self.hall.feed(piece)?;
                Ok(handed)
            }
            Some(Holder::Entry) => {
                let Some(entry) = &mut self.entry else {
                    return Ok(Vec::new(self.alloc));
                };
                let handed = entry.feed(piece)?;
                Ok(handed)
            }
            None => self.choose(piece),
        }
    }

    /// What is sent of bytes, under the key that the stream is sealed under. Until that is known
    /// nothing is sent, and nothing fails. An error is that of [`Tunnel::seal`].
    pub fn seal(&mut self, bytes: &[u8]) -> Result<Vec<u8>, SealFault>
        ensures seals { IfOk result (λ sent. SealsFor bytes.now self.old self.new sent.items) }
        ensures fails { IfErr result (λ e. FailsFor e bytes.now self.old) }
    {
        match self.holder {
            Some(Holder::Hall) => {
                let sent = self.hall.seal(self.alloc, bytes)?;
                Ok(sent)
            }
            Some(Holder::Entry) => {
                let Some(entry) = &mut self.entry else {
                    return Ok(Vec::new(self.alloc));
                };
                let sent = entry.seal(self.alloc, bytes)?;
                Ok(sent)
            }
            None => Ok(Vec::new(self.alloc)),
        }
    }
}
