//! What is sent over a sealed connection.

ghost use Rattle.std.specs.Prelude.{◌≡◌, IfOk, IfErr, OnErr};
ghost use Rattle.seal.specs.Sealing.{Seals, RefusesBody};

use crate::channel::Channel;
use crate::fault::SealFault;
use crate::record::{LENGTH, TAG, tag};
use std::alloc::Global;
use std::marker::Model;

/// The most bytes of a body.
const MOST: usize = 16_384;

/// Makes the records of one direction of a connection, numbered from 0.
///
/// A contract sees its channel and the number of the next record.
#[derive(Drop)]
pub struct Sealer {
    channel: Channel,
    number: u64,
}

impl Model for Sealer {
    ghost use Rattle.seal.specs.Sealing.{Sealing};

    ghost Value = { Sealing };

    ghost view = { λ s. record { channel = s.channel; number = s.number } };
}

impl Sealer {
    /// A sealer at the beginning of a stream.
    pub fn new(channel: Channel) -> Sealer
        ensures { result ≡ record { channel = channel; number = 0 } }
    {
        Sealer { channel, number: 0 }
    }

    /// The next record, with this body: what is sent of it.
    ///
    /// `BadLength` for a body that is empty or has more than 16,384 bytes, `NoNumber` once 2^64 - 1
    /// records were sealed, `NoMemory` where memory was refused, in this order; then nothing
    /// changes.
    pub fn seal(&mut self, alloc: Global, body: &[u8]) -> Result<Vec<u8>, SealFault>
        ensures sealed { IfOk result (λ bytes.
            Seals body.now self.old self.new bytes.items) }
        ensures refused { IfErr result (λ e. RefusesBody e body.now self.old.number) }
        ensures unchanged { OnErr result (self.new ≡ self.old) }
    {
        if body.is_empty() || body.len() > MOST {
            return Err(SealFault::BadLength);
        }
        if self.number == u64::MAX {
            return Err(SealFault::NoNumber);
        }
        let mut bytes = Vec::with_capacity(alloc, LENGTH + body.len() + TAG)?;
        bytes.extend_from_slice(&(body.len() as u16).to_be_bytes())?;
        bytes.extend_from_slice(body)?;
        bytes.extend_from_slice(&tag(&self.channel, self.number, body))?;
        self.number += 1;
        Ok(bytes)
    }
}
