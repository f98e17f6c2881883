//! A sealed connection under one key, as one of its sides has it.

ghost use Rattle.std.specs.Prelude.{◌≡◌, IfErr, IfOk, OnErr, OnOk, Option};
ghost use Rattle.seal.specs.Streams.{Fed, begun};
ghost use Rattle.sealed.specs.Tunnels.{AreFew, FailsAll, SealsAll, fresh_tunnel, opposite};

use seal::{Channel, Direction, NoMemory, Opener, SealFault, Sealer, StreamFault};
use std::alloc::Global;
use std::marker::Model;

/// The most bytes of a record's body.
const MOST_BODY: usize = 16_384;

/// A sealed connection under one key: what comes from the other side is opened, and what goes to it
/// is sealed.
///
/// A contract sees the opener and the sealer.
#[derive(Drop)]
pub struct Tunnel {
    opener: Opener,
    sealer: Sealer,
}

impl Model for Tunnel {
    ghost use Rattle.sealed.specs.Tunnels.{TunnelOf};

    ghost Value = { TunnelOf };

    ghost view = { λ t. record { opener = t.opener; sealer = t.sealer } };
}

/// The other direction.
fn opposite(direction: Direction) -> Direction
    ensures { result ≡ opposite direction }
{
    match direction {
        Direction::ToServer => Direction::ToClient,
        Direction::ToClient => Direction::ToServer,
    }
}

impl Tunnel {
    /// A connection at its beginning, after the prefaces, under this connection's key. What comes
    /// goes in this direction.
    pub fn new(alloc: Global, key: [u8; 32], comes: Direction) -> Result<Tunnel, NoMemory>
        ensures { IfOk result (λ t. t ≡ fresh_tunnel key comes) }
    {
        let opener = Opener::new(
            alloc,
            Channel {
                key,
                direction: comes,
            },
        )?;
        let sealer = Sealer::new(Channel {
            key,
            direction: opposite(comes),
        });
        Ok(Tunnel { opener, sealer })
    }

    /// The fault that ended what comes, if one did.
    pub fn fault(&self) -> Option<StreamFault>
        ensures { result ≡ self.now.opener.fault }
    {
        self.opener.fault()
    }

    /// The number of the record that has begun to come and is not whole, if one has.
    pub fn begun(&self) -> Option<u64>
        ensures { result ≡ begun self.now.opener }
    {
        self.opener.begun()
    }

    /// Takes the next piece of what comes, and hands on the bytes of the records that are whole now
    /// and fit. Where memory is refused nothing changes.
    pub fn feed(&mut self, piece: &[u8]) -> Result<Vec<u8>, NoMemory>
        ensures fed { IfOk result
            (λ handed. Fed piece.now self.old.opener self.new.opener handed.items) }
        ensures sealer { self.new.sealer ≡ self.old.sealer }
        ensures refused { OnErr result (self.new ≡ self.old) }
    {
        self.opener.feed(piece)
    }

    /// The records of bytes that are to be sent: as many of 16,384 bytes as there are, and one of
    /// the rest.
    ///
    /// `NoMemory` where memory was refused, and `NoNumber` where more records are needed than there
    /// are numbers left of 2^64 - 1. Then nothing more can be sent, since a number is left out.
    pub fn seal(&mut self, alloc: Global, bytes: &[u8]) -> Result<Vec<u8>, SealFault>
        ensures sealed { IfOk result
            (λ sent. SealsAll bytes.now self.old.sealer self.new.sealer sent.items) }
        ensures few { OnOk result (AreFew bytes.now self.old.sealer self.new.sealer) }
        ensures fails { IfErr result (λ e. FailsAll e bytes.now self.old.sealer) }
        ensures opener { self.new.opener ≡ self.old.opener }
    {
        let mut sent = Vec::new(alloc);
        let mut start = 0;
        while start < bytes.len() {
            let end = bytes.len().min(start + MOST_BODY);
            let mut next = self.sealer.seal(alloc, &bytes[start..end])?;
            sent.append(&mut next)?;
            start = end;
        }
        Ok(sent)
    }
}
