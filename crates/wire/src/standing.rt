//! How a desk is, as it tells a client that asks for it.

ghost use Rattle.std.specs.Prelude.{◌≡◌, ◌⊎◌, ◌↔◌, IfSome, IsSome, length};
ghost use Rattle.std.specs.List.{AllByRecursion};
ghost use Rattle.wire.specs.{Ranges.IsLogLength, Ranges.AreLengths, Spelling.lengths_of};

use crate::values::{DeskRole, Version};
use acceptor::ballot::Ballot;

/// How a desk is.
#[derive(Clone, Copy, Debug, PartialEq, Eq)]
pub struct DeskStatus {
    /// The number of entries in its log, at most 65,536.
    pub length: u32,
    /// The number of commands in its queue.
    pub waiting: u8,
    /// What it does for a ballot of its own.
    pub role: DeskRole,
    /// The highest ballot that it has promised. None: it has promised none.
    pub promised: Option<Ballot>,
    /// The lengths of the logs of the hall's desks, as far as it has heard of them.
    pub told: Lengths,
    /// How another desk differs, if this one has heard so since it was started. Versions 3 and 4
    /// tell none.
    pub differs: Option<Difference>,
}

/// What another desk of the hall has said that no desk says of which the file was never lost and
/// never replaced by an older one.
#[derive(Clone, Copy, Debug, PartialEq, Eq)]
pub enum Difference {
    /// This desk has said that another entry is at a position of the log, 0 to 65,535, than the one
    /// that does.
    OtherEntry { desk: u8, position: u32 },
    /// This desk has said that its log has this many entries, 0 to 65,535, after it had said that
    /// it has more.
    Shorter { desk: u8, length: u32 },
}

impl DeskStatus {
    ghost use Rattle.wire.specs.Numbers.{standing_in};

    /// What a version tells of how a desk is: before version 5 nothing of a difference.
    pub fn in_version(self, version: Version) -> DeskStatus
        ensures { result ≡ standing_in version self }
    {
        match version {
            Version::Five => self,
            Version::One | Version::Two | Version::Three | Version::Four => DeskStatus {
                length: self.length,
                waiting: self.waiting,
                role: self.role,
                promised: self.promised,
                told: self.told,
                differs: None,
            },
        }
    }
}

/// The lengths of the logs of a hall's desks, each at most 65,536, in the order of the desks'
/// numbers. A hall has three desks or five.
#[derive(Clone, Copy, Debug, PartialEq, Eq)]
pub enum Lengths {
    /// Those of the desks 1 to 3.
    OfThree([u32; 3]),
    /// Those of the desks 1 to 5.
    OfFive([u32; 5]),
}

impl Lengths {
    /// These lengths, that of desk 1 first. None: they are neither three nor five.
    pub fn new(lengths: &[u32]) -> Option<Lengths>
        ensures lengths { IfSome result (λ told. lengths_of told ≡ lengths.now) }
        ensures in_range { IfSome result (λ told.
            AllByRecursion IsLogLength lengths.now → AreLengths told) }
        ensures some { IsSome result ↔ ((length lengths.now ≡ 3) ⊎ (length lengths.now ≡ 5)) }
    {
        match *lengths {
            [first, second, third] => Some(Lengths::OfThree([first, second, third])),
            [first, second, third, fourth, fifth] => {
                Some(Lengths::OfFive([first, second, third, fourth, fifth]))
            }
            _ => None,
        }
    }

    /// The lengths as a slice, which begins with that of desk 1.
    pub fn as_slice(&self) -> &[u32]
        ensures { result.now ≡ lengths_of self.now }
    {
        match self {
            Lengths::OfThree(lengths) => lengths,
            Lengths::OfFive(lengths) => lengths,
        }
    }
}
