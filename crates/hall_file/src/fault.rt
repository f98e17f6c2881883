//! Why a file is no hall's file.

ghost use Rattle.std.specs.Prelude.{◌≡◌};
ghost use Rattle.hall_file.specs.declared.fault.DesksStop.TheVariants as desks_stop;
ghost use Rattle.hall_file.specs.declared.fault.HallFault.TheVariants as hall_fault;

use std::alloc::{AllocError, AllocFailed};
use thiserror::Error;

/// A member of a hall's file.
#[derive(Clone, Copy, Debug, PartialEq, Eq, Error)]
pub enum Member {
    /// The number of the hall.
    #[error("hall")]
    Hall,
    /// The addresses of its desks.
    #[error("desks")]
    Desks,
}

/// What is wrong with the value of `hall`.
#[derive(Clone, Copy, Debug, PartialEq, Eq, Error)]
pub enum HallNumberFault {
    /// It is no whole number.
    #[error("not a whole number")]
    NotInteger,
    /// It is not 0 to 4,294,967,295.
    #[error("not 0 to 4294967295")]
    OutOfRange,
}

/// What is wrong with the value of `desks`. The desks are counted from 1.
#[derive(Clone, Copy, Debug, PartialEq, Eq, Error)]
pub enum DesksFault {
    /// It is no list.
    #[error("not a list of addresses")]
    NotList,
    /// The list has neither three nor five items.
    #[error("{count} addresses, a hall has 3 or 5")]
    BadCount { count: usize },
    /// The item of this desk is no text.
    #[error("address {desk} is not a text")]
    NotText { desk: usize },
    /// The text of this desk is not `HOST:PORT`.
    #[error("address {desk} is not HOST:PORT with a port 1 to 65535")]
    NotAddress { desk: usize },
    /// A desk in front of this one has the same address.
    #[error("address {desk} stands there twice")]
    Twice { desk: usize },
}

/// What is wrong with the value of `key`.
#[derive(Clone, Copy, Debug, PartialEq, Eq, Error)]
pub enum KeyFault {
    /// It is no text.
    #[error("not a text")]
    NotText,
    /// It is the empty text.
    #[error("empty")]
    Empty,
}

/// Why a file is no hall's file. Each has one line for people. Lines are counted from 1.
#[derive(Debug, Drop, Error)]
pub enum HallFault {
    /// The file has more than 8,192 bytes.
    #[error("longer than 8192 bytes")]
    TooLong,
    /// It is not UTF-8. The line has the first byte that belongs to no character.
    #[error("line {line}: not UTF-8")]
    NotUtf8 {
        line: usize,
    },
    /// It is not TOML. The line is where the reason's span begins.
    #[error("line {line}: not TOML: {}", .reason.message())]
    NotToml {
        line: usize,
        reason: toml::de::Error,
    },
    /// A hall's file has no member of this name. The member begins on the line.
    #[error("line {line}: unknown member {name:?}")]
    Unknown {
        line: usize,
        name: String,
    },
    /// The member is missing.
    #[error("{member}: missing")]
    Missing {
        member: Member,
    },
    /// The value of `hall` is no hall's number. The member begins on the line.
    #[error("line {line}: hall: {fault}")]
    Hall {
        line: usize,
        fault: HallNumberFault,
    },
    /// The value of `desks` is no list of a hall's desks. The member begins on the line.
    #[error("line {line}: desks: {fault}")]
    Desks {
        line: usize,
        fault: DesksFault,
    },
    /// The value of `key` is no path of a key's file. The member begins on the line.
    #[error("line {line}: key: {fault}")]
    Key {
        line: usize,
        fault: KeyFault,
    },
    /// Memory ran out.
    #[error("no memory")]
    NoMemory,
}

impl From<AllocError> for HallFault {
    ghost from_gives = { λ _ fault. fault ≡ hall_fault.NoMemory };

    fn from(_: AllocError) -> HallFault {
        HallFault::NoMemory
    }
}

impl<T: Drop> From<AllocFailed<T>> for HallFault {
    ghost from_gives = { λ _ fault. fault ≡ hall_fault.NoMemory };

    fn from(_: AllocFailed<T>) -> HallFault {
        HallFault::NoMemory
    }
}

/// Why the addresses of a hall's desks are not had.
#[derive(Drop)]
pub enum DesksStop {
    /// They are no addresses of a hall's desks.
    Fault(DesksFault),
    /// Memory ran out.
    NoMemory,
}

impl From<DesksFault> for DesksStop {
    ghost from_gives = { λ fault stop. stop ≡ desks_stop.Fault fault };

    fn from(fault: DesksFault) -> DesksStop {
        DesksStop::Fault(fault)
    }
}

impl From<AllocError> for DesksStop {
    ghost from_gives = { λ _ stop. stop ≡ desks_stop.NoMemory };

    fn from(_: AllocError) -> DesksStop {
        DesksStop::NoMemory
    }
}

impl<T: Drop> From<AllocFailed<T>> for DesksStop {
    ghost from_gives = { λ _ stop. stop ≡ desks_stop.NoMemory };

    fn from(_: AllocFailed<T>) -> DesksStop {
        DesksStop::NoMemory
    }
}
