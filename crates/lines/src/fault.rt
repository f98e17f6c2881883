//! Why a run over lines ended early.

ghost use Rattle.std.specs.Prelude.{◌≡◌};
ghost use Rattle.lines.specs.declared.fault.RunFault.TheVariants as run_fault;

use std::alloc::{AllocError, AllocFailed};
use thiserror::Error;

/// Why a run over the lines of an input ended early. Its text is one line for people.
#[derive(Clone, Copy, Debug, PartialEq, Eq, Error)]
pub enum RunFault {
    /// A hall has three desks or five.
    #[error("bad number of desks")]
    BadCount,
    /// The input is above a limit: 65,536 lines, 10,000 bytes a line, 39,387,136 bytes.
    #[error("input too long")]
    InputTooLong,
    /// A line, counted from 1, is none of those that the run reads.
    #[error("bad line {line}")]
    BadLine { line: u32 },
    /// A read failed.
    #[error("cannot read")]
    Read,
    /// A write failed.
    #[error("cannot write")]
    Write,
    /// Memory ran out.
    #[error("no memory")]
    NoMemory,
}

impl From<AllocError> for RunFault {
    ghost from_gives = { λ _ fault. fault ≡ run_fault.NoMemory };

    fn from(_: AllocError) -> RunFault {
        RunFault::NoMemory
    }
}

impl<T: Drop> From<AllocFailed<T>> for RunFault {
    ghost from_gives = { λ _ fault. fault ≡ run_fault.NoMemory };

    fn from(_: AllocFailed<T>) -> RunFault {
        RunFault::NoMemory
    }
}
