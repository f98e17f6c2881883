//! Why a replay ended early.

ghost use Rattle.std.specs.Prelude.{◌≡◌};
ghost use Rattle.lines.specs.declared.fault.RunFault.TheVariants as run_fault;
ghost use Rattle.replay.specs.declared.fault.ReplayFault.TheVariants as fault;

use lines::RunFault;
use std::alloc::AllocError;
use thiserror::Error;

/// Why a replay ended early. Its text is one line for people.
#[derive(Clone, Copy, Debug, PartialEq, Eq, Error)]
pub enum ReplayFault {
    /// No accepted command opened the round.
    #[error("no such round")]
    NoSuchRound,
    /// The run over the lines ended early.
    #[error("{0}")]
    Lines(RunFault),
}

impl From<RunFault> for ReplayFault {
    ghost from_gives = { λ run result. result ≡ fault.Lines run };

    fn from(run: RunFault) -> ReplayFault {
        ReplayFault::Lines(run)
    }
}

impl From<AllocError> for ReplayFault {
    ghost from_gives = { λ _ result. result ≡ fault.Lines run_fault.NoMemory };

    fn from(_: AllocError) -> ReplayFault {
        ReplayFault::Lines(RunFault::NoMemory)
    }
}
