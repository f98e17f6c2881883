//! Why a step is refused.

use std::alloc::{AllocError, AllocFailed};

/// Why a desk does not do what it is asked for. It is then as it was.
#[derive(Clone, Copy, PartialEq, Eq, Debug)]
pub enum Refusal {
    /// 64 entries wait in the queue.
    Busy,
    /// The log has 65,536 entries.
    LogFull,
    /// No number is left for another ballot: the greatest that the desk knows of is 2^32 - 1.
    BallotsSpent,
}

/// Why a call gives no plan, or takes no entry. Nothing has changed.
#[derive(Clone, Copy, PartialEq, Eq, Debug)]
pub enum StepFault {
    /// The desk does not do it.
    Refused(Refusal),
    /// Memory was refused.
    NoMemory,
}

impl From<AllocError> for StepFault {
    ghost use Rattle.std.specs.Prelude.{◌≡◌};
    ghost use Rattle.proposer.specs.declared.fault.StepFault.TheVariants.{NoMemory};

    ghost from_gives = { λ _ fault. fault ≡ NoMemory };

    fn from(_: AllocError) -> StepFault {
        StepFault::NoMemory
    }
}

impl<T: Drop> From<AllocFailed<T>> for StepFault {
    ghost use Rattle.std.specs.Prelude.{◌≡◌};
    ghost use Rattle.proposer.specs.declared.fault.StepFault.TheVariants.{NoMemory};

    ghost from_gives = { λ _ fault. fault ≡ NoMemory };

    fn from(failed: AllocFailed<T>) -> StepFault {
        StepFault::from(AllocError::from(failed))
    }
}
