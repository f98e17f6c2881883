//! What a desk answers where it does not do what it is asked for.

use proposer::fault::{Refusal, StepFault};
use std::alloc::AllocError;

/// Why a desk does not take an event.
#[derive(Clone, Copy, PartialEq, Eq, Debug)]
pub enum NodeFault {
    /// 64 entries wait in the queue.
    Busy,
    /// The log has 65,536 entries.
    LogFull,
    /// No number is left for another ballot: the greatest that the desk knows of is 2^32 - 1.
    BallotsSpent,
    /// Memory was refused.
    NoMemory,
    /// A save has failed, in this call or an earlier one.
    Down,
}

impl From<StepFault> for NodeFault {
    ghost use Rattle.std.specs.Prelude.{◌≡◌};
    ghost use Rattle.replica.specs.roles.Faults.{fault_of};

    ghost from_gives = { λ fault result. result ≡ fault_of fault };

    fn from(fault: StepFault) -> NodeFault {
        match fault {
            StepFault::Refused(Refusal::Busy) => NodeFault::Busy,
            StepFault::Refused(Refusal::LogFull) => NodeFault::LogFull,
            StepFault::Refused(Refusal::BallotsSpent) => NodeFault::BallotsSpent,
            StepFault::NoMemory => NodeFault::NoMemory,
        }
    }
}
