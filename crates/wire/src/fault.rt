//! What is wrong with a stream of bytes.

ghost use Rattle.std.specs.Prelude.{◌≡◌};
ghost use Rattle.wire.specs.declared.fault.WireFault.TheVariants.{NoMemory};

use std::alloc::{AllocError, AllocFailed};

/// Why a stream can be read no further. The first that applies, in this order.
#[derive(Clone, Copy, Debug, PartialEq, Eq)]
pub enum WireFault {
    /// The length is not 8 to 300,000. It is known with the four bytes of the length.
    BadLength,
    /// The version is none of 1 to 4. This and the faults below are known with the whole frame.
    BadVersion,
    /// No kind of the version has this number.
    BadKind,
    /// A field is out of its range, the sender or receiver does not fit the kind, or there are too
    /// few or too many bytes.
    BadBody,
    /// Memory was wanted and refused.
    NoMemory,
}

impl From<AllocError> for WireFault {
    ghost from_gives = { λ _ e. e ≡ NoMemory };

    fn from(_error: AllocError) -> WireFault {
        WireFault::NoMemory
    }
}

impl<T: Drop> From<AllocFailed<T>> for WireFault {
    ghost from_gives = { λ _ e. e ≡ NoMemory };

    fn from(_error: AllocFailed<T>) -> WireFault {
        WireFault::NoMemory
    }
}
