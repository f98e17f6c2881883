//! Why a body cannot be sealed, and what ends a sealed stream.

ghost use Rattle.std.specs.Prelude.{◌≡◌};
ghost use Rattle.seal.specs.declared.fault.SealFault.TheVariants.{NoMemory};

use std::alloc::AllocError;

/// Why a body is not sealed. The first that applies, in this order.
#[derive(Clone, Copy, Debug, PartialEq, Eq)]
pub enum SealFault {
    /// The body is empty or has more than 16,384 bytes.
    BadLength,
    /// 2^64 - 1 records were sealed: no number is left.
    NoNumber,
    /// Memory was wanted and refused.
    NoMemory,
}

impl From<AllocError> for SealFault {
    ghost from_gives = { λ _ e. e ≡ NoMemory };

    fn from(_error: AllocError) -> SealFault {
        SealFault::NoMemory
    }
}

/// What ended a stream. The first that applies, in this order.
#[derive(Clone, Copy, Debug, PartialEq, Eq)]
pub enum StreamFault {
    /// The length of a record is 0 or above 16,384. It is known with the two bytes of the length.
    BadLength,
    /// The tag of a record is not that of its body, with its number and direction, under the
    /// connection's key. It is known with the whole record.
    BadTag,
}
