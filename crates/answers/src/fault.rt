//! Why a desk gives no sheet.

use std::alloc::AllocError;

/// Why there is no sheet.
#[derive(Clone, Copy, PartialEq, Eq, Debug)]
pub enum LogSheetFault {
    /// The position is above the log's length.
    NotThere,
    /// No accepted command up to the position opened the round.
    NoSuchRound,
    /// Memory was refused.
    NoMemory,
}

impl From<AllocError> for LogSheetFault {
    ghost use Rattle.std.specs.Prelude.{◌≡◌};
    ghost use Rattle.answers.specs.declared.fault.LogSheetFault.TheVariants.{NoMemory};

    ghost from_gives = { λ _ fault. fault ≡ NoMemory };

    fn from(_: AllocError) -> LogSheetFault {
        LogSheetFault::NoMemory
    }
}
