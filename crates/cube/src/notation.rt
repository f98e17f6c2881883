//! The notation of the moves of the 3x3x3 cube: reading, printing and counting.

mod laws;
mod moves;
mod printing;
mod reading;
mod tokens;

pub use laws::{one_reading, printed_is_spelled};
pub use moves::Moves;
pub use printing::{count, print};
pub use reading::{MOST_MOVES, NotationFault, read};
pub use std::alloc::AllocError as NoMemory;
