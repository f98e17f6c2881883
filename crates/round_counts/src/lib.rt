//! How far the entrants of a round have come.
#![tactic(auto)]

mod attempts_in;
mod counts;
mod opened;
mod progress;

pub use attempts_in::numbers_in;
pub use counts::{Counts, counts_of, numbers_with};
pub use opened::{OpenedRound, round_opened};
pub use progress::{Progress, allotted, progress_of};
