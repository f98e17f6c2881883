//! What of a round is beside it by a competition's file: its personal records, and a limit for
//! several attempts together. Nothing of the list depends on them.
#![tactic(auto)]

mod lines;
mod records;
mod together;

pub use records::push_records;
pub use together::push_together;
