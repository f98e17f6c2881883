//! A copy of a hall's log, which grows by what desks answer, and the sheets of it.
#![tactic(auto)]

mod laws;
mod mirror;

pub use laws::mirrors_hold_fronts;
pub use mirror::{Mirror, MirrorGrowth};
