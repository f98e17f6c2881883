//! What a competition's file says of times and places: the schedule, and what one person still has
//! to do. The schedule leads to the rounds that were opened; all else is of the file alone.
#![tactic(auto)]

mod laws;
mod looks;
mod ordering;
mod schedule;
mod spots;
mod today;

pub use laws::times_are_in_order;
pub use schedule::push_schedule;
pub use today::push_today;
