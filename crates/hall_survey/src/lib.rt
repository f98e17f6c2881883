//! How all desks of a hall are: each is asked four times a second over a connection of its own,
//! what they said last is printed as JSON, and what is wrong with their keys on a line each.
#![tactic(auto)]

mod asked;
mod asked_stream;
mod hall_desks;
mod streams;
mod telling;

pub use asked_stream::AskedStream;
pub use hall_desks::HallDesks;
pub use streams::{AskedDesks, Hall, asked_desks, count_desks, lent_stream};
pub use telling::tell_difference;
