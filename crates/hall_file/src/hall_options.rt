//! The options by which a program finds the desks of a hall: the hall's file, or the hall's number
//! with the desks' addresses, and the file of the hall's key; and what is said where they are
//! wrong.

mod finding;
mod mistakes;
mod options;

pub use finding::{FoundHall, address_at, hall_of, number_at};
pub use mistakes::{Mistake, tell, tell_mistake, tell_no_arguments, tell_parse_error, tell_system};
pub use options::{option, with_desks};
