//! The page of the score table that says, before results are sent in, what is open between the list
//! and the competition's file.
#![tactic(auto)]

mod named;
mod open_lines;
mod page;

pub use page::{NO_FILE, before_page};
