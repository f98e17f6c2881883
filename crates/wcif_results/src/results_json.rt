//! The results of all rounds of a meet as JSON of this project's own.

mod entrants;
mod meets;
mod rounds_written;
mod values;

pub use meets::results_text;
