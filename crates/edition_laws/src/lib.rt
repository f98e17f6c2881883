//! What the editions answer to worked lists and print of them, who takes a place, and what the
//! commands that mend mistakes leave of a sheet. Each is the contract of a function that does
//! nothing.
#![tactic(auto)]

mod laws;

pub use laws::{
    mended_rounds, sheets_as_before, takes_who_is_next, worked_answers, worked_days, worked_rounds,
    worked_sheets,
};
