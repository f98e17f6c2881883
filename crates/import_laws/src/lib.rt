//! Which files of competitions have no fault, and to what they are imported. Each is the contract
//! of a function that does nothing.
#![tactic(auto)]

mod laws;

pub use laws::{good_files_are_imported, worked_file};
