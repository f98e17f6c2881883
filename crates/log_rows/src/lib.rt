//! The log of a hall as people read it: a row for each entry, or for each change of one result.
#![tactic(auto)]

mod rows;
mod writing;

pub use lines::RunFault;
pub use writing::{ResultOwner, ShownEntries, write_rows};
