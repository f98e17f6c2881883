//! What the rules would answer to further entries after a log, without entering them.
#![tactic(auto)]

mod foretelling;

pub use foretelling::foretell;
