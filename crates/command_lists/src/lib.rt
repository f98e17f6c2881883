//! Commands that are sent together: from lines or from a competition's file, and what each of them
//! would be answered.
#![tactic(auto)]

mod answered;
mod file;
mod reading;

pub use answered::{all_done, answers_to, first_refusal};
pub use file::{FileLines, lines_of_file};
pub use reading::texts_in;
