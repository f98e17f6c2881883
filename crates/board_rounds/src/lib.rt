//! Rounds and competitors of a meet in HTML, in people's words.
//!
//! [`push_round`] makes a round's table with what is said of the round, [`push_link`] a link to
//! it, [`push_podium`] the first three of a final and who is absent from it, [`push_person`] the
//! rounds that a competitor is in, and [`push_people`] all competitors. Other pages make their
//! tables of a round of the same cells: [`push_cell`], [`push_number`], [`push_results`],
//! [`push_attempt_headings`]; or have the texts of [`best_text`] and [`name_text`].
#![tactic(auto)]

mod absent;
mod cells;
mod counting;
mod lines;
mod persons;
mod rounds_shown;
mod shown;

pub use cells::{best_text, push_cell, push_number, push_results};
pub use persons::{push_people, push_person};
pub use rounds_shown::{push_attempt_headings, push_link, push_podium, push_round};
pub use shown::name_text;
