//! The page of a card, with its form, the last cards and the round beside it; the history of a
//! result; and sheets on paper.
#![tactic(auto)]

mod beside;
mod bounds;
mod card;
mod doubts;
mod draft;
mod fields;
mod history;
mod leaving;
mod notes;
mod origin;
mod page;
pub mod paper;
mod past;

pub use bounds::{best_in, floor_of, single_of, time_of};
pub use doubts::note_by_file;
pub use draft::Draft;
pub use history::history_page;
pub use notes::{CardNote, note_word};
pub use origin::Origin;
pub use page::card_page;
pub use past::Past;
