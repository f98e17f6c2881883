//! The commands of an input: its lines, but for empty ones and comments, each with its number; and
//! in words what is wrong with the first one that is no command in any edition.

mod command_text;
mod field_words;
mod reading;
mod wording;

pub use command_text::InputCommand;
pub use reading::read_commands;
pub use wording::first_fault;
