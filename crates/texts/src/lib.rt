//! Commands as texts: their fields, how they are read and printed, and what they are answered.
#![tactic(auto)]

mod answer;
mod command;
mod editions;
mod fields;
pub mod meanings;
mod names;
mod numbers;
mod parts;
mod printing;
mod reading;
mod table;
mod typed;
mod value;

pub use answer::{Answer, Code};
pub use command::{
    AttemptEntry, CardEntry, Command, Entered, Name, NewAttempts, RemarkedCommand, RoundId,
    SeenValues, Settings,
};
pub use editions::{is_spelled_in, worked_texts};
pub use fields::{cut, cut_remark, was_of};
pub use formats::Advance;
pub use names::is_clear_name;
pub use numbers::number_between;
pub use printing::{print, print_advance, print_cutoff, print_limit, print_remarked, push_was};
pub use reading::{CommandFault, one_spelling, read};
pub use table::{CommandRow, FieldKind, ROWS, Row, Tag, kind_at, row_named, row_of};
pub use typed::command_of_values;
pub use value::{FieldValue, LentValue, Values};
