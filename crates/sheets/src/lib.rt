//! The result sheet of a round: as text for reading, and as a table of comma-separated values.
#![tactic(auto)]

mod as_table;
mod as_text;
mod going_on;
mod laws;
mod reading_back;
mod shown;
mod styled;

pub use as_table::table;
pub use as_text::text;
pub use formats::SheetStyle;
pub use going_on::AdvancingEntrants;
pub use laws::{fits_in_a_frame, later_editions_change_no_sheet};
pub use reading_back::table_reads_back;
pub use styled::sheet;

/// Why there is no sheet.
#[derive(Clone, Copy, Debug, PartialEq, Eq)]
pub enum SheetFault {
    /// The round was not opened.
    NoSuchRound,
    /// Memory ran out.
    NoMemory,
}
