//! A competition in the WCA Competition Interchange Format, as commands for a desk.
#![tactic(auto)]

mod checking;
mod entries;
mod events;
mod fault;
mod file;
mod importing;
mod later;
mod laws;
mod members;
mod nesting;
mod options;
mod people;
mod persons;
mod quoted;
mod setting_up;
mod settings;
mod text;

pub use events::enters;
pub use fault::{CompetitionFault, EventFault, FilePerson, PersonFault, RoundFault};
pub use file::{FileFault, import_file, read_file, without_mark};
pub use importing::{ImportFault, ImportedCompetition, import};
pub use later::{RoundImport, later_rounds, print_later};
pub use laws::{
    accepts_all, commands_are_fit, does_all_lines, lists_are_held, names_are_apart,
    prints_whole_lines, sets_up_meet,
};
pub use members::{list_at, member_at, number_at, text_at};
pub use options::{CumulativeLimits, Edition, Options, SameNames};
pub use persons::{given_name, is_accepted, number_of, text_under};
pub use quoted::Quoted;
pub use settings::{number_within, round_id};
pub use text::{print_imported, print_lines};
