//! The file that describes a hall: its number, where its desks listen, and where its key is.
#![tactic(auto)]

mod address;
mod fault;
mod file;
mod folder;
mod hall_file;
pub mod hall_options;
mod laws;
mod line;
mod making;
mod members;
mod opening;
mod printing;
pub mod service;

pub use address::is_address;
pub use fault::{DesksFault, DesksStop, HallFault, HallNumberFault, KeyFault, Member};
pub use file::{MOST_BYTES, read_hall};
pub use folder::key_path;
pub use hall_file::HallFile;
pub use laws::{says_one_hall, says_or_is_refused};
pub use making::hall_of_addresses;
pub use opening::{HallOpenFault, read_hall_at};
pub use printing::print_hall;
