//! Which desk is asked, at which address and under which key, by the arguments and the hall's file.
//! Where the file is all that is given, its desks are asked until one answers. A hall's file is
//! printed here too.
#![tactic(auto)]

mod files;
mod hall_keys;
mod printing;
mod resolving;
mod seeking;

pub use files::hall_of_file;
pub use hall_keys::{hall_key_file, key_at, key_of_hall};
pub use printing::print_hall_file;
pub use resolving::{DeskAddress, addressed};
