//! A competition's file, read and printed as the lines of a desk's commands.

mod fault;
mod printing;
mod reading;

pub use fault::{ImportsFault, tell_import};
pub use printing::{print_file, print_import};
pub use reading::{InputFault, read_bytes};
