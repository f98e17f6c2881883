//! What each program does with its command line: it reads its arguments, and prints what their
//! parser says.
#![tactic(auto)]

mod printing;
mod reading;

pub use printing::{NOT_TEXT, PrintFault, print_parser_text};
pub use reading::{borrowed, given, plain_number};
