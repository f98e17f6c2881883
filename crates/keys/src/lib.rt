//! A key of a hall as a text: 64 hexadecimal digits, as a key's file has it.
#![tactic(auto)]

pub mod key_file;
mod printing;
mod reading;

pub use printing::print_key;
pub use reading::read_key;
