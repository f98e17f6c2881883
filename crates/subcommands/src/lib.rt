//! What the program does of a task that asks desks: it finds the desk by its address or by a hall's
//! file, asks it, and prints what it answers. Where something fails it says why on the fault
//! stream, and gives the exit status.
#![tactic(auto)]

mod asking;
mod begun;
mod entering;
mod finding;
mod folders;
mod machine;
mod reached;
mod services;
mod standing;
mod telling;

pub use asking::{carry_at, copy_log_at, newest_at};
pub use begun::may_make;
pub use entering::{enter_lines_at, enter_words_at};
pub use folders::make_folders;
pub use services::{entry_key_file, service_of};
pub use standing::{StatusOptions, addresses_of, status_at};
pub use telling::{tell_log, tell_missing, tell_service};
