//! What the command line of the program asks for: its subcommands with their arguments and their
//! help, and the task of a command line that was parsed.
#![tactic(auto)]

mod ask;
mod described;
mod enter;
mod enter_lines;
mod export;
mod hall;
mod hall_files;
mod import;
mod key;
mod laws;
mod log;
mod parsing;
mod places;
mod results;
mod serve;
mod sheet;
mod status;
mod stop;
mod task;
mod tick;
mod values;

pub use laws::replay_is_asked_alike;
pub use parsing::parse;
pub use places::{DeskPlaces, Place};
pub use task::{
    ClientRequest, EnterOptions, HallService, Invocation, LogFormOption, Task, task_of,
};
