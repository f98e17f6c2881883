//! The subcommand `replay`: its arguments, its help, and what they ask for; and what the other
//! subcommands of the program share with it.
#![tactic(auto)]

mod parsing;
mod replay;
mod round;
mod values;

pub use parsing::{desk_command, parse_replay, replay_task, with_subcommand};
pub use replay::{ReplayTask, replay_command, replay_of, style_at};
pub use round::{event_at, event_value, round_at, round_value};
pub use values::{csv_flag, flag, flag_at, plain_command, text_at, value, with_argument};
