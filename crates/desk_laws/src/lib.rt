//! Laws of a hall whose desks serve by the program's own loop, and what is proved of their messages
//! where they have keys. Each law is the contract of a function that does nothing.
#![tactic(auto)]

mod example;
mod full_links;
mod loop_runs;
mod questions;
mod under_keys;
mod ways;

pub use example::a_message_comes;
pub use full_links::links_write_and_lose;
pub use loop_runs::loops_are_runs;
pub use questions::questions_are_answered;
pub use under_keys::asks_under_a_key;
pub use ways::messages_come_as_pushed;
