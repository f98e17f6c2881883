//! The file of a desk: opened as a database, and as the store of its desk.
#![tactic(auto)]

mod fault;
mod log_front;
mod making;
pub mod mark;
mod opening;
pub mod stored_log;
mod uses;

pub use fault::fault_of_load;
pub use making::make_file;
pub use opening::{make_keeper, open_file, open_keeper, open_keeper_there};
pub use uses::{check_use, put_away, put_in_use};
