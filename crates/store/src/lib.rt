//! A desk's store: what it has committed, it finds again.
//!
//! A keeper keeps what a desk stores ('Paxos Made Simple', section 2.5): the promised ballot, the
//! last vote, the number that was tried, and the log. One keeper uses two tables of a database, and
//! one keeps all in memory, for tests. Code above is written over any keeper.
#![tactic(auto)]

mod copying;
pub mod failing;
pub mod fault;
pub mod home;
pub mod keeper;
pub mod lent_keeper;
mod loading;
pub mod memory;
pub mod opening;
mod ranges;
mod reading;
mod row_values;
mod schema;
pub mod sql;
mod statements;
mod still_open;

pub use std::alloc::AllocError as NoMemory;
