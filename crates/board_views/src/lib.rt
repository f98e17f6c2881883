//! What is at the paths of the board, made from a mirror of a hall's log.
//!
//! [`page_at`] gives the page at a path: rounds and competitors in HTML, a sheet's table, the
//! archive of the log. It has neither sockets nor time.
#![tactic(auto)]

mod all_rounds;
mod bodies;
mod frame;
mod looks;
mod meets;
mod pages;
mod paths;

pub use pages::page_at;
pub use paths::View;
