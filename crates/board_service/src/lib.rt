//! What the board answers to browsers: the pages of a mirror of a hall's log, which is kept up
//! between the answers, how the desks of the hall are, and pages of the competition's file.
#![tactic(auto)]

mod laws;
mod service;
mod serving;
mod shelf;
mod status;

pub use laws::file_is_beside;
pub use service::BoardService;
pub use serving::{BoardEnd, PROGRAM, serve};
