//! The log of a stopped desk's file, as the lines that a replay reads.

mod fault;
mod reading;

pub use fault::StoredLogFault;
pub use reading::write_stored_log;
