//! The results of a meet in a competition's file of the WCA Competition Interchange Format.
#![tactic(auto)]

mod encoding;
mod exporting;
mod fault;
mod faults;
mod filling;
mod laws;
mod meet_rounds;
mod named_meet;
mod nesting;
mod note;
mod notes;
mod reading;
mod results;
pub mod results_json;

pub use encoding::{attempt_result, average_result, best_result};
pub use exporting::{ExportFault, ExportedFile, Findings, export, findings_of};
pub use fault::MeetFault;
pub use laws::{multi_blind_is_the_wcas, others_stay, results_read_back, ten_digits_read_back};
pub use named_meet::{GivenName, NamedMeet};
pub use note::{ExportNote, any_runs};
pub use results::write_results;
