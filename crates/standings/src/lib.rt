//! How the desks of a hall are: what each answered, and what that means for the hall.
#![tactic(auto)]

mod as_json;
mod as_text;
mod forms;
mod meaning;
mod polled;

pub use as_json::json_line;
pub use forms::{Form, report};
pub use meaning::{difference, status_of};
pub use polled::{PolledDesk, StatusReply};
