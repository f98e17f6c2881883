//! A client of a desk: what it asks, what it hears, and what it makes of that.
//!
//! [`hear`] reads the first frame of a stream; [`judged`] says whether a frame is the answer to a
//! request; [`reply_text`] is the answer as the program prints it; [`sheet_version`] is the version
//! of the wire that has the sheets of an event; [`status_request`] and [`log_request`] are the
//! requests for how a desk is and for its log.
#![tactic(auto)]

mod fault;
mod hearing;
mod judging;
mod printing;
mod standings;
mod versions;

pub use fault::{ClientFault, refusal_name};
pub use hearing::hear;
pub use judging::{answers, judged};
pub use printing::reply_text;
pub use standings::{
    answers_from_three, await_request, log_request, status_request, status_request_in_five,
};
pub use versions::sheet_version;
