//! What holds of every hall of desks, whichever of them stop and whatever they serve: the headline,
//! and laws that tie desks which run to it. Each law is the contract of a function that does
//! nothing.
#![tactic(auto)]

mod arriving;
mod copying;
mod differing;
mod hall_going;
mod hall_runs;
mod hall_serving;
pub mod mirrors;
mod own_messages;
mod pushing;
mod served;
mod stops;

pub use arriving::messages_arrive;
pub use copying::{a_decided_entry_is_copied, copies_are_of_logs};
pub use differing::{desks_never_differ, differences_are_heard};
pub use hall::world::laws::headline;
pub use hall_going::halls_go_on;
pub use hall_runs::{halls_are_not_stuck, halls_are_runs};
pub use hall_serving::{a_tangle_is_decided, majorities_decide};
pub use own_messages::{own_messages_were_sent, served_frames_happen};
pub use pushing::messages_are_pushed;
pub use served::{calls_are_a_run, sheets_are_of_the_log};
pub use stops::{calls_are_happenings, stops_make_a_run};
