//! Events, rounds and their settings in people's words, as pages have them. HTML reads these texts
//! as they are.
//!
//! Where memory runs out, a call that adds to a text may have added a front part of it.
#![tactic(auto)]

mod events;
mod settings;

pub use events::{event_words, push_round_name, push_round_words};
pub use settings::{format_words, push_settings, push_state_words, push_value, state_words};
