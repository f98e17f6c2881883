//! What the texts of tags and of keys tell, cases of HMAC-SHA-256, and what the two sides of a
//! sealed connection hear of each other. Each is the contract of a function that does nothing.
#![tactic(auto)]

mod laws;

pub use laws::{
    both_sides_hear, keys_are_of_both_sides, replays_stop_or_collide, tags_are_of_records,
    worked_hmac,
};
