//! No desk of a hall is stuck.
//!
//! Agreement says what can't happen. This crate says what can: whatever was lost, late or repeated
//! and whichever desks restarted, every majority of the desks can still decide what a desk of it
//! has queued, as long as its logs have room and enough numbers are left, by Ticks of that desk and
//! messages that are sent from then on among that majority alone. No promise is made that somebody
//! ticks, or that the messages come.
#![tactic(auto)]

pub mod laws;
pub mod witness;
