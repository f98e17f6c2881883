//! Many connections of one desk, each served by turns, in whatever order the turns come: what holds
//! of each of them.
#![tactic(auto)]

pub mod laws;
