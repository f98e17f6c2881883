//! A mirror that is kept up over connections to the desks of a hall, one at a time, as steps over
//! bytes: what is to be done, what is to be written, and what comes of the bytes that a desk sent.
//! It makes no system call and has no clock.
#![tactic(auto)]

pub mod laws;
mod mirroring;

pub use mirroring::Mirroring;
