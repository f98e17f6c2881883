//! What is said to a desk of a hall over one connection, as steps over bytes: one question after
//! the other, each with its answer. It makes no system call and has no clock.
//!
//! [`Exchange`] is what is said over one connection; [`KeptConnection`] keeps a connection to one
//! desk up, and says when it may be asked; [`Dialogue`] is whatever wants a connection to a desk,
//! and what is to be done for it.
#![tactic(auto)]

mod dialogue;
mod exchange;
mod kept_connection;

pub use dialogue::{ConnectionPhase, Dialogue, DialogueAction, ReceiveOutcome};
pub use exchange::{AnswerOutcome, Exchange};
pub use kept_connection::{ConnectionStage, DueAction, KeptConnection};
