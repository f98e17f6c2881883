//! Why a fault came: after its line, a second one says what was met when it was looked again, and
//! what to do.
//!
//! Looking again opens the store or the address once more, or asks the desk once more over a
//! connection of its own. It changes nothing that a desk has.
#![tactic(auto)]

mod addresses;
mod files;
mod findings;
mod looking;
mod matters;
mod sentences;
mod telling;
mod told;

pub use files::room_beside;
pub use findings::{
    AddressFinding, CommandCount, DeskName, FileFinding, Finding, KeyFinding, OtherDesk,
};
pub use matters::FaultSubject;
pub use telling::{explain, explain_listening, is_wanted};
