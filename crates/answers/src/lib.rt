//! What a desk answers from its log: what has become of a command, and the result sheets. And what
//! the code that serves a desk needs of it.
#![tactic(auto)]

pub mod answers;
pub mod desk;
pub mod fault;
pub mod transcript;

pub use answers::IdState;
pub use desk::Desk;
pub use fault::LogSheetFault;
pub use transcript::Transcript;
