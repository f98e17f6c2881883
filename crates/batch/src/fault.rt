//! Why not all lines were entered.

use client::ClientFault;
use thiserror::Error;

/// Why not all lines were entered. Its text is one line for people.
#[derive(Clone, Copy, Debug, PartialEq, Eq, Error)]
pub enum BatchFault {
    /// A line has more than 600 bytes.
    #[error("text too long")]
    TextTooLong,
    /// The next id would be above 2^63 - 1.
    #[error("no more ids")]
    NoMoreIds,
    /// Nobody answers at the desk's address.
    #[error("cannot connect")]
    CannotConnect,
    /// The desk has no answer, or refuses.
    #[error("{0}")]
    Asking(ClientFault),
    /// The desk was waited for as long as is wanted, and there is no answer.
    #[error("no answer in time")]
    Late,
    /// The desk was asked under a key, and asks for none.
    #[error("the desk has no key")]
    NoKey,
    /// The desk has another key than the one under which it was asked.
    #[error("the desk has another key")]
    OtherKey,
    /// The desk was asked without a key, and asks for one.
    #[error("the desk has a key")]
    HasKey,
    /// The desk took the command and did not decide it.
    #[error("still pending")]
    StillPending,
    /// The desk took the command and has lost it: it was started again in between.
    #[error("lost")]
    Lost,
    /// Under this id another command is in the log.
    #[error("another command's id")]
    AnotherCommand,
    /// A command was refused, and the run was to end there.
    #[error("stopped at a refusal")]
    AtRefusal,
    /// What was answered can't be printed.
    #[error("cannot write")]
    Write,
    /// Memory ran out.
    #[error("no memory")]
    NoMemory,
}
