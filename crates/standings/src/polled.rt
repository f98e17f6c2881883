//! What came of asking a desk how it is.

use wire::{ClientRefusal, DeskStatus};

/// What came of asking a desk how it is.
#[derive(Clone, Copy, Debug)]
pub enum StatusReply {
    /// The desk of this number, 1 to 5, is so. It is another one than was asked for where the
    /// addresses are not in the order of the desks.
    Stands { desk: u8, standing: DeskStatus },
    /// The desk of this number, 1 to 5, answers other requests, and not this one: it is of an
    /// earlier program.
    Earlier { desk: u8 },
    /// Nobody answers at the address.
    CannotConnect,
    /// The connection ended, and the bytes that came are not the answer.
    NoAnswer,
    /// The desk was waited for as long as is wanted, and there is no answer.
    Late,
    /// The desk was asked under a key, and asks for none.
    NoKey,
    /// The desk has another key than the one under which it was asked.
    OtherKey,
    /// The desk was asked without a key, and asks for one.
    HasKey,
    /// The desk refused.
    Refused { refusal: ClientRefusal },
}

/// A desk that was asked.
#[derive(Clone, Copy, Debug)]
pub struct PolledDesk<'a> {
    /// The number of the desk that was asked for, at least 1.
    pub asked: u8,
    /// Where it was asked.
    pub address: &'a str,
    /// What came of it.
    pub reply: StatusReply,
    /// The first of the last positions that all logs have, 400 at most, at which its log has
    /// another entry than that of the first desk that said how it is, 0 to 65,535.
    pub other: Option<u32>,
}
