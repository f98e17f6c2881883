//! Sealed streams: what is sent carries tags under a key that the sides of a hall share, and what
//! comes is handed on up to the first tag that does not fit.
//!
//! Nothing that desks say is secret, so a sealed stream is authenticated and not encrypted. Each
//! side sends its `preface`. Both then know the connection's key, and what each side sends is
//! records: a body, and its tag under that key. A `Sealer` makes the records of one direction, and
//! an `Opener` gives back the bodies of those whose tags fit, up to the first that does not.
#![tactic(auto)]

pub mod channel;
pub mod fault;
mod front;
pub mod laws;
mod mac;
mod opener;
mod prefaces;
mod record;
mod sealer;

pub use channel::{Channel, Direction};
pub use fault::{SealFault, StreamFault};
pub use mac::{hmac, hmac_of_parts};
pub use opener::{OpenedStream, Opener, open_pieces};
pub use prefaces::{connection_key, is_sealed, preface, random_of};
pub use sealer::Sealer;
pub use std::alloc::AllocError as NoMemory;
