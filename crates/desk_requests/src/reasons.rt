//! Why a command is not decided yet.

use std::alloc::Global;

/// Says why a command is not decided yet. It is only said to people: nothing else depends on it.
pub trait Reasons {
    /// In a few words, as `desk 3 alone is reached, a majority is 2`. None where nothing is known
    /// of it.
    fn reason(&mut self, alloc: Global) -> Option<Vec<u8>>;
}

/// Nothing is known of it.
#[derive(Clone, Copy, Debug)]
pub struct NoReasons;

impl Reasons for NoReasons {
    fn reason(&mut self, _alloc: Global) -> Option<Vec<u8>> {
        None
    }
}
