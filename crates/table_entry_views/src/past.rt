//! What the log says of how attempts came to count.

use crate::origin::Origin;
use card_forms::Fields;

/// What the log says of how the attempts of a card's competitor came to count as they do.
#[derive(Clone, Copy)]
pub struct Past<'a> {
    /// Which entry was the last on them, if it is known.
    pub origin: Option<Origin<'a>>,
    /// What was entered for each, as it may be typed; empty where that is not known.
    pub filled: &'a Fields,
}
