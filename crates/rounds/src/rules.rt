//! How a round is ranked and cut off.

use attempts::Unit;
use formats::Format;

/// How a round is run. The unit never changes, the others may while nobody has done an attempt.
#[derive(Clone, Copy)]
pub(crate) struct Rules {
    pub format: Format,
    pub unit: Unit,
    pub cutoff: Option<(u8, u32)>,
}
