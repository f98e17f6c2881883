//! What an entrant did, and what the table keeps of it.

use crate::kept::EntrantResult;
use crate::value_row::ValueRow;

/// An entrant's values, with what they make and the place. The packed key is the key as one number,
/// so that many of them are soon compared.
#[derive(Drop)]
pub(crate) struct KeptEntrant {
    pub row: ValueRow,
    pub kept: EntrantResult,
    pub packed_key: u64,
}
