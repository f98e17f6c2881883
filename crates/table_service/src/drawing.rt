//! What is drawn at random.

use card_forms::FormId;
use std::io;
use std::io::{Error, ErrorKind};
use std::random::RandomSource;

/// The id of a form: 63 random bits, in its range.
fn drawn_id<R: RandomSource>(source: &R) -> io::Result<FormId> {
    let mut bytes = [0; 8];
    source.fill_bytes(&mut bytes)?;
    let number = u64::from_le_bytes(bytes) % FormId::MOST + 1;
    FormId::new(number).ok_or(Error::from(ErrorKind::InvalidData))
}

/// The ids of the forms of a page.
pub(crate) fn drawn_ids<R: RandomSource>(source: &R) -> io::Result<[FormId; 32]> {
    let first = drawn_id(source)?;
    let mut ids = [first; 32];
    for id in &mut ids {
        *id = drawn_id(source)?;
    }
    Ok(ids)
}
