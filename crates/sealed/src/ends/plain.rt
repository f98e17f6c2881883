//! What a caller without a key is handed on.

ghost use Rattle.std.specs.Prelude.{◌≡◌, ◌≤◌, ◌++◌, IfOk, length, take, vec_capacity};
ghost use Rattle.sealed.specs.ends.Plain.{begins_mark, is_mark, passed};

use crate::NoMemory;
use std::alloc::Global;

/// The bytes that a desk's preface begins with, and no frame does.
const MARK: [u8; 4] = [0x44, 0x53, 0x4B, 0x31];

/// The bytes that tell whether a desk asks for a key.
pub(crate) const FRONT: usize = MARK.len();

/// Holds bytes of a piece after those that are held, up to four.
pub(crate) fn hold(held: &mut Vec<u8>, piece: &[u8])
    requires room { 4 ≤ vec_capacity held.old }
    requires few { length held.old.items ≤ 4 }
    ensures held { held.new.items ≡ take 4 (held.old.items ++ piece.now) }
    ensures room { vec_capacity held.old ≤ vec_capacity held.new }
{
    let added = (FRONT - held.len()).min(piece.len());
    held.extend_from_slice(&piece[..added]).unwrap();
}

/// Whether these bytes, at most four, are the first ones of the four that a desk's preface begins
/// with.
fn begins_mark(bytes: &[u8]) -> bool
    ensures { result ≡ begins_mark bytes.now }
{
    MARK.starts_with(bytes)
}

/// Whether these bytes are the four that a desk's preface begins with.
pub(crate) fn is_mark(bytes: &[u8]) -> bool
    ensures { result ≡ is_mark bytes.now }
{
    bytes == MARK.as_slice()
}

/// What is handed on with a piece, where the first bytes so far are these, at most four, and were
/// this many before it.
pub(crate) fn passed(
    alloc: Global,
    front: &[u8],
    before: usize,
    piece: &[u8],
) -> Result<Vec<u8>, NoMemory>
    requires { before ≤ length front.now }
    ensures { IfOk result (λ more.
        more.items ≡ passed (take before front.now) front.now piece.now) }
{
    if begins_mark(front) {
        return Ok(Vec::new(alloc));
    }
    let held = &front[..before];
    if !begins_mark(held) {
        return Vec::from_slice(alloc, piece);
    }
    let mut more = Vec::with_capacity(alloc, held.len() + piece.len())?;
    more.extend_from_slice(held)?;
    more.extend_from_slice(piece)?;
    Ok(more)
}
