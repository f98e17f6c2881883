//! The front of a stream, of which bytes are held until it is known what the stream is.

ghost use Rattle.std.specs.Prelude.{◌≡◌, ◌≤◌, length, vec_capacity};
ghost use Rattle.sealed.specs.model.Steps.{IsFront, IsHeld};

use seal::{is_sealed, random_of};

/// The bytes of a preface.
pub(crate) const PREFACE: usize = 20;

/// The bytes that tell whether a stream is sealed.
const MARK: usize = 4;

/// Holds bytes of a piece after those that are held, up to those of a preface. Their number.
pub(crate) fn hold(held: &mut Vec<u8>, piece: &[u8]) -> usize
    requires { 20 ≤ vec_capacity held.old }
    ensures held { IsHeld piece.now held.old.items held.new.items result }
    ensures room { vec_capacity held.old ≤ vec_capacity held.new }
{
    let added = PREFACE.saturating_sub(held.len()).min(piece.len());
    held.extend_from_slice(&piece[..added]).unwrap();
    added
}

/// What the first bytes of a stream tell of it.
#[derive(Clone, Copy)]
pub(crate) enum StreamFront {
    /// Nothing yet.
    Short,
    /// It is not sealed.
    Unsealed,
    /// It is sealed: a preface with these random bytes.
    Sealed { random: [u8; 16] },
}

/// What fewer bytes than those of a preface tell.
fn front_of_few(bytes: &[u8]) -> StreamFront
    requires { length bytes.now ≤ 19 }
    ensures { IsFront result bytes.now }
{
    if bytes.len() < MARK {
        return StreamFront::Short;
    }
    let mut first = [0; MARK];
    first.copy_from_slice(&bytes[..MARK]);
    if is_sealed(&first) {
        StreamFront::Short
    } else {
        StreamFront::Unsealed
    }
}

/// What the first bytes tell.
pub(crate) fn front_of(bytes: &[u8]) -> StreamFront
    requires { length bytes.now ≤ 20 }
    ensures { IsFront result bytes.now }
{
    if bytes.len() < PREFACE {
        return front_of_few(bytes);
    }
    let mut preface = [0; PREFACE];
    preface.copy_from_slice(bytes);
    match random_of(&preface) {
        Some(random) => StreamFront::Sealed { random },
        None => StreamFront::Unsealed,
    }
}
