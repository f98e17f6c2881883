//! Solutions of fewest moves.

ghost use Rattle.std.specs.Prelude.{◌≡◌, ◌≤◌, IfOk};
ghost use Rattle.scorecard.specs.{Spelling.mended, Reading.ReadsSolution};

use crate::fault::ScorecardFault;
use cube::notation::NotationFault;
use std::alloc::{AllocError, Global};
use texts::Entered;

/// The bytes of a typographic apostrophe.
const APOSTROPHE: &[u8] = b"\xe2\x80\x99";

/// The text with a plain apostrophe for each typographic one.
fn mended(alloc: Global, bytes: &[u8]) -> Result<Vec<u8>, AllocError>
    ensures { IfOk result (λ text. text.items ≡ mended bytes.now) }
{
    let mut text = Vec::new(alloc);
    let mut skipped: u8 = 0;
    for (place, byte) in bytes.iter().enumerate() {
        if skipped > 0 {
            skipped -= 1;
        } else if bytes[place..].starts_with(APOSTROPHE) {
            text.push(b'\'')?;
            skipped = 2;
        } else {
            text.push(*byte)?;
        }
    }
    Ok(text)
}

/// A solution, with plain or typographic apostrophes, or `NotMoves` where it is none. `NoMemory`
/// comes only where memory is wanting.
pub fn solution_of(alloc: Global, bytes: &[u8]) -> Result<Entered, ScorecardFault>
    ensures { ReadsSolution bytes.now result }
{
    let text = mended(alloc, bytes)?;
    match cube::notation::read(alloc, &text) {
        Ok(moves) => Ok(Entered::Solution { moves }),
        Err(NotationFault::NoMemory) => Err(ScorecardFault::NoMemory),
        Err(_) => Err(ScorecardFault::NotMoves),
    }
}
