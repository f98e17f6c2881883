//! Counting and printing moves.

ghost use Rattle.std.specs.Prelude.{◌≡◌, ◌≤◌, length, IfOk};
ghost use Rattle.cube.specs.notation.Notation.{turn_count, is_turn as is_counted, spelling};

use crate::notation::tokens::push_token;
use crate::{Kind, Move};
use std::alloc::{AllocError as NoMemory, Global};

/// The number of moves in the outer block turn metric (WCA Regulations, article 12): a face or
/// block move counts 1 and a rotation 0. For lists of at most 400 moves.
pub fn count(moves: &[Move]) -> u32
    requires { length moves.now ≤ 400 }
    ensures { result ≡ turn_count moves.now }
{
    moves.iter().filter(|turn| is_turn(turn.kind)).count() as u32
}

/// Writes moves in notation, with one space between neighbours. Of no moves it is the empty text.
/// It is `NoMemory` only where a growth was refused.
pub fn print(alloc: Global, moves: &[Move]) -> Result<Vec<u8>, NoMemory>
    ensures { IfOk result (λ text. text.items ≡ spelling moves.now) }
{
    let mut text = Vec::new(alloc);
    for (place, turn) in moves.iter().enumerate() {
        if place > 0 {
            text.push(b' ')?;
        }
        push_token(&mut text, *turn)?;
    }
    Ok(text)
}

/// Whether a move of this kind counts.
fn is_turn(kind: Kind) -> bool
    ensures { result ≡ is_counted kind }
{
    match kind {
        Kind::Face(_) | Kind::Block(_) => true,
        Kind::Turn(_) => false,
    }
}
