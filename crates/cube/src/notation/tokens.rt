//! The tokens of moves.

ghost use Rattle.std.specs.Prelude.{◌≡◌, [], ◌∷◌, ◌++◌, OnOk};
ghost use Rattle.cube.specs.notation.Tokens.{side_letter, axis_letter, stem, token};
ghost use Rattle.cube.specs.notation.model.Scan.{side_named, kind_named, block_of as block_at};
ghost use Rattle.cube.specs.notation.model.Scan.{quarter_named, move_named};

use crate::{Axis, Kind, Move, Quarter, Side};
use std::alloc::AllocError;

/// The side that a letter names.
fn side_of(letter: u8) -> Option<Side>
    ensures { result ≡ side_named letter }
{
    match letter {
        b'U' => Some(Side::U),
        b'R' => Some(Side::R),
        b'F' => Some(Side::F),
        b'D' => Some(Side::D),
        b'L' => Some(Side::L),
        b'B' => Some(Side::B),
        _ => None,
    }
}

/// The face or the rotation that a letter names.
fn kind_of(letter: u8) -> Option<Kind>
    ensures { result ≡ kind_named letter }
{
    match letter {
        b'x' => Some(Kind::Turn(Axis::X)),
        b'y' => Some(Kind::Turn(Axis::Y)),
        b'z' => Some(Kind::Turn(Axis::Z)),
        _ => side_of(letter).map(Kind::Face),
    }
}

/// The outer block at the side that a letter names.
fn block_of(letter: u8) -> Option<Kind>
    ensures { result ≡ block_at (side_named letter) }
{
    side_of(letter).map(Kind::Block)
}

/// How far the mark at a token's end says to turn.
fn quarter_of(mark: u8) -> Option<Quarter>
    ensures { result ≡ quarter_named mark }
{
    match mark {
        b'2' => Some(Quarter::Half),
        b'\'' => Some(Quarter::Anticlockwise),
        _ => None,
    }
}

/// The move whose token the bytes are.
#[tactic(auto, unfolding(crate::specs::notation::model::Scan::move_named))]
pub fn move_of(token: &[u8]) -> Option<Move>
    ensures { result ≡ move_named token.now }
{
    let (kind, quarter) = match token {
        [letter] => (kind_of(*letter)?, Quarter::Clockwise),
        [letter, b'w'] => (block_of(*letter)?, Quarter::Clockwise),
        [letter, b'w', mark] => (block_of(*letter)?, quarter_of(*mark)?),
        [letter, mark] => (kind_of(*letter)?, quarter_of(*mark)?),
        _ => return None,
    };
    Some(Move { kind, quarter })
}

/// The letter of a side.
fn side_byte(side: Side) -> u8
    ensures { result ∷ [] ≡ side_letter side }
{
    match side {
        Side::U => b'U',
        Side::R => b'R',
        Side::F => b'F',
        Side::D => b'D',
        Side::L => b'L',
        Side::B => b'B',
    }
}

/// The letter of a rotation.
fn axis_byte(axis: Axis) -> u8
    ensures { result ∷ [] ≡ axis_letter axis }
{
    match axis {
        Axis::X => b'x',
        Axis::Y => b'y',
        Axis::Z => b'z',
    }
}

/// Writes the token of a move at the end of a text. Where memory runs out, a part of it may be
/// there.
pub fn push_token(text: &mut Vec<u8>, turn: Move) -> Result<(), AllocError>
    ensures { OnOk result (text.new.items ≡ text.old.items ++ token turn) }
{
    push_stem(text, turn.kind)?;
    match turn.quarter {
        Quarter::Clockwise => {}
        Quarter::Half => text.push(b'2')?,
        Quarter::Anticlockwise => text.push(b'\'')?,
    }
    Ok(())
}

/// Writes what a token begins with.
fn push_stem(text: &mut Vec<u8>, kind: Kind) -> Result<(), AllocError>
    ensures { OnOk result (text.new.items ≡ text.old.items ++ stem kind) }
{
    match kind {
        Kind::Face(side) => text.push(side_byte(side))?,
        Kind::Block(side) => {
            text.push(side_byte(side))?;
            text.push(b'w')?;
        }
        Kind::Turn(axis) => text.push(axis_byte(axis))?,
    }
    Ok(())
}
