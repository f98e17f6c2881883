//! Reading moves in notation.

ghost use Rattle.std.specs.Prelude.{◌≡◌, ◌≤◌, ◌↔◌, ℕ, List, [], length, Ok, Err};
ghost use Rattle.cube.specs.declared.moves.Move.{Move};
ghost use Rattle.cube.specs.notation.Notation.{Spells, IsBadTokenAt, IsTooMany, IsUnlessNoMemory};
ghost use Rattle.cube.specs.notation.model.Scan.{word_len as length_of_word, scan};
ghost use Rattle.cube.specs.notation.model.Scan.{space_len as length_of_spaces, behind_spaces};

use crate::notation::moves::Moves;
use crate::notation::tokens::move_of;
use std::alloc::{AllocError, AllocFailed, Global};

/// The most moves that are read, rotations included.
pub const MOST_MOVES: usize = 400;

/// Why a text is not read. Offsets are in bytes, from 0.
#[derive(Clone, Copy, PartialEq, Eq, Debug)]
pub enum NotationFault {
    /// The text has no bytes.
    Empty,
    /// A token was expected at this offset, and no move is there up to the next space or the end.
    BadToken { at: usize },
    /// Behind 400 moves and one or more spaces another byte comes, whatever follows it.
    TooMany,
    /// Memory ran out.
    NoMemory,
}

impl From<AllocError> for NotationFault {
    ghost use Rattle.std.specs.Prelude.{◌≡◌};
    ghost use Rattle.cube.specs.declared.notation.reading.NotationFault.TheVariants.{NoMemory};

    ghost from_gives = { λ _ fault. fault ≡ NoMemory };

    fn from(_: AllocError) -> NotationFault {
        NotationFault::NoMemory
    }
}

impl<T: Drop> From<AllocFailed<T>> for NotationFault {
    ghost use Rattle.std.specs.Prelude.{◌≡◌};
    ghost use Rattle.cube.specs.declared.notation.reading.NotationFault.TheVariants.{NoMemory};

    ghost from_gives = { λ _ fault. fault ≡ NoMemory };

    fn from(_: AllocFailed<T>) -> NotationFault {
        NotationFault::NoMemory
    }
}

/// Reads a text in notation (WCA Regulations, article 12): the tokens of 1 to 400 moves, parted by
/// one or more spaces, none at the ends. A token is the letter of a face (`F`, `B`, `R`, `L`, `U`,
/// `D`), that letter and `w` for the outer block of two layers, or `x`, `y`, `z` for a turn of the
/// whole cube; then nothing for a quarter turn clockwise, `'` for one against the clock, or `2` for
/// a half turn.
///
/// A text without bytes is `Empty`. Otherwise the text is read from the left, and the first token
/// that is none is reported as `BadToken`, or, behind 400 moves and a space, the first further byte
/// as `TooMany`. `NoMemory` comes only where a growth was refused, in place of any of these but
/// `Empty`.
pub fn read(alloc: Global, text: &[u8]) -> Result<Moves, NotationFault>
    // What is read is spelled so, and has at most 400 moves.
    ensures found { (moves : List Move) → result ≡ Ok moves
        → Spells text.now moves × (length moves ≤ 400) }
    // What is spelled so, with at most 400 moves, is read, unless memory runs out.
    ensures only { (moves : List Move) → Spells text.now moves → length moves ≤ 400
        → IsUnlessNoMemory result (Ok moves) }
    ensures empty { (result ≡ Err NotationFault.Empty) ↔ (text.now ≡ []) }
    ensures bad_token { (at : ℕ) → result ≡ Err (NotationFault.BadToken at)
        → IsBadTokenAt text.now at }
    ensures bad_token_only { (at : ℕ) → IsBadTokenAt text.now at
        → IsUnlessNoMemory result (Err (NotationFault.BadToken at)) }
    ensures too_many { result ≡ Err NotationFault.TooMany → IsTooMany text.now }
    ensures too_many_only { IsTooMany text.now
        → IsUnlessNoMemory result (Err NotationFault.TooMany) }
{
    if text.is_empty() {
        return Err(NotationFault::Empty);
    }
    read_tokens(alloc, text)
}

/// Reads a text that is not empty.
fn read_tokens(alloc: Global, text: &[u8]) -> Result<Moves, NotationFault>
    ensures { IsUnlessNoMemory result (scan (length text.now) 400 text.now) }
{
    let mut moves = Vec::new(alloc);
    let mut rest = text;
    for _taken in 0..MOST_MOVES {
        let (word, behind) = rest.split_at(word_len(rest));
        let Some(turn) = move_of(word) else {
            return Err(NotationFault::BadToken {
                at: text.len() - rest.len(),
            });
        };
        moves.push(turn)?;
        if behind.is_empty() {
            return Ok(Moves::new(moves));
        }
        rest = without_spaces(behind);
    }
    if rest.is_empty() {
        Err(NotationFault::BadToken { at: text.len() })
    } else {
        Err(NotationFault::TooMany)
    }
}

/// How many bytes are before the first space, or the end.
fn word_len(bytes: &[u8]) -> usize
    ensures value { result ≡ length_of_word bytes.now }
    ensures within { result ≤ length bytes.now }
{
    bytes.iter().take_while(|byte| **byte != b' ').count()
}

/// What is behind the spaces at the front.
fn without_spaces(bytes: &[u8]) -> &[u8]
    ensures { result.now ≡ behind_spaces bytes.now }
{
    &bytes[space_len(bytes)..]
}

/// How many spaces are at the front.
fn space_len(bytes: &[u8]) -> usize
    ensures value { result ≡ length_of_spaces bytes.now }
    ensures within { result ≤ length bytes.now }
{
    bytes.iter().take_while(|byte| **byte == b' ').count()
}
