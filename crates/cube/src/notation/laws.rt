//! Laws of the notation.

ghost use Rattle.std.specs.Prelude.{◌≡◌, ◌<◌, ℕ, List, length};
ghost use Rattle.cube.specs.declared.moves.Move.{Move};
ghost use Rattle.cube.specs.notation.Notation.{Spells, spelling};

/// What is printed of at least one move spells it, so that `read` gives the moves again where they
/// are at most 400.
pub fn printed_is_spelled()
    ensures { (moves : List Move) → 0 < length moves → Spells (spelling moves) moves }
{}

/// No text spells two lists of moves.
pub fn one_reading()
    ensures { (text : List ℕ) (a b : List Move) → Spells text a → Spells text b → a ≡ b }
{}
