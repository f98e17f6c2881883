//! Laws of the definitions: the tests that they compute by are what they say of stickers.

ghost use Rattle.std.specs.Prelude.{List};
ghost use Rattle.cube.specs.declared.moves.{Colour.Colour, Move.Move};
ghost use Rattle.fmc_check.specs.Fewest.{TestsSolved, TestsSolution};

use cube::fifty_four_stickers;

/// An arrangement is solved, any two stickers that face one way having one colour, exactly where
/// each sticker has the colour of the one in the middle of its side.
pub fn solved_is_tested()
    ensures { (arrangement : List Colour) → TestsSolved arrangement }
{
    fifty_four_stickers();
}

/// The test by which a result is defined holds of exactly the solutions: at most 80 moves,
/// rotations included, with which the scramble ends solved.
pub fn solution_is_tested()
    ensures { (scramble solution : List Move) → TestsSolution scramble solution }
{
    solved_is_tested();
}
