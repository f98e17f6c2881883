//! The cube: turned, looked at, and found solved or not.

ghost use Rattle.std.specs.Prelude.{◌≡◌, ◌<◌, ◌↔◌, List, IsTrue, Some, slice_get};
ghost use Rattle.cube.specs.Turns.{turned, first_arrangement, IsSolved, CarriesStickers};
ghost use Rattle.cube.specs.Turns.{HasNineOfEach};

use crate::moves::{Colour, Move};
use crate::pieces::{Pieces, SOLVED};
use std::marker::Model;

/// A 3x3x3 cube. Contracts see it as its arrangement: the colours of its 54 stickers by the number
/// of their places. That number is 9 times the rank of the side in the order U, R, F, D, L, B, plus
/// `3 * (a + 1) + (b + 1)`, where a and b are the two coordinates that vary on the side, each −1, 0
/// or 1, in the order x (to the right), y (upwards), z (to the front).
#[derive(Drop)]
pub struct Cube {
    pieces: Pieces,
}

impl Model for Cube {
    ghost use Rattle.std.specs.Prelude.{List};
    ghost use Rattle.std.specs.List.Sorted.{IsPermutation};
    ghost use Rattle.cube.specs.declared.moves.Colour.{Colour};
    ghost use Rattle.cube.specs.Turns.{first_arrangement};
    ghost use Rattle.cube.specs.model.Pieces.{colours_of};

    ghost Value = { List Colour };

    ghost view = { λ cube. colours_of cube.pieces };

    ghost invariant = { λ cube. IsPermutation first_arrangement (colours_of cube.pieces) };
}

impl Cube {
    /// The cube of the first arrangement, where each sticker has the colour of its side.
    pub fn solved() -> Cube
        ensures first { result ≡ first_arrangement }
        ensures solved { IsSolved result }
        ensures colours { HasNineOfEach result }
    {
        Cube { pieces: SOLVED }
    }

    /// Makes a move (WCA Regulations, article 12): turns a layer, an outer block of two layers or
    /// the whole cube once, twice or three times by a quarter. Takes constant time and no memory.
    pub fn turn(&mut self, turn: Move)
        ensures arrangement { self.new ≡ turned turn self.old }
        // Each sticker is where the quarter turns of space take it.
        ensures stickers { CarriesStickers turn self.old self.new }
        // No colour is lost or made.
        ensures colours { HasNineOfEach self.new }
    {
        self.pieces = self.pieces.turned(turn);
    }

    /// The colour of the sticker at a place, by the place's number, which is below 54.
    pub fn sticker(&self, place: u8) -> Colour
        requires { place < 54 }
        ensures { slice_get self.now place ≡ Some result }
    {
        self.pieces.colours()[usize::from(place)]
    }

    /// Whether each side shows one colour, however the cube is held: any two stickers that face one
    /// way have one colour.
    pub fn is_solved(&self) -> bool
        ensures { IsTrue result ↔ IsSolved self.now }
    {
        shows_one_colour_a_side(&self.pieces.colours())
    }
}

/// Whether each nine stickers, from the first on, have one colour.
fn shows_one_colour_a_side(colours: &[Colour; 54]) -> bool
    ensures { IsTrue result ↔ IsSolved colours.now }
{
    for (place, colour) in colours.iter().enumerate() {
        if *colour != colours[place / 9 * 9] {
            return false;
        }
    }
    true
}
