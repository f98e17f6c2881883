//! Moves of the cube, and the sides, axes and colours that they are said by.

ghost use Rattle.std.specs.Prelude.{◌≡◌};
ghost use Rattle.cube.specs.{Stickers.opposite, Turns.inverse, Turns.Undoes, Turns.opposite_colour};

/// A side of the cube as it is held: up, right, front, down, left and back.
#[derive(Clone, Copy, PartialEq, Eq, Debug)]
pub enum Side {
    U,
    R,
    F,
    D,
    L,
    B,
}

/// An axis through the cube: `X` points to the right side, `Y` to the upper and `Z` to the front
/// one.
#[derive(Clone, Copy, PartialEq, Eq, Debug)]
pub enum Axis {
    X,
    Y,
    Z,
}

/// What a move turns.
#[derive(Clone, Copy, PartialEq, Eq, Debug)]
pub enum Kind {
    /// The layer at a side.
    Face(Side),
    /// The layer at a side and the middle one next to it, an outer block.
    Block(Side),
    /// The whole cube about an axis.
    Turn(Axis),
}

/// How far a move turns, seen from outside at its side, or at the side that its axis points to.
#[derive(Clone, Copy, PartialEq, Eq, Debug)]
pub enum Quarter {
    /// One quarter turn.
    Clockwise = 1,
    /// Two quarter turns.
    Half = 2,
    /// Three quarter turns, which is one against the clock.
    Anticlockwise = 3,
}

/// One move of the cube (WCA Regulations, article 12).
#[derive(Clone, Copy, PartialEq, Eq, Debug)]
pub struct Move {
    /// What it turns.
    pub kind: Kind,
    /// How far it turns it.
    pub quarter: Quarter,
}

/// The colour of a sticker, named by the side at which it is on the cube that the first arrangement
/// shows.
#[derive(Clone, Copy, PartialEq, Eq, Debug)]
pub enum Colour {
    U,
    R,
    F,
    D,
    L,
    B,
}

impl Move {
    /// The move that takes this one back.
    pub fn inverse(self) -> Move
        ensures move_back { result ≡ inverse self }
        ensures undoes { Undoes self result }
    {
        let quarter = match self.quarter {
            Quarter::Clockwise => Quarter::Anticlockwise,
            Quarter::Half => Quarter::Half,
            Quarter::Anticlockwise => Quarter::Clockwise,
        };
        Move {
            kind: self.kind,
            quarter,
        }
    }
}

impl Side {
    /// The side across the cube.
    pub fn opposite(self) -> Side
        ensures { result ≡ opposite self }
    {
        match self {
            Side::U => Side::D,
            Side::R => Side::L,
            Side::F => Side::B,
            Side::D => Side::U,
            Side::L => Side::R,
            Side::B => Side::F,
        }
    }
}

impl Colour {
    /// The colour at the opposite side of a solved cube.
    pub fn opposite(self) -> Colour
        ensures { result ≡ opposite_colour self }
    {
        match self {
            Colour::U => Colour::D,
            Colour::R => Colour::L,
            Colour::F => Colour::B,
            Colour::D => Colour::U,
            Colour::L => Colour::R,
            Colour::B => Colour::F,
        }
    }
}
