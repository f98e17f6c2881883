//! A list of moves.

ghost use Rattle.std.specs.Prelude.{◌≡◌, List};

use crate::Move;
use std::marker::Model;

/// Moves in order. Contracts see them as the list.
#[derive(Drop)]
pub struct Moves {
    list: Vec<Move>,
}

impl Model for Moves {
    ghost use Rattle.std.specs.Prelude.{List};
    ghost use Rattle.cube.specs.declared.moves.Move.{Move};

    ghost Value = { List Move };

    ghost view = { λ moves. moves.list.items };
}

impl Moves {
    /// The moves of a list, without taking memory.
    pub fn new(list: Vec<Move>) -> Moves
        ensures { result ≡ list.items }
    {
        Moves { list }
    }

    /// The list, given back without taking memory.
    pub fn into_vec(self) -> Vec<Move>
        ensures { result.items ≡ self }
    {
        let Moves { list } = self;
        list
    }

    /// The moves in order.
    pub fn as_slice(&self) -> &[Move]
        ensures { result.now ≡ self.now }
    {
        self.list.as_slice()
    }
}
