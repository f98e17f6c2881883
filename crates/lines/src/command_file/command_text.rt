//! A command of an input.

ghost use Rattle.std.specs.Prelude.{◌≡◌};
ghost use Rattle.lines.specs.command_file.Commands.{numbered};

use std::marker::Model;

/// A command of an input: the number of its line, counted from 1, and its text.
#[derive(Debug, Drop)]
pub struct InputCommand {
    number: u32,
    text: Vec<u8>,
}

impl Model for InputCommand {
    ghost use Rattle.lines.specs.command_file.Commands.{Numbered};

    ghost Value = { Numbered };

    ghost view = { λ c. record { number = c.number; text = c.text.items } };
}

impl InputCommand {
    /// The command of the line with this number, without taking memory.
    pub fn new(number: u32, text: Vec<u8>) -> Self
        ensures { result ≡ numbered number text.items }
    {
        InputCommand { number, text }
    }

    /// The number of its line, counted from 1.
    pub fn number(&self) -> u32
        ensures { result ≡ self.now.number }
    {
        self.number
    }

    /// Its text, without what ends its line.
    pub fn text(&self) -> &[u8]
        ensures { result.now ≡ self.now.text }
    {
        &self.text
    }
}
