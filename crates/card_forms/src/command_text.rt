//! The text of a command.

ghost use Rattle.std.specs.Prelude.{◌≡◌, ◌≤◌, length};
ghost use Rattle.std.specs.Option.{SomeIff};

use std::marker::Model;

/// The text of a command, as it is sent: 0 to 600 bytes. A contract sees its bytes.
#[derive(Drop)]
pub struct CommandText {
    bytes: Vec<u8>,
}

impl Model for CommandText {
    ghost use Rattle.std.specs.Prelude.{List, ℕ, ◌≤◌, length};

    ghost Value = { List ℕ };

    ghost view = { λ text. text.bytes.items };

    ghost invariant = { λ text. length text.bytes.items ≤ 600 };
}

impl CommandText {
    /// The most bytes, 600.
    const MOST: usize = 600;

    /// A text of these bytes, without taking memory. None: they are more than 600.
    pub fn new(bytes: Vec<u8>) -> Option<CommandText>
        ensures { SomeIff result (length bytes.items ≤ 600) bytes.items }
    {
        if bytes.len() > CommandText::MOST {
            return None;
        }
        Some(CommandText { bytes })
    }

    /// The bytes.
    pub fn as_bytes(&self) -> &[u8]
        ensures bytes { result.now ≡ self.now }
        ensures most { length result.now ≤ 600 }
    {
        &self.bytes
    }
}
