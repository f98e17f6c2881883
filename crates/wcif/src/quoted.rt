//! A text of a competition's file that is shown.

ghost use Rattle.std.specs.Prelude.{◌≡◌, IfOk};

use attempts::NoMemory;
use std::alloc::Global;
use std::fmt;
use std::marker::Model;

/// A text as it is shown: in double quotes, with escapes for what is not seen. A character that is
/// cut at its end is left out.
#[derive(Debug, Drop)]
pub struct Quoted {
    bytes: Vec<u8>,
}

impl Model for Quoted {
    ghost use Rattle.std.specs.Prelude.{List, ℕ};

    ghost Value = { List ℕ };

    ghost view = { λ text. text.bytes.items };
}

impl Quoted {
    /// A text to be shown, copied.
    pub fn of(alloc: Global, text: &[u8]) -> Result<Self, NoMemory>
        ensures { IfOk result (λ told. told ≡ text.now) }
    {
        let mut bytes = Vec::new(alloc);
        bytes.extend_from_slice(text)?;
        Ok(Quoted { bytes })
    }

    /// The text.
    pub fn as_bytes(&self) -> &[u8]
        ensures { result.now ≡ self.now }
    {
        &self.bytes
    }
}

/// The text up to a place; nothing where it is none.
fn front_of(bytes: &[u8], place: usize) -> &str {
    if place > bytes.len() {
        return "";
    }
    str::from_utf8(&bytes[..place]).unwrap_or("")
}

impl fmt::Display for Quoted {
    fn fmt<W: fmt::Write>(&self, f: &mut fmt::Formatter<W>) -> fmt::Result {
        let text = match str::from_utf8(&self.bytes) {
            Ok(text) => text,
            Err(error) => front_of(&self.bytes, error.valid_up_to()),
        };
        write!(f, "{text:?}")
    }
}
