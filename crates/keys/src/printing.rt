//! A key's text.

ghost use Rattle.std.specs.Prelude.{◌≡◌, IfOk, string_bytes};
ghost use Rattle.hex.specs.Hex.{encode_lower};
ghost use Rattle.keys.specs.Keys.{ReadsBack};

use std::alloc::{AllocError, Global};

/// The key as 64 digits, in lower case, without a line feed. With one after it, as a file has it,
/// `read_key` gives the key.
pub fn print_key(alloc: Global, key: &[u8; 32]) -> Result<String, AllocError>
    ensures text { IfOk result (λ text. string_bytes text ≡ encode_lower key.now) }
    ensures back { IfOk result (λ text. ReadsBack key.now (string_bytes text)) }
{
    let text = hex::encode(alloc, key.as_slice())?;
    Ok(text)
}
