//! The words and signs of no result.

ghost use Rattle.std.specs.Prelude.{◌≡◌, map, bytes_eq};
ghost use Rattle.std.specs.Char.{to_ascii_lowercase};
ghost use Rattle.scorecard.specs.Spelling.{is_dnf, is_dns};

use attempts::Unit;

/// Whether the bytes are a word in small letters, or in capital ones.
fn is_word(bytes: &[u8], word: &[u8]) -> bool
    ensures { result ≡ bytes_eq (map to_ascii_lowercase bytes.now) word.now }
{
    if bytes.len() != word.len() {
        return false;
    }
    for (place, byte) in bytes.iter().enumerate() {
        if byte.to_ascii_lowercase() != word[place] {
            return false;
        }
    }
    true
}

/// Whether this says that an attempt was not finished: `dnf`, `/`, and but in fewest moves `d`.
pub fn is_dnf(unit: Unit, bytes: &[u8]) -> bool
    ensures { result ≡ is_dnf unit bytes.now }
{
    match unit {
        Unit::Moves => is_word(bytes, b"dnf") || is_word(bytes, b"/"),
        Unit::Time | Unit::Multi => {
            is_word(bytes, b"d") || is_word(bytes, b"dnf") || is_word(bytes, b"/")
        }
    }
}

/// Whether this says that an attempt was not started: `dns`, `*`, and but in fewest moves `s`.
pub fn is_dns(unit: Unit, bytes: &[u8]) -> bool
    ensures { result ≡ is_dns unit bytes.now }
{
    match unit {
        Unit::Moves => is_word(bytes, b"dns") || is_word(bytes, b"*"),
        Unit::Time | Unit::Multi => {
            is_word(bytes, b"s") || is_word(bytes, b"dns") || is_word(bytes, b"*")
        }
    }
}
