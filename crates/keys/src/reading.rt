//! The key that a text spells.

ghost use Rattle.std.specs.Prelude.{◌≡◌, ◌↔◌, length, IfSome, IsSome};
ghost use Rattle.std.specs.List.{AllPass};
ghost use Rattle.hex.specs.Hex.{decode_of, is_hex_digit};
ghost use Rattle.keys.specs.Keys.{digits_of};

use hex::FromHex;

/// The text without a line feed at its end.
fn digits_of(text: &[u8]) -> &[u8]
    ensures { result.now ≡ digits_of text.now }
{
    match text.split_last() {
        Some((last, front)) if *last == b'\n' => front,
        _ => text,
    }
}

/// The key that a text spells: 64 hexadecimal digits of either case, of which two are a byte, and
/// at most one line feed after them. None for any other text.
pub fn read_key(text: &[u8]) -> Option<[u8; 32]>
    ensures value { IfSome result (λ key. decode_of (digits_of text.now) ≡ Ok key) }
    ensures found { IsSome result ↔ ((length (digits_of text.now) ≡ 64)
        × AllPass is_hex_digit (digits_of text.now)) }
{
    let digits = digits_of(text);
    <[u8; 32] as FromHex>::from_hex(digits).ok()
}
