//! Numbers in decimal.

ghost use Rattle.std.specs.Prelude.{◌≡◌, ◌≤◌, ◌<◌, ◌↔◌, ℕ, Some, IfSome, decimal, length, true};
ghost use Rattle.std.specs.{Char.is_ascii_digit, List.list_all};
ghost use Rattle.texts.specs.{Numerals.digits_value, model.Numeral.is_numeral};
ghost use Rattle.texts.specs.Fields.{number_between};

/// Whether all bytes are decimal digits.
fn is_digits(bytes: &[u8]) -> bool
    ensures { result ≡ list_all is_ascii_digit bytes.now }
{
    for byte in bytes {
        if !byte.is_ascii_digit() {
            return false;
        }
    }
    true
}

/// Whether there are one to nineteen decimal digits, with no zero in front of another.
fn is_numeral(bytes: &[u8]) -> bool
    ensures { result ≡ is_numeral bytes.now }
{
    !bytes.is_empty()
        && bytes.len() <= 19
        && is_digits(bytes)
        && (bytes.len() == 1 || bytes[0] != b'0')
}

/// The number that digits stand for.
fn digits_value(bytes: &[u8]) -> u64
    requires few { length bytes.now ≤ 19 }
    requires digits { list_all is_ascii_digit bytes.now ≡ true }
    ensures { result ≡ digits_value bytes.now }
{
    let mut value: u64 = 0;
    for byte in bytes {
        value = 10 * value + u64::from(*byte - b'0');
    }
    value
}

/// The number that bytes are the decimal spelling of, where it is `low` to `high`: digits alone,
/// without a zero in front of another. `None` for all other bytes.
#[tactic(auto, using(crate::proofs::Numerals::readings))]
pub fn number_between(low: u64, high: u64, bytes: &[u8]) -> Option<u64>
    requires { high < 10000000000000000000 }
    ensures spelled { (n : ℕ)
        → (result ≡ Some n) ↔ ((low ≤ n) × (n ≤ high) × (bytes.now ≡ decimal n)) }
    ensures value { result ≡ number_between low high bytes.now }
    ensures within { IfSome result (λ n. (low ≤ n) × (n ≤ high)) }
{
    if !is_numeral(bytes) {
        return None;
    }
    let value = digits_value(bytes);
    if low <= value && value <= high {
        Some(value)
    } else {
        None
    }
}

/// The same, of a number that is a `u8`.
pub(crate) fn u8_between(low: u8, high: u8, bytes: &[u8]) -> Option<u8>
    ensures { result ≡ number_between low high bytes.now }
{
    let number = number_between(u64::from(low), u64::from(high), bytes)?;
    Some(number as u8)
}

/// The same, of a number that is a `u16`.
pub(crate) fn u16_between(low: u16, high: u16, bytes: &[u8]) -> Option<u16>
    ensures { result ≡ number_between low high bytes.now }
{
    let number = number_between(u64::from(low), u64::from(high), bytes)?;
    Some(number as u16)
}

/// The same, of a number that is a `u32`.
pub(crate) fn u32_between(low: u32, high: u32, bytes: &[u8]) -> Option<u32>
    ensures { result ≡ number_between low high bytes.now }
{
    let number = number_between(u64::from(low), u64::from(high), bytes)?;
    Some(number as u32)
}
