//! Digits, and pairs of them after a mark.

ghost use Rattle.std.specs.Prelude.{◌≡◌, ◌<◌, ◌≤◌, ◌^◌, length, option_map, true, IfSome};
ghost use Rattle.std.specs.{Char.is_ascii_digit, List.list_all};
ghost use Rattle.texts.specs.Numerals.{digits_value};
ghost use Rattle.scorecard.specs.Reading.{number_of, pair_of};

/// Whether all bytes are decimal digits.
fn is_digits(bytes: &[u8]) -> bool
    ensures { result ≡ list_all is_ascii_digit bytes.now }
{
    bytes.iter().all(|byte| byte.is_ascii_digit())
}

/// The number that at most seven digits stand for.
fn digits_value(bytes: &[u8]) -> u32
    requires few { length bytes.now ≤ 7 }
    requires digits { list_all is_ascii_digit bytes.now ≡ true }
    ensures value { result ≡ digits_value bytes.now }
    ensures small { result < 10 ^ length bytes.now }
{
    let mut value: u32 = 0;
    for byte in bytes {
        value = 10 * value + u32::from(*byte - b'0');
    }
    value
}

/// The number of one to `most` digits, of which the first ones may be zeros.
#[tactic(auto, unfolding(crate::specs::Reading::number_of))]
pub fn number_of(most: usize, bytes: &[u8]) -> Option<u32>
    requires { most ≤ 7 }
    ensures value { result ≡ number_of most bytes.now }
    ensures small { IfSome result (λ n. n < 10 ^ most) }
{
    if !bytes.is_empty() && bytes.len() <= most && is_digits(bytes) {
        Some(digits_value(bytes))
    } else {
        None
    }
}

/// What is before a mark and two digits at the end, and the number of these, 0 to 99.
#[tactic(auto, unfolding(crate::specs::Reading::pair_of))]
pub fn pair_of<'a>(marks: &[u8], bytes: &'a [u8]) -> Option<(&'a [u8], u32)>
    ensures value { option_map (λ x. (x.0.now, x.1)) result ≡ pair_of marks.now bytes.now }
    ensures small { IfSome result (λ x. x.1 ≤ 99) }
{
    if bytes.len() < 3 {
        return None;
    }
    let place = bytes.len() - 3;
    let (mark, tens, ones) = (bytes[place], bytes[place + 1], bytes[place + 2]);
    if marks.contains(&mark) && tens.is_ascii_digit() && ones.is_ascii_digit() {
        let number = 10 * u32::from(tens - b'0') + u32::from(ones - b'0');
        Some((&bytes[..place], number))
    } else {
        None
    }
}
