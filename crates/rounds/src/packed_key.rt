//! A key as one number: such numbers are compared without a branch.

ghost use Rattle.std.specs.Prelude.{◌≡◌};
ghost use Rattle.formats.specs.{declared.results.RankKey.RankKey as Key, Results.is_better};
ghost use Rattle.rounds.specs.model.PackedKeys.{number_or, packed_key_of, IsBelow, HasRoom};

use formats::RankKey;

/// A number, or the last one where it is missing.
fn number_or(number: Option<u32>, last: u64) -> u64
    ensures { result ≡ number_or last number }
{
    match number {
        Some(number) => u64::from(number),
        None => last,
    }
}

/// A key as one number: the better key has the lesser one. The tie, which is a best, is small.
pub(crate) fn packed_key_of(key: RankKey) -> u64
    requires { IsBelow 2147483647 key.tie }
    ensures value { result ≡ packed_key_of key }
    ensures room { HasRoom key }
{
    number_or(key.main, 1 << 32) * (1 << 31) + number_or(key.tie, (1 << 31) - 1)
}

/// Whether one packed key is of a better key than the other.
pub(crate) fn leads(one: u64, other: u64) -> bool
    ensures { (x y : Key) → HasRoom x → HasRoom y → one ≡ packed_key_of x → other ≡ packed_key_of y
        → result ≡ is_better x y }
{
    one < other
}
