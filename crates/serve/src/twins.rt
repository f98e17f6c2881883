//! Desks of a hall that have one address.

ghost use Rattle.std.specs.Prelude.{◌<◌, ℕ, length, map, IfNone, IfSome};
ghost use Rattle.serve.specs.Addresses.{AreApart, AreTwins};

/// The first place before this one with the same text.
fn twin_before(texts: &[&str], second: usize) -> Option<usize>
    requires { second < length texts.now }
    ensures found { IfSome result (λ first. AreTwins (map (λ t. t.now) texts.now) first second) }
    ensures none { IfNone result
        ((first : ℕ) → ¬ AreTwins (map (λ t. t.now) texts.now) first second) }
{
    for first in 0..second {
        if texts[first] == texts[second] {
            return Some(first);
        }
    }
    None
}

/// Two places, counted from 0, with the same text.
pub fn twins_in(texts: &[&str]) -> Option<(usize, usize)>
    ensures found { IfSome result
        (λ places. AreTwins (map (λ t. t.now) texts.now) places.0 places.1) }
    ensures none { IfNone result (AreApart (map (λ t. t.now) texts.now)) }
{
    for second in 0..texts.len() {
        if let Some(first) = twin_before(texts, second) {
            return Some((first, second));
        }
    }
    None
}
