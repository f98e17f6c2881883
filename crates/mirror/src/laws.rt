//! What mirrors hold that are given logs of which one begins the other.

ghost use Rattle.mirror.specs.Fronts.{MirrorsHoldFronts, FrontsPrintAlike};

/// A mirror that began with no entry, and was given entries only of logs of which one begins the
/// other, holds the beginning of one of them, and never reported Differs. Each time the entries may
/// be of any of these logs and from any position; they come in any order; and memory may have been
/// refused.
///
/// The sheets of two lists of which one begins the other are the same, byte for byte, at each
/// position that both have.
pub fn mirrors_hold_fronts()
    ensures fronts { MirrorsHoldFronts }
    ensures alike { FrontsPrintAlike }
{}
