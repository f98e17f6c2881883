//! Laws of a caller's end of a connection, for all bytes and keys.

ghost use Rattle.sealed.specs.ends.Laws.{CallsSpeak, StaysCall, TellsTrouble};

/// A connection of a caller goes on as one through each call from `Call::new` on: a law.
#[tactic(auto, using(crate::proofs::ends::Going::stays_call))]
pub fn stays_call()
    ensures { StaysCall }
{}

/// A caller sends nothing but what it is given, in order: with a key its preface, and once the
/// desk's came records of it that are numbered from 0. It is handed on nothing but what is in
/// records that fit; and without a key all that came, but of a desk that asks for one: a law.
pub fn calls_speak()
    ensures { CallsSpeak }
{}

/// A law: what is wrong by what came is reported exactly where it is so.
#[tactic(auto, using(crate::proofs::ends::Telling::tells_trouble))]
pub fn tells_trouble()
    ensures { TellsTrouble }
{}
