//! Laws of sealed streams, for all bytes, keys and bodies.

ghost use Rattle.std.specs.Prelude.{ℕ, List, length};
ghost use Rattle.seal.specs.{declared.channel.Channel.Channel, Records.IsBody, Records.AreBodies};
ghost use Rattle.seal.specs.Laws.{IsNoMark, ReadsBack, GoesOn, Differs, HandsOnFront};
ghost use Rattle.seal.specs.Laws.{StopsAtChange, StopsAtOther};

/// A frame begins with its length: four bytes, high byte first, at most 300,000. So four bytes tell
/// a stream of frames from a sealed stream, which begins with `DSK1`.
pub fn told_by_four_bytes()
    ensures { (first : List ℕ) → IsNoMark first }
{}

/// What is sent reads back as what was sent, under the same key, in the same direction.
pub fn reads_back()
    ensures { (channel : Channel) (bodies : List (List ℕ)) →
        AreBodies 0 bodies → ReadsBack channel bodies }
{}

/// What a sealer makes of bodies, one after the other, is their records, numbered from 0.
pub fn goes_on()
    ensures { (channel : Channel) (bodies : List (List ℕ)) (body : List ℕ) →
        AreBodies 0 bodies → IsBody (length bodies) body → GoesOn channel bodies body }
{}

/// Where what came differs from what was sent, only the records in front of the difference are
/// handed on, if no tag that came is the tag of a body that was not sent there.
pub fn stops_at_difference()
    ensures { (channel : Channel) (front : List (List ℕ)) (sent came : List ℕ) →
        Differs channel front sent came → HandsOnFront channel front came }
{}

/// A changed byte ends a stream at its record, whether it is of the length, the body or the tag, if
/// the tag of what was changed is not the one that came.
pub fn stops_at_changed_byte()
    ensures { (channel : Channel) (front : List (List ℕ)) (body : List ℕ) (at byte : ℕ)
        (later : List ℕ) → StopsAtChange channel front body at byte later }
{}

/// A record ends a stream where it has another number, another direction or another key than the
/// next record of this stream, if its tag is not the one that belongs there.
pub fn stops_at_other_record()
    ensures { (channel : Channel) (front : List (List ℕ)) (other : Channel) (number : ℕ)
        (body later : List ℕ) → StopsAtOther channel front other number body later }
{}
