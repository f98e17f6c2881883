//! Laws of the spellings of frames, for every frame and all bytes.

ghost use Rattle.std.specs.Prelude.{ℕ, List};
ghost use Rattle.wire.specs.declared.{fault.WireFault.WireFault, frame.Frame.Frame};
ghost use Rattle.wire.specs.Laws.{AreBytes, IsReadWhereSpelled, BeginsNoOther, IsFaultWhereFirst};
ghost use Rattle.wire.specs.Ranges.{IsFrame};

/// A frame is read exactly where its spelling is, and no frame's spelling begins another's.
pub fn one_spelling_each()
    ensures read_where_spelled { (bytes : List ℕ) (f : Frame) (rest : List ℕ) →
        AreBytes bytes → IsReadWhereSpelled bytes f rest }
    ensures prefix_free { (f g : Frame) (more : List ℕ) →
        IsFrame f → IsFrame g → BeginsNoOther f g more }
{}

/// A stream breaks exactly where its first fault is. BadLength: the first length is not 8 to
/// 300,000, as soon as its four bytes are there. Otherwise, once the whole frame is there:
/// BadVersion, where the version is none of 1 to 5; BadKind, where it is, and no kind of the
/// version has the number; BadBody, where both are good, and no frame is spelled so.
pub fn first_fault()
    ensures { (bytes : List ℕ) (e : WireFault) → AreBytes bytes → IsFaultWhereFirst bytes e }
{}
