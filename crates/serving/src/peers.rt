//! The desks of a hall.

ghost use Rattle.std.specs.Prelude.{[], ◌∷◌, List, Option};
ghost use Rattle.serving.specs.Adding.{Push, Hands};

/// The desks of a hall, to which frames are pushed: the other ones, and the desk itself.
pub trait Peers {
    /// The frames that were handed over, in order, where that is known.
    ghost handed: { Self → Option (List Push) };

    /// Takes a frame for a desk. It may be lost on its way.
    fn push(&mut self, to: u8, frame: &[u8])
        ensures { Hands (handed self.old) (handed self.new)
            (record { to = to; bytes = frame.now } ∷ []) };
}
