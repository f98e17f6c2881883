//! The other desks of a hall, over links that never make anybody wait.

ghost use Rattle.std.specs.Prelude.{◌≡◌, ◌∷◌, [], ℕ, List, Option};
ghost use Rattle.polled.specs.Telling.{Tells};

use serving::Peers;
use wire::Difference;

/// The links to the other desks of a hall. A frame that is pushed waits in its link until the link
/// is kept. No call waits.
pub trait PeerLinks: Peers {
    /// At which moments they were kept, in order, where that is known.
    ghost kept: { Self → Option (List ℕ) };

    /// What is said at a moment of how long it is until they are to be kept again.
    ghost due: { Self → ℕ → Option ℕ → Type 0 };

    /// Opens, writes and closes what is due, at this many milliseconds after the first round.
    fn keep(&mut self, now: u64)
        ensures handed { Self.handed self.new ≡ Self.handed self.old }
        ensures kept { Tells (kept self.old) (kept self.new) (now ∷ []) };

    /// Says on standard error that another desk of the hall differs.
    fn differs(&mut self, difference: Difference)
        ensures handed { Self.handed self.new ≡ Self.handed self.old }
        ensures kept { kept self.new ≡ kept self.old };

    /// In how many milliseconds at most the links are to be kept again, unless one of their sockets
    /// becomes ready before that. None: not until a frame is pushed.
    fn wait(&self, now: u64) -> Option<u64>
        ensures { due self.now now result };
}
