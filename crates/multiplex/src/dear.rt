//! Whose question for a sheet or for entries of the log is answered in a round.

ghost use Rattle.std.specs.Prelude.{◌≡◌};
ghost use Rattle.multiplex.specs.Dear.{asked, fresh_dear, is_next, renewed, rest_after};

/// What a sheet or entries of the log take grows with the log, so one such question is answered in
/// a round. Those who have a key come before those who have none; of each the clients have their
/// turns in the order of their numbers, from the one after the last on.
///
/// Where others wait for such an answer, none is begun for three times as long as the last round
/// with one took, so that at most a quarter of the time goes into them. A round that waited for
/// something to become ready took longer, but not one before which somebody was put off.
#[derive(Drop)]
pub(crate) struct DearTurns {
    /// Whether one is answered in this round.
    pub(crate) spent: bool,
    /// The clients with this number and greater ones come before the others.
    pub(crate) from: u64,
    /// Whether a client was put off in this round.
    pub(crate) crowd: bool,
    /// Whether one was in the round before.
    pub(crate) crowded: bool,
    /// Whether a client with a key was put off in this round.
    pub(crate) waits: bool,
    /// Whether one was in the round before, so that only clients with a key are answered in this
    /// one.
    pub(crate) keyed: bool,
    /// Until when none is answered, in milliseconds after the first round.
    pub(crate) until: u64,
    /// Whether this round comes before that.
    pub(crate) rests: bool,
}

/// How long none is answered after a round that began and was over at these times.
fn rest_after(before: u64, now: u64) -> u64
    ensures { result ≡ rest_after before now }
{
    3 * now.saturating_sub(before).min(30)
}

impl DearTurns {
    /// Before the first round.
    pub(crate) fn new() -> DearTurns
        ensures { result ≡ fresh_dear }
    {
        DearTurns {
            spent: false,
            from: 0,
            crowd: false,
            crowded: false,
            waits: false,
            keyed: false,
            until: 0,
            rests: false,
        }
    }

    /// Whether the client with this number is answered now. If not, it is put off.
    pub(crate) fn ask(&mut self, number: u64, has_key: bool) -> bool
        ensures next { result ≡ is_next number has_key self.old }
        ensures asked { self.new ≡ asked number has_key self.old }
    {
        if self.spent || self.rests || number < self.from || (self.keyed && !has_key) {
            self.crowd = true;
            self.waits = has_key || self.waits;
            return false;
        }
        self.spent = true;
        self.from = number.saturating_add(1);
        true
    }

    /// A round is over, which began and ended at these times. Where somebody could have been
    /// answered in it and nobody was, it is the turn of the first client again.
    pub(crate) fn renew(&mut self, before: u64, now: u64)
        ensures { self.new ≡ renewed before now self.old }
    {
        if self.spent && self.crowded {
            self.until = now.saturating_add(rest_after(before, now));
        }
        if !self.spent && !self.rests {
            self.from = 0;
        }
        self.spent = false;
        self.crowded = self.crowd;
        self.crowd = false;
        self.keyed = self.waits;
        self.waits = false;
        self.rests = now < self.until;
    }
}
