//! Ballots, which name attempts to decide.

/// The name of one attempt to decide: a number, and the desk that makes the attempt.
///
/// A real ballot has a number of at least 1 and a desk of 1 to the number of desks. 'Paxos Made
/// Simple', section 2.2, calls it a proposal number.
#[derive(Clone, Copy, PartialEq, Eq, Debug)]
pub struct Ballot {
    pub number: u32,
    pub desk: u8,
}

impl Ballot {
    ghost use Rattle.std.specs.Prelude.{◌≡◌};
    ghost use Rattle.acceptor.specs.Ballots.{is_below, no_ballot};

    /// The ballot (0, 0), which is below every real one: a desk that has promised none has it.
    pub fn none() -> Ballot
        ensures { result ≡ no_ballot }
    {
        Ballot { number: 0, desk: 0 }
    }

    /// Whether this ballot comes before the other: by number, and with one number by desk.
    pub fn is_below(self, other: Ballot) -> bool
        ensures { result ≡ is_below self other }
    {
        if self.number == other.number {
            self.desk < other.desk
        } else {
            self.number < other.number
        }
    }
}
