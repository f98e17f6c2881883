//! The votes that a desk has heard.

use acceptor::NoMemory;
use std::alloc::Global;
use std::marker::Model;

/// The desks that have voted so far, the last one first.
#[derive(Debug, Drop)]
pub struct Votes {
    heard: Vec<u8>,
}

impl Model for Votes {
    ghost use Rattle.std.specs.Prelude.{List, ℕ};

    ghost Value = { List ℕ };

    ghost view = { λ v. v.heard.items };
}

impl Votes {
    ghost use Rattle.std.specs.Prelude.{◌≡◌, [], ◌∷◌, IfOk};
    ghost use Rattle.acceptor.specs.Messages.{has};

    /// Nobody is heard. It takes no memory.
    pub fn new(alloc: Global) -> Votes
        ensures { result ≡ [] }
    {
        Votes {
            heard: Vec::new(alloc),
        }
    }

    /// These desks, the last one first.
    pub fn from_vec(heard: Vec<u8>) -> Votes
        ensures { result ≡ heard.items }
    {
        Votes { heard }
    }

    /// The desks as a slice.
    pub fn as_slice(&self) -> &[u8]
        ensures { result.now ≡ self.now }
    {
        self.heard.as_slice()
    }

    /// The `Vec` of the desks, with no copy made.
    pub fn into_vec(self) -> Vec<u8>
        ensures { result.items ≡ self }
    {
        let Votes { heard } = self;
        heard
    }

    /// Whether this desk has voted.
    pub fn has(&self, desk: u8) -> bool
        ensures { result ≡ has self.now desk }
    {
        self.heard.contains(&desk)
    }

    /// These and one more. Where memory is refused, the answer is NoMemory.
    pub fn with(&self, desk: u8) -> Result<Votes, NoMemory>
        ensures { IfOk result (λ v. v ≡ desk ∷ self.now) }
    {
        let mut heard = Vec::new(*self.heard.allocator());
        heard.push(desk)?;
        heard.extend_from_slice(self.heard.as_slice())?;
        Ok(Votes { heard })
    }
}
