//! For how long a browser is waited for.

ghost use Rattle.std.specs.Prelude.{◌≡◌};
ghost use Rattle.pages.specs.Waiting.{after, goes_on, is_late, is_longer, longer};

/// What came of a browser's turn.
#[derive(Clone, Copy, PartialEq, Eq, Debug)]
pub(crate) enum TurnOutcome {
    /// Its connection is to be ended.
    Over,
    /// It was sent something, and has taken all that was to be sent.
    Answered,
    /// It is waited for: for a request, for the rest of one, or until it takes an answer.
    Waits,
}

impl TurnOutcome {
    /// Whether the connection goes on.
    pub(crate) fn goes_on(self) -> bool
        ensures { result ≡ goes_on self }
    {
        match self {
            TurnOutcome::Over => false,
            TurnOutcome::Answered | TurnOutcome::Waits => true,
        }
    }
}

/// Since when a browser is waited for, in milliseconds after the first round: since it came, since
/// it took all answers, or where it was ready after that, since then.
#[derive(Clone, Copy, PartialEq, Eq, Debug)]
pub(crate) struct Waiting {
    pub(crate) since: u64,
    /// Whether it wasn't ready since it took all answers.
    pub(crate) is_idle: bool,
}

/// The browser that is waited for longest among several: its number, and since when.
#[derive(Clone, Copy, PartialEq, Eq, Debug)]
pub(crate) struct Longest {
    pub(crate) number: u64,
    pub(crate) since: u64,
}

impl Waiting {
    /// After a turn at this time.
    pub(crate) fn after(self, turned: TurnOutcome, now: u64) -> Waiting
        ensures { result ≡ after turned now self }
    {
        match turned {
            TurnOutcome::Answered => Waiting {
                since: now,
                is_idle: true,
            },
            _ if self.is_idle => Waiting {
                since: now,
                is_idle: false,
            },
            _ => self,
        }
    }

    /// Whether the browser with this number is waited for longer than another one, which is waited
    /// for since then and has that number; of two that are waited for equally long, whether it came
    /// first.
    pub(crate) fn is_longer(self, number: u64, since: u64, other: u64) -> bool
        ensures { result ≡ is_longer number since other self }
    {
        self.since < since || (self.since == since && number < other)
    }

    /// Of the browser with this number and the one that was found, if one was, the one that is
    /// waited for longer; of two that are waited for equally long, the one that came first.
    pub(crate) fn longer(self, number: u64, found: Option<Longest>) -> Longest
        ensures { result ≡ longer number found self }
    {
        match found {
            Some(one) if !self.is_longer(number, one.since, one.number) => one,
            _ => Longest {
                number,
                since: self.since,
            },
        }
    }

    /// Whether the browser is waited for longer than this many milliseconds.
    pub(crate) fn is_late(self, now: u64, patience: u64) -> bool
        ensures { result ≡ is_late now patience self }
    {
        now.saturating_sub(self.since) > patience
    }
}
