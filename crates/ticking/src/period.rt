//! The period of a desk's ticks.

ghost use Rattle.std.specs.Prelude.{◌≡◌};
ghost use Rattle.std.specs.Option.{SomeIff};
ghost use Rattle.ticking.specs.Ticking.{IsPeriod};

use std::marker::Model;

/// The period of a desk's ticks: 100 to 60,000 milliseconds.
///
/// A contract sees the number of milliseconds.
#[derive(Clone, Copy, Debug, PartialEq, Eq)]
pub struct Period {
    milliseconds: u32,
}

impl Model for Period {
    ghost use Rattle.std.specs.Prelude.{ℕ};
    ghost use Rattle.ticking.specs.Ticking.{IsPeriod};

    ghost Value = { ℕ };

    ghost view = { λ p. p.milliseconds };

    ghost invariant = { λ p. IsPeriod p.milliseconds };

    ghost inverse = { λ milliseconds. record { milliseconds = milliseconds } };
}

impl Period {
    /// The shortest period and the longest, in milliseconds.
    const SHORTEST: u32 = 100;

    const LONGEST: u32 = 60_000;

    /// The period of this many milliseconds. None: they are fewer than 100 or more than 60,000.
    pub fn new(milliseconds: u32) -> Option<Period>
        ensures { SomeIff result (IsPeriod milliseconds) milliseconds }
    {
        if milliseconds < Period::SHORTEST || milliseconds > Period::LONGEST {
            return None;
        }
        Some(Period { milliseconds })
    }

    /// Its milliseconds.
    pub fn milliseconds(self) -> u32
        ensures value { result ≡ self }
        ensures in_range { IsPeriod result }
    {
        self.milliseconds
    }
}
