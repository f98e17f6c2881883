//! Laws of tickers, whatever they are shown.

ghost use Rattle.std.specs.Prelude.{ℕ, Bool, List};
ghost use Rattle.ticking.specs.{Ticking.Ticking, Ticking.Look, Worked.WorksTicker};
ghost use Rattle.ticking.specs.Laws.{PausesAreBounded, BacksOff, FallsBack, KeepsTime, TicksInTime};
ghost use Rattle.ticking.specs.Laws.{TicksWhereNothingHappens, Wakes, AreSpread, StaySpread};

/// Where commands wait, a pause is at least one period and less than 32; where none waits, it is at
/// least 10 periods and less than 20.
pub fn pauses_are_bounded()
    ensures { (t : Ticking) → PausesAreBounded t }
{}

/// With each Tick the pause of a desk where commands wait doubles, up to 16 times the first one.
pub fn backs_off()
    ensures { (t : Ticking) (l : Look) → BacksOff t l }
{}

/// After anything new the pause of a desk where commands wait is the first one again, which is less
/// than two periods, and its time counts from that look.
pub fn falls_back()
    ensures { (t : Ticking) (l : Look) → FallsBack t l }
{}

/// Where a look sees nothing new, a Tick is taken exactly if the pause has passed since the last
/// Tick, since the last look that saw something new, or since the ticker was made, whichever was
/// last, however often the desk was looked at in between. So at least a period passes between two
/// Ticks.
pub fn keeps_time()
    ensures { (t : Ticking) (moment : ℕ) (quiet : List Look) (l : Look) →
        KeepsTime t moment quiet l }
{}

/// Over looks that see nothing new, of which the last is 32 periods or more after the last Tick
/// before them, after the last look that saw something new, or after the ticker was made, a Tick is
/// taken.
pub fn ticks_in_time()
    ensures { (t : Ticking) (moment : ℕ) (looks : List Look) (last : Look) →
        TicksInTime t moment looks last }
{}

/// Where commands wait and nothing happens, a Tick is taken within 16 first pauses: over looks of
/// which each sees a command and the log as long as the first does, and the last comes 16 first
/// pauses or more after the first. A ticker that was worked by hand takes its Ticks so.
pub fn ticks_where_nothing_happens()
    ensures ticks { (t : Ticking) (log : ℕ) (first : Look) (looks : List Look) (last : Look) →
        TicksWhereNothingHappens t log first looks last }
    ensures example { WorksTicker }
{}

/// A caller that waits as long as `left` says finds a Tick due, and none is due before.
pub fn wakes()
    ensures { (t : Ticking) (now : ℕ) (l : Look) → Wakes t now l }
{}

/// Two desks of one hall whose time counts from the same moment, both with commands waiting or both
/// with none, are due at moments that are at least a slot apart, however many Ticks each has taken.
/// A slot is the period divided by the number of desks, and has 20 milliseconds or more.
pub fn are_spread()
    ensures { (a b : Ticking) (waiting : Bool) → AreSpread a b waiting }
{}

/// Two desks of one hall that saw something new at the same moment, with commands waiting, and take
/// their Ticks when they are due, go on being spread: any of the first five Ticks of one is at
/// least a slot before or after any of the first five of the other.
pub fn stay_spread()
    ensures { (a b : Ticking) (j k : ℕ) → StaySpread a b j k }
{}
