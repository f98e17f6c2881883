//! When a Tick is due.

ghost use Rattle.std.specs.Prelude.{◌≡◌, ◌*◌, ◌≤◌, ◌<◌};
ghost use Rattle.ticking.specs.Ticking.{IsDesk, look, new_ticker, first_pause, factor, pause};
ghost use Rattle.ticking.specs.Ticking.{is_due, after, left};

use crate::period::Period;
use std::marker::Model;

/// How many times as long as the first a pause is at most where commands wait.
const MOST_TIMES: u8 = 16;

/// How many times as long as the first a pause is where no command waits.
const IDLE_TIMES: u8 = 10;

/// Says when a desk takes a Tick of itself. It is shown the desk again and again (`look`), and
/// answers each time whether a Tick is to be taken now.
///
/// A Tick is due once a pause has passed since the last Tick, and since something new was seen: the
/// log had grown, or commands waited in a queue that was empty at the look before. The first pause
/// is the period and, for each desk of the hall with a lower number, a slot, which is the period
/// divided by the number of desks. Where commands wait, each Tick doubles the pause, up to 16 times
/// the first one, and anything new makes it the first one again. Where none waits, a pause is 10
/// times the first one.
///
/// A contract sees the period, the desk's number and the number of desks, how long the log was at
/// most, whether commands waited at the last look, how many times as long as the first a pause is,
/// and the moment from which the time counts.
#[derive(Drop)]
pub struct Ticker {
    period: Period,
    desk: u8,
    desks: u8,
    log: u32,
    waiting: bool,
    times: u8,
    since: u64,
}

impl Model for Ticker {
    ghost use Rattle.ticking.specs.Ticking.{Ticking, IsPeriod, IsDesk, IsFactor};

    ghost Value = { Ticking };

    ghost view = { λ t. record {
      period = t.period;
      desk = t.desk;
      desks = t.desks;
      log = t.log;
      waiting = t.waiting;
      times = t.times;
      since = t.since;
    } };

    ghost invariant = { λ t. IsPeriod t.period × IsDesk t.desk t.desks × IsFactor t.times };
}

impl Ticker {
    /// A ticker of the desk with this number, 1 to the number of desks, which is at most 5, whose
    /// log is this long. Its time counts from the moment `now`, in milliseconds.
    pub fn new(period: Period, desk: u8, desks: u8, log: u32, now: u64) -> Ticker
        requires { IsDesk desk desks }
        ensures { result ≡ new_ticker period desk desks log now }
    {
        // The call tells the range of the period, on which the invariant rests.
        let _milliseconds = period.milliseconds();
        Ticker {
            period,
            desk,
            desks,
            log,
            waiting: false,
            times: 1,
            since: now,
        }
    }

    /// The first pause, in milliseconds: less than two periods.
    fn first_pause(&self) -> u32
        ensures first { result ≡ first_pause self.now }
        ensures most { result < 2 * self.now.period }
        ensures few { result < 120000 }
    {
        let period = self.period.milliseconds();
        period + u32::from(self.desk - 1) * (period / u32::from(self.desks))
    }

    /// How many times as long as the first a pause is, where commands wait or where none does.
    fn factor(&self, waiting: bool) -> u8
        ensures factor { result ≡ factor self.now waiting }
        ensures most { result ≤ 16 }
    {
        if waiting { self.times } else { IDLE_TIMES }
    }

    /// The pause, in milliseconds, where commands wait or where none does: less than 32 periods.
    #[tactic(auto, using(crate::proofs::Pauses::product_most))]
    fn pause(&self, waiting: bool) -> u64
        ensures pause { result ≡ pause self.now waiting }
        ensures most { result < 32 * self.now.period }
    {
        u64::from(u32::from(self.factor(waiting)) * self.first_pause())
    }

    /// Looks at the desk at the moment `now`, in milliseconds: its log is this long, and in its
    /// queue wait this many commands. Returns whether a Tick is to be taken now. If so, it is
    /// counted as taken.
    ///
    /// Where `now` is before an earlier moment, no time has passed.
    pub fn look(&mut self, log: u32, queued: u8, now: u64) -> bool
        ensures due { result ≡ is_due self.old (look log queued now) }
        ensures after { self.new ≡ after self.old (look log queued now) }
    {
        let waiting = queued > 0;
        let is_new = log > self.log || (waiting && !self.waiting);
        let passed = now.saturating_sub(self.since);
        let is_due = !is_new && passed >= self.pause(waiting);
        if is_new {
            self.times = 1;
            self.since = now;
        }
        if is_due {
            self.times = (2 * self.times).min(MOST_TIMES);
            self.since = now;
        }
        self.log = self.log.max(log);
        self.waiting = waiting;
        is_due
    }

    /// How many milliseconds after the moment `now` the next Tick is due, if nothing new is seen
    /// until then, and commands go on waiting if they waited at the last look. 0 where it is due
    /// already, and always less than 32 periods.
    pub fn left(&self, now: u64) -> u64
        ensures left { result ≡ left self.now now }
        ensures most { result < 32 * self.now.period }
    {
        let passed = now.saturating_sub(self.since);
        self.pause(self.waiting).saturating_sub(passed)
    }
}
