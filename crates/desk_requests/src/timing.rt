//! When something is to be said of commands that are entered, and how fast they are.

ghost use Rattle.std.specs.Prelude.{◌≡◌, ◌-◌, ◌*◌, ◌/◌, ◌<◌, nat_le};

/// Whether this many milliseconds have passed since a moment.
pub(crate) fn is_due(now: u64, since: u64, between: u64) -> bool
    ensures { result ≡ nat_le between (now - since) }
{
    now.saturating_sub(since) >= between
}

/// How many a minute are done, if this many are done after this many milliseconds.
pub(crate) fn a_minute(done: u32, passed: u64) -> u64
    requires { 0 < passed }
    ensures { result ≡ done * 60000 / passed }
{
    u64::from(done) * 60_000 / passed
}

/// How many seconds are left at that rate, where this many are not done.
pub(crate) fn seconds_left(done: u32, rest: u32, passed: u32) -> u64
    requires { 0 < done }
    ensures { result ≡ rest * passed / done / 1000 }
{
    u64::from(rest) * u64::from(passed) / u64::from(done) / 1000
}
