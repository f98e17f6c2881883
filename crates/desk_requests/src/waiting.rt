//! How long a desk is waited for.

use std::io;
use std::io::ErrorKind;
use std::time::{Duration, Instant};

/// The time from which a desk is waited for, and how long.
#[derive(Clone, Copy)]
pub(crate) struct Wait<'a> {
    rt: &'a HostRuntime,
    start: Instant,
    length: Duration,
}

impl<'a> Wait<'a> {
    /// This many seconds from now on.
    pub(crate) fn new(rt: &'a HostRuntime, seconds: u32) -> io::Result<Wait<'a>> {
        Ok(Wait {
            rt,
            start: Instant::now(rt)?,
            length: Duration::from_secs(u64::from(seconds)),
        })
    }

    /// How much of it is left; `TimedOut` where nothing is.
    pub(crate) fn left(&self) -> io::Result<Duration> {
        let passed = self.start.elapsed(self.rt)?;
        match self.length.checked_sub(passed) {
            Some(left) if !left.is_zero() => Ok(left),
            _ => Err(io::Error::from(ErrorKind::TimedOut)),
        }
    }

    /// It begins anew, unless the clock fails.
    pub(crate) fn restart(&mut self) {
        if let Ok(now) = Instant::now(self.rt) {
            self.start = now;
        }
    }
}
