//! A writer of lines that never waits for the reader of standard error.

use crate::line::tell_line;
use libc::net::{POLLOUT, poll};
use libc::types::pollfd;
use std::alloc::Global;
use std::io;
use std::io::{Stderr, Write};
use std::os::fd::{AsRawFd, RawFd};

/// Whether a write to this descriptor is over at once: what it leads to takes bytes, or the write
/// fails.
fn takes_now(descriptor: RawFd) -> bool {
    let mut asked = [pollfd {
        fd: descriptor,
        events: POLLOUT,
        revents: 0,
    }];
    poll(&mut asked, 0) > 0
}

/// Lines on standard error. A line is gathered until its line feed is written, and is then handed
/// on by one call, where standard error takes it at once; else it is dropped, and the next one that
/// is handed on says how many were. No write fails and none waits.
#[derive(Drop)]
pub struct PromptLines {
    stderr: Stderr,
    /// The line that is being written, without its line feed.
    line: Vec<u8>,
    /// Whether memory was refused for a part of that line.
    is_cut: bool,
    /// How many lines in a row could not be written.
    missed: u64,
}

impl PromptLines {
    /// Writes to standard error.
    pub fn new(stderr: Stderr, alloc: Global) -> PromptLines {
        PromptLines {
            stderr,
            line: Vec::new(alloc),
            is_cut: false,
            missed: 0,
        }
    }

    /// Adds a part of a line.
    fn add(&mut self, part: &[u8]) {
        if self.line.extend_from_slice(part).is_err() {
            self.is_cut = true;
        }
    }

    /// Hands a whole line on, or drops it.
    fn end(&mut self) {
        let takes = !self.is_cut && takes_now(self.stderr.as_raw_fd());
        self.missed = tell_line(&mut self.stderr, &mut self.line, self.missed, takes);
        self.line.clear();
        self.is_cut = false;
    }
}

impl Write for PromptLines {
    fn write(&mut self, buf: &[u8]) -> io::Result<usize> {
        match buf.strip_suffix(b"\n") {
            Some(part) => {
                self.add(part);
                self.end();
            }
            None => self.add(buf),
        }
        Ok(buf.len())
    }

    fn flush(&mut self) -> io::Result<()> {
        Ok(())
    }
}
