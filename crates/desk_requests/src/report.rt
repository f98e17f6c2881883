//! What is said, while commands are entered, of how that goes.

use crate::reasons::Reasons;
use crate::timing::{a_minute, is_due, seconds_left};
use acceptor::entry::Entry;
use batch::Watch;
use lines::command_file::InputCommand;
use std::alloc::Global;
use std::io::Write;
use std::time::{Clock, Instant};
use texts::Answer;

/// After this many milliseconds without a decision, or without room in the desk's queue, it is said
/// what is waited for.
const PATIENCE: u64 = 2_000;

/// This many milliseconds lie between two lines of progress.
const BETWEEN_LINES: u64 = 10_000;

/// This many lie between two states of a line that is written over itself.
const BETWEEN_STATES: u64 = 200;

/// How the progress is shown.
#[derive(Clone, Copy, Debug, PartialEq, Eq)]
pub enum ProgressStyle {
    /// Not at all.
    Hidden,
    /// On a terminal: as one line over itself.
    OverItself,
    /// As a line each ten seconds.
    LineByLine,
}

/// What is counted of commands that are entered.
#[derive(Drop)]
struct EnteredCounts {
    /// How many there are.
    total: u32,
    /// How many were answered.
    answered: u32,
    /// How many of them were accepted.
    accepted: u32,
    /// The lines of those that were refused.
    refused: Vec<u32>,
}

/// The line that is entered.
#[derive(Clone, Copy)]
struct Current {
    number: u32,
    id: u64,
    /// When it began, in milliseconds since the beginning.
    since: u64,
    /// Whether it was said that it is waited for.
    is_told: bool,
}

/// Reports how commands are entered: the progress, what is waited for, and at the end how many were
/// accepted and which lines were refused. What can't be written is left out.
#[derive(Drop)]
pub(crate) struct ProgressReport<'a, T: Clock, F: Write, H: Reasons> {
    clock: &'a T,
    alloc: Global,
    faults: &'a mut F,
    reasons: &'a mut H,
    progress: ProgressStyle,
    waits: bool,
    counts: EnteredCounts,
    current: Current,
    start: Option<Instant>,
    /// When progress was shown last, in milliseconds since the beginning.
    shown: u64,
    /// Whether a line is there that is written over.
    is_open: bool,
}

/// Writes the bytes of a text, with a question mark in place of each control character.
fn write_shown<F: Write>(alloc: Global, faults: &mut F, text: &[u8]) {
    let mut shown = Vec::new(alloc);
    for byte in text {
        let is_shown = b' ' <= *byte && *byte != 127;
        // where memory is short, a byte is left out
        let _ = shown.push(if is_shown { *byte } else { b'?' });
    }
    let _ = faults.write_all(&shown);
}

/// Writes numbers with commas between.
fn write_numbers<F: Write>(faults: &mut F, numbers: &[u32]) {
    for (place, number) in numbers.iter().enumerate() {
        if place > 0 {
            let _ = faults.write_all(b", ");
        }
        let _ = write!(faults, "{number}");
    }
}

impl<'a, T: Clock, F: Write, H: Reasons> ProgressReport<'a, T, F, H> {
    /// Of this many commands, none of which was entered.
    pub(crate) fn new(
        clock: &'a T,
        alloc: Global,
        faults: &'a mut F,
        reasons: &'a mut H,
        progress: ProgressStyle,
        waits: bool,
        total: u32,
    ) -> ProgressReport<'a, T, F, H> {
        ProgressReport {
            clock,
            alloc,
            faults,
            reasons,
            progress,
            waits,
            counts: EnteredCounts {
                total,
                answered: 0,
                accepted: 0,
                refused: Vec::new(alloc),
            },
            current: Current {
                number: 0,
                id: 0,
                since: 0,
                is_told: false,
            },
            start: Instant::now(clock).ok(),
            shown: 0,
            is_open: false,
        }
    }

    /// One command without a line begins, which has this id.
    pub(crate) fn begin_one(&mut self, id: u64) {
        self.current.id = id;
    }

    /// Says which id was drawn, so that the same command can be entered again with it.
    pub(crate) fn tell_drawn(&mut self) {
        let id = self.current.id;
        let _ = writeln!(self.faults, "id {id}: enter it again with this id");
    }

    /// Milliseconds since the beginning; 0 where the clock fails.
    fn now(&self) -> u64 {
        let Some(start) = self.start else {
            return 0;
        };
        match start.elapsed(self.clock) {
            Ok(passed) => u64::try_from(passed.as_millis()).unwrap_or(u64::MAX),
            Err(_) => 0,
        }
    }

    /// Ends the line that is written over, where one is there.
    fn end_open(&mut self) {
        if self.is_open {
            let _ = self.faults.write_all(b"\n");
            self.is_open = false;
        }
    }

    /// Writes how many of how many are answered, and how fast.
    fn write_progress(&mut self, now: u64) {
        let answered = self.counts.answered;
        let total = self.counts.total;
        let what = if self.waits { "decided" } else { "taken" };
        let _ = write!(self.faults, "{answered} of {total} {what}");
        if answered > 0 && now > 0 {
            let rate = a_minute(answered, now);
            let passed = u32::try_from(now).unwrap_or(u32::MAX);
            let left = seconds_left(answered, total.saturating_sub(answered), passed);
            let _ = write!(self.faults, ", {rate} a minute, {left} s left");
        }
    }

    /// Shows the progress, where that is wanted and due.
    fn show(&mut self) {
        let now = self.now();
        match self.progress {
            ProgressStyle::Hidden => {}
            ProgressStyle::OverItself => {
                if is_due(now, self.shown, BETWEEN_STATES) {
                    let _ = self.faults.write_all(b"\r\x1b[K");
                    self.write_progress(now);
                    let _ = self.faults.flush();
                    self.shown = now;
                    self.is_open = true;
                }
            }
            ProgressStyle::LineByLine => {
                if is_due(now, self.shown, BETWEEN_LINES) {
                    self.write_progress(now);
                    let _ = self.faults.write_all(b"\n");
                    self.shown = now;
                }
            }
        }
    }

    /// Writes why the line is waited for. Where no decision is, the desk's queue has no room.
    fn write_reason(&mut self) {
        if !self.waits {
            let _ = self.faults.write_all(b"the desk's queue is full");
            return;
        }
        match self.reasons.reason(self.alloc) {
            Some(reason) => write_shown(self.alloc, self.faults, &reason),
            None => {
                let _ = self.faults.write_all(b"it is not decided yet");
            }
        }
    }

    /// Says that the line is waited for, and why.
    fn tell_waiting(&mut self) {
        self.end_open();
        let number = self.current.number;
        if number > 0 {
            let _ = write!(self.faults, "waiting for line {number}: ");
        } else {
            let _ = self.faults.write_all(b"waiting: ");
        }
        self.write_reason();
        let _ = self.faults.write_all(b"\n");
        self.current.is_told = true;
    }

    /// Says how many were accepted, and which lines were refused.
    pub(crate) fn tell_end(&mut self) {
        self.end_open();
        if !self.waits {
            return;
        }
        let accepted = self.counts.accepted;
        let refused = self.counts.refused.len();
        let _ = write!(self.faults, "{accepted} accepted, {refused} refused");
        if refused > 0 {
            let text = if refused == 1 { ": line " } else { ": lines " };
            let _ = self.faults.write_all(text.as_bytes());
            write_numbers(self.faults, &self.counts.refused);
        }
        let _ = self.faults.write_all(b"\n");
    }
}

impl<T: Clock, F: Write, H: Reasons> Watch for ProgressReport<'_, T, F, H> {
    ghost use Rattle.std.specs.Prelude.{None};

    ghost heard = { λ _. None };

    fn begins(&mut self, command: &InputCommand, id: u64) {
        self.current = Current {
            number: command.number(),
            id,
            since: self.now(),
            is_told: false,
        };
    }

    fn waits(&mut self, _tries: u32) {
        self.show();
        if !self.current.is_told && is_due(self.now(), self.current.since, PATIENCE) {
            self.tell_waiting();
        }
    }

    fn entered(&mut self, answer: Option<Answer>) {
        self.counts.answered = self.counts.answered.saturating_add(1);
        match answer {
            Some(Answer::Done) => {
                self.counts.accepted = self.counts.accepted.saturating_add(1);
            }
            Some(Answer::Refused(_)) => {
                // where memory is short, the number of a line is left out
                let _ = self.counts.refused.push(self.current.number);
            }
            None => {}
        }
        self.show();
    }

    fn finds_another(&mut self, entry: &Entry) {
        self.end_open();
        let id = self.current.id;
        let _ = write!(self.faults, "id {id} is another command's: ");
        write_shown(self.alloc, self.faults, entry.text());
        let _ = self.faults.write_all(b"\n");
    }
}
