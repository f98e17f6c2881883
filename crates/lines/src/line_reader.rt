//! A reader of lines: an input in pieces, its lines one after the other.

ghost use Rattle.std.specs.Prelude.{◌≡◌, ◌≢◌, ◌<◌, ◌≤◌, ◌+◌, true, false, [], ℕ};
ghost use Rattle.std.specs.Prelude.{OnOk, OnErr, IfOk, IfErr, MatchOption, length, slice_index};
ghost use Rattle.std.specs.Io.KnownBytes.{Keeps};
ghost use Rattle.lines.specs.declared.fault.RunFault.TheVariants as run_fault;
ghost use Rattle.lines.specs.Reading.{nothing_read, has_room, ReadsLine};
ghost use Rattle.lines.specs.model.Stepping.{TakesHeld, TakesNone, Fills, GivesByte};
ghost use Rattle.lines.specs.model.Stepping.{IsRoomFor, TakesRun};

use crate::fault::RunFault;
use memchr::memchr;
use std::io::Read;
use std::marker::Model;

/// The most bytes of an input: as many as the most lines have of the longest command, 600 bytes,
/// and a line feed.
const MOST_BYTES: u32 = 39_387_136;

/// The most lines of an input.
const MOST_LINES: u32 = 65_536;

/// The most bytes of a line, without its line feed.
const MOST_IN_LINE: usize = 10_000;

/// Reads the lines of an input one after the other, within its limits: 65,536 lines, 10,000 bytes a
/// line, 39,387,136 bytes.
///
/// Lines are parted by line feeds; a last line without one counts where it is not empty.
#[derive(Drop)]
pub struct LineReader {
    piece: [u8; 4096],
    next: usize,
    end: usize,
    lines: u32,
    bytes: u32,
    is_over: bool,
}

impl Model for LineReader {
    ghost use Rattle.std.specs.Prelude.{◌≤◌, drop, take};
    ghost use Rattle.lines.specs.Reading.{Reading};

    ghost Value = { Reading };

    ghost view = { λ r. record {
      lines = r.lines;
      bytes = r.bytes;
      held = drop r.next (take r.end r.piece);
      over = r.is_over;
    } };

    ghost invariant = { λ r. (r.next ≤ r.end) × (r.end ≤ 4096) };
}

impl LineReader {
    /// Before the first byte.
    pub fn new() -> Self
        ensures { result ≡ nothing_read }
    {
        LineReader {
            piece: [0; 4096],
            next: 0,
            end: 0,
            lines: 0,
            bytes: 0,
            is_over: false,
        }
    }

    /// How many lines were given.
    pub fn count(&self) -> u32
        ensures { result ≡ self.now.lines }
    {
        self.lines
    }

    /// Takes the next byte of those that were read.
    fn take_held(&mut self) -> Option<u8>
        ensures { MatchOption result (TakesNone self.old self.new)
            (λ byte. TakesHeld self.old self.new byte) }
    {
        if self.next == self.end {
            return None;
        }
        let byte = self.piece[self.next];
        self.next += 1;
        Some(byte)
    }

    /// Reads the next piece, and says whether there was one. An interrupted read is a failed one.
    fn fill<R: Read>(&mut self, reader: &mut R) -> Result<bool, RunFault>
        ensures ok { IfOk result
            (λ some. Fills self.old self.new some
            (R.remaining reader.old) (R.remaining reader.new)) }
        ensures err { IfErr result
            (λ fault. (fault ≡ run_fault.Read)
            × Keeps (R.remaining reader.old) (R.remaining reader.new)) }
    {
        let Ok(count) = reader.read(&mut self.piece) else {
            return Err(RunFault::Read);
        };
        self.next = 0;
        self.end = count;
        self.is_over = count == 0;
        Ok(count > 0)
    }

    /// The next byte, or none at the end of the input.
    fn next_byte<R: Read>(&mut self, reader: &mut R) -> Result<Option<u8>, RunFault>
        requires { self.old.over ≡ false }
        ensures ok { IfOk result
            (GivesByte self.old self.new (R.remaining reader.old) (R.remaining reader.new)) }
        ensures err { IfErr result (λ fault. fault ≡ run_fault.Read) }
        ensures held { OnErr result (self.old.held ≡ []) }
        ensures kept { OnErr result (Keeps (R.remaining reader.old) (R.remaining reader.new)) }
    {
        if let Some(byte) = self.take_held() {
            return Ok(Some(byte));
        }
        if self.fill(reader)? {
            Ok(self.take_held())
        } else {
            Ok(None)
        }
    }

    /// How many of the bytes that were read are in a line after this many: those up to its line
    /// feed, as far as the limits have room.
    fn run_length(&self, in_line: usize) -> usize
        ensures held { result ≤ length self.now.held }
        ensures unended { (k : ℕ) → k < result → slice_index self.now.held k ≢ 10 }
        ensures room { 0 < result → IsRoomFor self.now in_line result }
        ensures whole { result < length self.now.held → IsRoomFor self.now in_line (result + 1)
            → slice_index self.now.held result ≡ 10 }
    {
        if self.lines >= MOST_LINES {
            return 0;
        }
        let in_input = MOST_BYTES.saturating_sub(self.bytes) as usize;
        let in_line = MOST_IN_LINE.saturating_sub(in_line);
        let most = (self.end - self.next).min(in_input).min(in_line);
        memchr(b'\n', &self.piece[self.next..self.next + most]).unwrap_or(most)
    }

    /// Takes those that are in the line out of the bytes that were read, puts them after it, and
    /// counts them.
    fn take_run(&mut self, line: &mut Vec<u8>) -> Result<(), RunFault>
        ensures ok { OnOk result (TakesRun self.old self.new line.old.items line.new.items) }
        ensures err { IfErr result (λ fault. fault ≡ run_fault.NoMemory) }
        ensures kept { OnErr result (self.new ≡ self.old) }
    {
        let count = self.run_length(line.len());
        line.extend_from_slice(&self.piece[self.next..self.next + count])?;
        self.next += count;
        self.bytes += count as u32;
        Ok(())
    }

    /// Counts one more byte, after this many of its line, where it is within the limits.
    fn count_byte(&mut self, in_line: usize, byte: u8) -> bool
        ensures room { result ≡ has_room self.old.bytes self.old.lines in_line byte }
        ensures counted { result ≡ true
            → self.new ≡ record self.old { bytes = self.old.bytes + 1 } }
    {
        let has_room = self.bytes < MOST_BYTES
            && self.lines < MOST_LINES
            && (byte == b'\n' || in_line < MOST_IN_LINE);
        if has_room {
            self.bytes += 1;
        }
        has_room
    }

    /// Counts one more line.
    fn count_line(&mut self)
        requires { self.old.lines < MOST_LINES }
        ensures { self.new ≡ record self.old { lines = self.old.lines + 1 } }
    {
        self.lines += 1;
    }

    /// Whether the input's end was met.
    fn is_over(&self) -> bool
        ensures { result ≡ self.now.over }
    {
        self.is_over
    }

    /// Reads the next line, without its line feed, in place of what `line` has. False where no line
    /// is left; then the input was read to its end, and no later call reads on.
    ///
    /// # Errors
    ///
    /// - `InputTooLong` at the first byte that is above a limit: all lines in front of it were
    ///   given.
    /// - `Read` where a read fails, an interrupted one too: all whole lines in front were given.
    /// - `NoMemory` where memory runs out.
    ///
    /// Behind an error the reader gives no further line that is to be used.
    pub fn read_line<R: Read>(
        &mut self,
        reader: &mut R,
        line: &mut Vec<u8>,
    ) -> Result<bool, RunFault>
        ensures { ReadsLine self.old self.new result line.new.items
            (R.remaining reader.old) (R.remaining reader.new) }
    {
        line.clear();
        if self.is_over() {
            return Ok(false);
        }
        loop {
            self.take_run(line)?;
            let Some(byte) = self.next_byte(reader)? else {
                break;
            };
            if !self.count_byte(line.len(), byte) {
                return Err(RunFault::InputTooLong);
            }
            if byte == b'\n' {
                self.count_line();
                return Ok(true);
            }
            if line.push(byte).is_err() {
                return Err(RunFault::NoMemory);
            }
        }
        if line.is_empty() {
            return Ok(false);
        }
        self.count_line();
        Ok(true)
    }
}
