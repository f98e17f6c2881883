//! A line that is written at once, or is left out and counted.

ghost use Rattle.std.specs.Prelude.{◌≡◌, ◌++◌, codes, decimal, true, false, OnOk};
ghost use Rattle.std.specs.Io.KnownBytes.{Appends, Keeps};
ghost use Rattle.lines.specs.Bytes.{AppendsPart};
ghost use Rattle.prompt_lines.specs.Telling.{IsTold, whole_line};

use itoa::Buffer;
use std::alloc::AllocError;
use std::io::Write;

/// The most bytes of a line: a pipe that takes any takes as many at once.
const MOST_BYTES: usize = 4096;

/// Ends a line with how many in a row before it could not be written, two or more.
fn end_after(line: &mut Vec<u8>, missed: u64) -> Result<(), AllocError>
    ensures { OnOk result (line.new.items ≡ line.old.items ++ codes " (" ++ decimal missed
        ++ codes " lines before this one could not be written)\n") }
{
    let mut buffer = Buffer::new();
    line.extend_from_slice(b" (")?;
    line.extend_from_slice(buffer.format(missed).as_bytes())?;
    line.extend_from_slice(b" lines before this one could not be written)\n")
}

/// Ends a line: with how many in a row before it could not be written, where there are any, and the
/// line feed.
fn end_line(line: &mut Vec<u8>, missed: u64) -> Result<(), AllocError>
    ensures { OnOk result (line.new.items ≡ whole_line line.old.items missed) }
{
    match missed {
        0 => line.extend_from_slice(b"\n"),
        1 => line.extend_from_slice(b" (1 line before this one could not be written)\n"),
        _ => end_after(line, missed),
    }
}

/// Writes a text by one call. False: the writer took none of it, or a part.
fn write_once<W: Write>(writer: &mut W, text: &[u8]) -> bool
    ensures all { result ≡ true
        → Appends (W.contents writer.old) (W.contents writer.new) text.now }
    ensures part { result ≡ false
        → AppendsPart (W.contents writer.old) (W.contents writer.new) text.now }
{
    match writer.write(text) {
        Ok(count) => count == text.len(),
        Err(_) => false,
    }
}

/// Writes a line by one call, where the writer takes bytes now. Otherwise nothing is written. Gives
/// how many lines in a row could not be written.
///
/// A line that is written says how many in a row before it could not be. A line of more than 4,096
/// bytes, one for which memory is refused, and one of which the writer takes a part count among
/// those that could not be written.
pub fn tell_line<W: Write>(writer: &mut W, line: &mut Vec<u8>, missed: u64, takes: bool) -> u64
    ensures shut { takes ≡ false → Keeps (W.contents writer.old) (W.contents writer.new) }
    ensures told { IsTold takes (W.contents writer.old) (W.contents writer.new)
        (whole_line line.old.items missed) missed result }
{
    let more = missed.saturating_add(1);
    if !takes || end_line(line, missed).is_err() || line.len() > MOST_BYTES {
        return more;
    }
    if write_once(writer, line) { 0 } else { more }
}
