//! Writing a whole text, at once or as it grows.

ghost use Rattle.std.specs.Prelude.{◌≡◌, ◌<◌, [], OnOk, OnErr, IfErr, length};
ghost use Rattle.std.specs.Io.KnownBytes.{Appends};
ghost use Rattle.lines.specs.Bytes.{WritesUpTo, AppendsPart};
ghost use Rattle.lines.specs.declared.fault.RunFault.TheVariants as run_fault;

use crate::fault::RunFault;
use std::io::Write;

/// How many bytes wait to be written before [`write_long`] writes them.
const LONG: usize = 4096;

/// A write failed.
#[derive(Clone, Copy, Debug)]
pub struct WriteFailed;

/// Writes all bytes of a text. Where a write fails, a front part of the text is written.
fn write_bytes<W: Write>(writer: &mut W, text: &[u8]) -> Result<(), WriteFailed>
    ensures ok { OnOk result (Appends (W.contents writer.old) (W.contents writer.new) text.now) }
    ensures err { OnErr result
        (AppendsPart (W.contents writer.old) (W.contents writer.new) text.now) }
{
    let mut rest = text;
    while !rest.is_empty() {
        match writer.write(rest) {
            Ok(0) => return Err(WriteFailed),
            Ok(count) => {
                let (_, after) = rest.split_at(count);
                rest = after;
            }
            Err(_) => return Err(WriteFailed),
        }
    }
    Ok(())
}

/// Gives the writer a whole text, and then asks it to flush. Where either fails, a front part of
/// the text was given.
///
/// What was given is in the writer's contents before the flush, and the flush leaves them as they
/// are. So the contract says nothing of the flush itself: a writer that holds bytes back hands them
/// on where its own `flush` does.
pub fn write_text<W: Write>(writer: &mut W, text: &[u8]) -> Result<(), WriteFailed>
    ensures ok { OnOk result (Appends (W.contents writer.old) (W.contents writer.new) text.now) }
    ensures err { OnErr result
        (AppendsPart (W.contents writer.old) (W.contents writer.new) text.now) }
{
    write_bytes(writer, text)?;
    match writer.flush() {
        Ok(()) => Ok(()),
        Err(_) => Err(WriteFailed),
    }
}

/// Writes a text that waits, all of it, and empties it. Where a write fails, a front part of it is
/// written.
pub fn write_out<W: Write>(writer: &mut W, text: &mut Vec<u8>) -> Result<(), RunFault>
    ensures ok { OnOk result
        (Appends (W.contents writer.old) (W.contents writer.new) text.old.items) }
    ensures empty { OnOk result (text.new.items ≡ []) }
    ensures err { OnErr result
        (AppendsPart (W.contents writer.old) (W.contents writer.new) text.old.items) }
    ensures fault { IfErr result (λ e. e ≡ run_fault.Write) }
{
    match write_text(writer, text) {
        Ok(()) => {
            text.clear();
            Ok(())
        }
        Err(_) => Err(RunFault::Write),
    }
}

/// Writes a text that waits, all of it, where it has 4,096 bytes or more. What is left of it waits
/// on: at most 4,095 bytes. Where a write fails, a front part of the text is written.
pub fn write_long<W: Write>(writer: &mut W, text: &mut Vec<u8>) -> Result<(), RunFault>
    ensures ok { OnOk result
        (WritesUpTo (W.contents writer.old) (W.contents writer.new)
        text.old.items text.new.items) }
    ensures short { OnOk result (length text.new.items < 4096) }
    ensures err { OnErr result
        (AppendsPart (W.contents writer.old) (W.contents writer.new) text.old.items) }
    ensures fault { IfErr result (λ e. e ≡ run_fault.Write) }
{
    if text.len() < LONG {
        Ok(())
    } else {
        write_out(writer, text)
    }
}
