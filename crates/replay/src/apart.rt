//! A replay that writes the refused lines to one writer and the sheet to another.

ghost use Rattle.std.specs.Prelude.{OnOk, IfErr};
ghost use Rattle.lines.specs.Bytes.{sides};
ghost use Rattle.replay.specs.Apart.{ReplaysAllApart, ReplaysPartApart, told};

use crate::apply_lines;
use crate::fault::ReplayFault;
use commands::Meet;
use formats::Event;
use lines::{RunFault, write_text};
use sheets::{SheetFault, SheetStyle, sheet};
use std::alloc::Global;
use std::io::{Read, Write};

/// Reads commands as [`replay`](crate::replay) does, and writes a line for each that is refused to
/// `refused`, and the sheet of a round alone to the writer.
///
/// # Errors
///
/// Those of [`replay`](crate::replay). The writer gets nothing before all refused lines are
/// written, and nothing at all at `NoSuchRound`, `InputTooLong`, `Read` and `NoMemory`.
pub fn replay_apart<R: Read, W: Write, F: Write>(
    alloc: Global,
    reader: &mut R,
    writer: &mut W,
    refused: &mut F,
    event: Event,
    round: u8,
    style: SheetStyle,
) -> Result<(), ReplayFault>
    ensures ok { OnOk result (ReplaysAllApart style event round
        (sides R.remaining W.contents reader.old reader.new writer.old writer.new)
        (told F.contents refused.old refused.new)) }
    ensures err { IfErr result (ReplaysPartApart style event round
        (sides R.remaining W.contents reader.old reader.new writer.old writer.new)
        (told F.contents refused.old refused.new)) }
{
    let mut meet = Meet::new(alloc)?;
    let position = apply_lines(alloc, &mut meet, reader, refused)?;
    let sheet = match sheet(alloc, &meet, event, round, position, style) {
        Ok(sheet) => sheet,
        Err(SheetFault::NoSuchRound) => return Err(ReplayFault::NoSuchRound),
        Err(SheetFault::NoMemory) => return Err(ReplayFault::Lines(RunFault::NoMemory)),
    };
    match write_text(writer, &sheet) {
        Ok(()) => Ok(()),
        Err(_) => Err(ReplayFault::Lines(RunFault::Write)),
    }
}
