//! A replay: the commands of a competition from a reader, one a line, and the sheet of a round that
//! they come to.
#![tactic(auto)]

mod apart;
mod fault;

ghost use Rattle.std.specs.Prelude.{◌≡◌, ◌++◌, IfOk, OnOk, IfErr};
ghost use Rattle.commands.specs.History.{nothing, after, answer_to};
ghost use Rattle.lines.specs.Bytes.{sides};
ghost use Rattle.replay.specs.Replay.{refusal_text, ReplaysAll, ReplaysPart};
ghost use Rattle.replay.specs.model.Applying.{AppliesAll, AppliesPart};

pub use apart::replay_apart;
use attempts::push_decimal;
use commands::{Answer, Meet};
pub use fault::ReplayFault;
use formats::Event;
use lines::{LineReader, write_long, write_out, write_text};
pub use lines::{RunFault, lines_are_parted};
use sheets::{SheetFault, SheetStyle, sheet};
use std::alloc::{AllocError, Global};
use std::io::{Read, Write};

/// Adds what is written for a line.
fn push_refusal(out: &mut Vec<u8>, line: u32, answer: Answer) -> Result<(), AllocError>
    ensures { OnOk result (out.new.items ≡ out.old.items ++ refusal_text line answer) }
{
    if let Answer::Refused(code) = answer {
        out.extend_from_slice(b"refused ")?;
        push_decimal(out, line)?;
        out.extend_from_slice(b" ")?;
        out.extend_from_slice(code.name().as_bytes())?;
        out.extend_from_slice(b"\n")?;
    }
    Ok(())
}

/// Applies the command of a line, whose number is its id.
fn apply_line(
    meet: &mut Meet,
    number: u32,
    line: &[u8],
    out: &mut Vec<u8>,
) -> Result<(), AllocError>
    ensures after { OnOk result (meet.new ≡ after meet.old number line.now) }
    ensures said { OnOk result
        (out.new.items ≡ out.old.items
        ++ refusal_text number (answer_to meet.old number line.now)) }
{
    let answer = meet.apply(u64::from(number), line)?;
    push_refusal(out, number, answer)
}

/// Applies the commands of all lines, and says how many there were.
pub(crate) fn apply_lines<R: Read, W: Write>(
    alloc: Global,
    meet: &mut Meet,
    reader: &mut R,
    writer: &mut W,
) -> Result<u32, RunFault>
    requires { meet.old ≡ nothing }
    ensures ok { IfOk result (AppliesAll meet.new
        (sides R.remaining W.contents reader.old reader.new writer.old writer.new)) }
    ensures err { IfErr result (AppliesPart
        (sides R.remaining W.contents reader.old reader.new writer.old writer.new)) }
{
    let mut lines = LineReader::new();
    let mut line = Vec::new(alloc);
    let mut out = Vec::new(alloc);
    loop {
        match lines.read_line(reader, &mut line) {
            Ok(true) => {
                apply_line(meet, lines.count(), &line, &mut out)?;
                write_long(writer, &mut out)?;
            }
            Ok(false) => break,
            Err(fault) => {
                write_out(writer, &mut out)?;
                return Err(fault);
            }
        }
    }
    write_out(writer, &mut out)?;
    Ok(lines.count())
}

/// Reads commands, one a line, and writes a line for each that is refused, and then the sheet of a
/// round.
///
/// Lines are parted by line feeds; a last line without one counts where it is not empty. Line `n`,
/// counted from 1, is the command with the id `n`. A refused one is written as `refused`, `n` and
/// the name of the refusal. The sheet is after all of them, and its position is the number of
/// lines.
///
/// # Errors
///
/// - `NoSuchRound` where no accepted command opened the round: the refused lines are written.
/// - `InputTooLong` where the input has more than 65,536 lines, more than 10,000 bytes in a line,
///   or more than 39,387,136 bytes: what the whole lines in front of the first byte too many gave
///   is written. This fault and those below are of the lines, `ReplayFault::Lines`.
/// - `Read` where a read fails, an interrupted one too: what the whole lines in front gave is
///   written.
/// - `Write` where a write fails, and `NoMemory` where memory runs out: a front part of the text
///   for the whole input is written.
pub fn replay<R: Read, W: Write>(
    alloc: Global,
    reader: &mut R,
    writer: &mut W,
    event: Event,
    round: u8,
    style: SheetStyle,
) -> Result<(), ReplayFault>
    ensures ok { OnOk result (ReplaysAll style event round
        (sides R.remaining W.contents reader.old reader.new writer.old writer.new)) }
    ensures err { IfErr result (ReplaysPart style event round
        (sides R.remaining W.contents reader.old reader.new writer.old writer.new)) }
{
    let mut meet = Meet::new(alloc)?;
    let position = apply_lines(alloc, &mut meet, reader, writer)?;
    let sheet = match sheet(alloc, &meet, event, round, position, style) {
        Ok(sheet) => sheet,
        Err(SheetFault::NoSuchRound) => return Err(ReplayFault::NoSuchRound),
        Err(SheetFault::NoMemory) => return Err(ReplayFault::Lines(RunFault::NoMemory)),
    };
    match write_text(writer, &sheet) {
        Ok(()) => Ok(()),
        Err(_) => Err(ReplayFault::Lines(RunFault::Write)),
    }
}
