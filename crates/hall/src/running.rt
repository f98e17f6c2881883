//! A script run from line to line, and the logs after it.

ghost use Rattle.std.specs.Prelude.{◌≡◌, ◌⊎◌, ◌↔◌, ◌+◌, ◌++◌, ◌∷◌, [], IfOk, OnOk, OnErr, IfErr};
ghost use Rattle.std.specs.{Prelude.IsErrOf, Io.KnownBytes.Appends};
ghost use Rattle.learner.specs.declared.event.WorldEvent.{WorldEvent};
ghost use Rattle.lines.specs.Bytes.{AppendsPart, sides};
ghost use Rattle.hall.specs.{world.WorldValues.extended, Texts.log_text};
ghost use Rattle.hall.specs.Halls.{event_text, logs_text, RunsAll, RunsPart};
ghost use Rattle.hall.specs.model.Running.{HandlesLine, EndsBy, DoesScript, StopsScript, IsStopped};

use crate::printing::{push_entry, push_messages, push_refusal};
use crate::scripts::event_of;
use crate::world::{World, WorldFault};
use acceptor::NoMemory;
use learner::event::WorldEvent;
use learner::log::Log;
use lines::{LineReader, RunFault, write_long, write_out};
use std::alloc::Global;
use std::io::{Read, Write};

/// Does an event, and adds what is printed for it.
fn happen(
    world: &mut World,
    desks: u8,
    event: WorldEvent,
    out: &mut Vec<u8>,
) -> Result<(), NoMemory>
    requires { world.old.desks ≡ desks }
    ensures world { OnOk result (world.new ≡ extended world.old (event ∷ [])) }
    ensures said { OnOk result
        (out.new.items ≡ out.old.items ++ event_text desks world.old.events event) }
{
    let told = world.sent().len();
    world.run(&[event])?;
    push_messages(out, told, world.sent())?;
    push_refusal(out, world.done(), world.refused())
}

/// Does the event of a line, which is after those that were done, and adds what is printed for it.
/// False where the line spells none; then nothing is done.
fn do_line(
    alloc: Global,
    world: &mut World,
    desks: u8,
    line: &[u8],
    out: &mut Vec<u8>,
) -> Result<bool, NoMemory>
    requires { world.old.desks ≡ desks }
    ensures { IfOk result (λ done.
        HandlesLine done desks line.now world.old world.new out.old.items out.new.items) }
{
    let Some(event) = event_of(alloc, desks, line)? else {
        return Ok(false);
    };
    happen(world, desks, event, out)?;
    Ok(true)
}

/// Writes what waits, and gives this fault, or `Write` where that fails.
fn end_by<W: Write>(writer: &mut W, out: &mut Vec<u8>, fault: RunFault) -> RunFault
    ensures { EndsBy result fault (W.contents writer.old) (W.contents writer.new) out.old.items }
{
    match write_out(writer, out) {
        Ok(()) => fault,
        Err(_) => RunFault::Write,
    }
}

/// Does the events of all lines.
fn do_lines<R: Read, W: Write>(
    alloc: Global,
    world: &mut World,
    desks: u8,
    reader: &mut R,
    writer: &mut W,
) -> Result<(), RunFault>
    requires { world.old ≡ record { desks = desks; events = [] } }
    ensures ok { OnOk result (DoesScript desks world.new
        (sides R.remaining W.contents reader.old reader.new writer.old writer.new)) }
    ensures err { IfErr result (StopsScript desks
        (sides R.remaining W.contents reader.old reader.new writer.old writer.new)) }
{
    let mut lines = LineReader::new();
    let mut line = Vec::new(alloc);
    let mut out = Vec::new(alloc);
    loop {
        match lines.read_line(reader, &mut line) {
            Ok(true) => {
                let Ok(done) = do_line(alloc, world, desks, &line, &mut out) else {
                    return Err(RunFault::NoMemory);
                };
                if !done {
                    let line = lines.count();
                    return Err(end_by(writer, &mut out, RunFault::BadLine { line }));
                }
                let Ok(()) = write_long(writer, &mut out) else {
                    return Err(RunFault::Write);
                };
            }
            Ok(false) => break,
            Err(fault) => return Err(end_by(writer, &mut out, fault)),
        }
    }
    match write_out(writer, &mut out) {
        Ok(()) => Ok(()),
        Err(_) => Err(RunFault::Write),
    }
}

/// Writes the log of a desk.
fn write_log<W: Write>(alloc: Global, writer: &mut W, desk: u8, log: &Log) -> Result<(), RunFault>
    ensures ok { OnOk result (Appends (W.contents writer.old) (W.contents writer.new)
        (log_text desk log.now.entries)) }
    ensures err { OnErr result (AppendsPart (W.contents writer.old) (W.contents writer.new)
        (log_text desk log.now.entries)) }
    ensures fault { IfErr result IsStopped }
{
    let mut out = Vec::new(alloc);
    for pos in 0..log.len() {
        let Some(entry) = log.entry(pos) else {
            continue;
        };
        let Ok(()) = push_entry(&mut out, desk, pos, entry) else {
            return Err(RunFault::NoMemory);
        };
        let Ok(()) = write_long(writer, &mut out) else {
            return Err(RunFault::Write);
        };
    }
    match write_out(writer, &mut out) {
        Ok(()) => Ok(()),
        Err(_) => Err(RunFault::Write),
    }
}

/// Writes the log of each desk.
fn write_logs<W: Write>(
    alloc: Global,
    writer: &mut W,
    desks: u8,
    world: &World,
) -> Result<(), RunFault>
    requires same { world.now.desks ≡ desks }
    requires count { (desks ≡ 3) ⊎ (desks ≡ 5) }
    ensures ok { OnOk result (Appends (W.contents writer.old) (W.contents writer.new)
        (logs_text desks world.now.events)) }
    ensures err { OnErr result (AppendsPart (W.contents writer.old) (W.contents writer.new)
        (logs_text desks world.now.events)) }
    ensures fault { IfErr result IsStopped }
{
    for desk in 1..desks + 1 {
        write_log(alloc, writer, desk, world.log(desk))?;
    }
    Ok(())
}

/// Reads a script, one event a line, does the events in a hall of three or five desks, and writes
/// what the desks send, what they refuse, and at the end their logs.
///
/// Lines are parted by line feeds; a last line without one counts where it is not empty. A line is
/// `submit D ID TEXT`, `start D`, `tick D`, `deliver K` or `restart D`: D is the number of a desk,
/// ID is 1 to 2^63 - 1, TEXT has at most 600 bytes and may be empty, and K, 1 to 999,999,999, names
/// the K-th message ever sent; where there is none, nothing happens. Fields are parted by one
/// space, and numbers are decimal without leading zeros.
///
/// The k-th message that is sent is written as `m<k> <from> <to>`, its kind and its fields, and a
/// refused event as `refused <line> <fault>`. At the end is a line for each entry of each desk's
/// log: `desk <d> <pos> <id> <text>`.
///
/// # Errors
///
/// - `BadCount` where `desks` is neither 3 nor 5: nothing is read or written.
/// - `InputTooLong` where the input has more than 65,536 lines, more than 10,000 bytes in a line,
///   or more than 39,387,136 bytes: what the whole lines in front of the first byte too many gave
///   is written, without logs.
/// - `BadLine` at the first line that spells no event: what the lines in front gave is written,
///   without logs, and nothing more is read.
/// - `Read` where a read fails, an interrupted one too: what the whole lines in front gave is
///   written, without logs.
/// - `Write` where a write fails, and `NoMemory` where memory runs out: a front part of the text
///   for the whole input is written.
pub fn hall<R: Read, W: Write>(
    alloc: Global,
    reader: &mut R,
    writer: &mut W,
    desks: u8,
) -> Result<(), RunFault>
    ensures bad_count { IsErrOf result RunFault.BadCount ↔ (¬ ((desks ≡ 3) ⊎ (desks ≡ 5))) }
    ensures ok { OnOk result (RunsAll desks
        (sides R.remaining W.contents reader.old reader.new writer.old writer.new)) }
    ensures err { IfErr result (RunsPart desks
        (sides R.remaining W.contents reader.old reader.new writer.old writer.new)) }
{
    let mut world = match World::new(alloc, desks) {
        Ok(world) => world,
        Err(WorldFault::BadCount) => return Err(RunFault::BadCount),
        Err(WorldFault::NoMemory) => return Err(RunFault::NoMemory),
    };
    do_lines(alloc, &mut world, desks, reader, writer)?;
    write_logs(alloc, writer, desks, &world)
}
