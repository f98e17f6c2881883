//! The run of the program: what is done of what its arguments ask for, and how it ends.

ghost use Rattle.std.specs.Prelude.{map, string_bytes};
ghost use Rattle.command_line.specs.Arguments.{argument_texts};
ghost use Rattle.lines.specs.Bytes.{sides};
ghost use Rattle.replay.specs.Apart.{told};
ghost use Rattle.replayer.specs.Runs.{Ran};

use command_line::borrowed;
use fault_lines::{run_replay, tell_bad_number, tell_fault, tell_parse_error};
use lines::RunFault;
use replay_arguments::{parse_replay, replay_task};
use std::alloc::Global;
use std::io::{Read, Write};

/// Parses the arguments of the program, the program's own name first, makes the replay that they
/// ask for, and returns the exit status.
///
/// The status is 0 where the sheet was written; 2 where the parser refused the arguments, with its
/// text on `faults`, or where they ask for help or the version, with its text on `writer`; 3 for a
/// named refusal, 4 for a stream that failed, 5 for `no memory`. The texts of these three are one
/// line on `faults`, that of the [`ReplayFault`](replay::ReplayFault). What is read, written and
/// refused is said at [`replay`](replay::replay), and for a sheet alone at
/// [`replay_apart`](replay::replay_apart).
pub fn run_arguments<'a, R: Read, W: Write, F: Write>(
    alloc: Global,
    given: &'a [&'a str],
    reader: &mut R,
    writer: &mut W,
    faults: &mut F,
) -> u8
    ensures { Ran (argument_texts given.now) result
        (sides R.remaining W.contents reader.old reader.new writer.old writer.new)
        (told F.contents faults.old faults.new) }
{
    let matches = match parse_replay(alloc, given) {
        Ok(matches) => matches,
        Err(error) => return tell_parse_error(alloc, &error, writer, faults),
    };
    let Some(task) = replay_task(&matches) else {
        return tell_bad_number(faults);
    };
    run_replay(alloc, task, reader, writer, faults)
}

/// Runs the program on the arguments that it was given: as [`run_arguments`].
pub fn run_given<R: Read, W: Write, F: Write>(
    alloc: Global,
    given: &[String],
    reader: &mut R,
    writer: &mut W,
    faults: &mut F,
) -> u8
    ensures { Ran (map string_bytes given.now) result
        (sides R.remaining W.contents reader.old reader.new writer.old writer.new)
        (told F.contents faults.old faults.new) }
{
    let Ok(texts) = borrowed(alloc, given) else {
        return tell_fault(faults, RunFault::NoMemory);
    };
    run_arguments(alloc, &texts, reader, writer, faults)
}
