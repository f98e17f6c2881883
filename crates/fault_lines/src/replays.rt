//! A replay as arguments ask for it, and how it ends.

ghost use Rattle.lines.specs.Bytes.{sides};
ghost use Rattle.replay.specs.Apart.{told};
ghost use Rattle.fault_lines.specs.Statuses.{EndsTask};

use crate::faults::tell_replay;
use replay::{replay, replay_apart};
use replay_arguments::ReplayTask;
use std::alloc::Global;
use std::io::{Read, Write};

/// Makes a replay and returns its status. The lines of refused commands go to the writer, in front
/// of the sheet, or, where the sheet alone is asked for, to the fault stream. The line of a fault
/// goes to the fault stream.
pub fn run_replay<R: Read, W: Write, F: Write>(
    alloc: Global,
    task: ReplayTask,
    reader: &mut R,
    writer: &mut W,
    faults: &mut F,
) -> u8
    ensures { EndsTask task result
        (sides R.remaining W.contents reader.old reader.new writer.old writer.new)
        (told F.contents faults.old faults.new) }
{
    if task.only_sheet {
        let ran = replay_apart(
            alloc, reader, writer, faults, task.event, task.round, task.style,
        );
        return tell_replay(faults, ran);
    }
    let ran = replay(alloc, reader, writer, task.event, task.round, task.style);
    tell_replay(faults, ran)
}
