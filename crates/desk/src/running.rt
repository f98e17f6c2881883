//! The run of the program: what is done of what its arguments ask for, and how it ends.

ghost use Rattle.std.specs.Prelude.{◌≡◌, map, string_bytes};
ghost use Rattle.std.specs.Io.KnownBytes.{Keeps};
ghost use Rattle.arguments.specs.Asking.{HasIds};
ghost use Rattle.command_line.specs.Arguments.{argument_texts};
ghost use Rattle.desk.specs.Statuses.{Ends, EndsHallFile, HasFew, Ran, calls, fault_of_log};
ghost use Rattle.desk.specs.Statuses.{form_of};
ghost use Rattle.lines.specs.Bytes.{sides};
ghost use Rattle.replay.specs.Apart.{told};

use crate::exported::{run_export, run_results};
use crate::made_key::run_key;
use crate::served::{run_hall_service, run_service};
use arguments::{Invocation, Task, parse, task_of};
use batch::{Dial, RoundSheet};
use command_line::borrowed;
use desk_choice::print_hall_file;
use desk_file::stored_log::{StoredLogFault, write_stored_log};
use desk_requests::DeskFault;
use exports::imports::{print_file, tell_import};
use fault_lines::{run_replay, tell_bad_number, tell_fault, tell_parse_error, tell_run};
use hall::hall;
use lines::RunFault;
use sqlite::Unknown;
use standings::Form;
use std::io::{Read, Write};
use subcommands::{
    StatusOptions, carry_at, copy_log_at, enter_lines_at, enter_words_at, make_folders, newest_at,
    status_at, tell_log, tell_missing,
};

/// The fault of a stored log.
fn fault_of_log(fault: StoredLogFault) -> DeskFault
    ensures { result ≡ fault_of_log fault }
{
    match fault {
        StoredLogFault::Damaged => DeskFault::DamagedStore,
        StoredLogFault::Device => DeskFault::StoreDevice,
        StoredLogFault::Write => DeskFault::Run(RunFault::Write),
        StoredLogFault::NoMemory => DeskFault::Run(RunFault::NoMemory),
    }
}

/// In which form the desks of a hall are reported.
fn form_of(json: bool) -> Form
    ensures { result ≡ form_of json }
{
    if json { Form::Json } else { Form::Text }
}

/// Prints the file that describes a hall, as [`print_hall_file`] does, or makes it with keys and a
/// folder for each machine, as [`make_folders`] does, and returns the exit status.
fn run_hall_file<W: Write, F: Write>(
    rt: &HostRuntime,
    hall: u32,
    addresses: &[&str],
    keys: bool,
    writer: &mut W,
    faults: &mut F,
) -> u8
    ensures ends { EndsHallFile keys result hall (map (λ a. a.now) addresses.now)
        (W.contents writer.old) (W.contents writer.new) }
    ensures quiet { result ≡ 0 → Keeps (F.contents faults.old) (F.contents faults.new) }
{
    if keys {
        return make_folders(rt, hall, addresses, writer, faults);
    }
    match print_hall_file(rt.alloc(), hall, addresses, writer, faults) {
        Ok(()) => 0,
        Err(fault) => tell_missing(rt, faults, fault, false),
    }
}

/// Does what a task asks for, and returns the exit status.
fn run_task<D: Dial, R: Read, W: Write, F: Write>(
    rt: &HostRuntime,
    dial: &mut D,
    asked: Invocation<'_>,
    reader: &mut R,
    writer: &mut W,
    faults: &mut F,
) -> u8
    requires ids { HasIds asked.task }
    requires few { HasFew asked.task }
    ensures { Ends asked.entry.task result
        (sides R.remaining W.contents reader.old reader.new writer.old writer.new)
        (calls D.dialed dial.old dial.new) (told F.contents faults.old faults.new) }
{
    let explains = asked.explains;
    match asked.task {
        Task::Replay(task) => run_replay(rt.alloc(), task, reader, writer, faults),
        Task::Import { file, options } => match print_file(rt, file, options, writer) {
            Ok(()) => 0,
            Err(fault) => tell_import(faults, file, &fault),
        },
        Task::Export { file, running } => run_export(rt, file, running, reader, writer, faults),
        Task::Results => run_results(rt, reader, writer, faults),
        Task::Hall { desks } => {
            let ran = hall(rt.alloc(), reader, writer, desks);
            tell_run(faults, ran)
        }
        Task::HallFile {
            hall,
            addresses,
            keys,
        } => run_hall_file(rt, hall, addresses, keys, writer, faults),
        Task::Key { file } => run_key(rt, file, explains, writer, faults),
        Task::Carry {
            place,
            patience,
            request,
        } => carry_at(rt, dial, place, patience, request, explains, writer, faults),
        Task::Newest {
            place,
            patience,
            event,
            round,
            style,
        } => {
            let sheet = RoundSheet {
                event,
                round,
                style,
            };
            newest_at(rt, dial, place, patience, sheet, explains, writer, faults)
        }
        Task::Enter {
            place,
            patience,
            id,
            words,
            waits,
        } => enter_words_at(
            rt, dial, place, patience, id, words, waits, explains, writer, faults,
        ),
        Task::EnterLines {
            place,
            patience,
            lines,
        } => enter_lines_at(
            rt, dial, place, patience, lines, explains, reader, writer, faults,
        ),
        Task::Log { store } => match write_stored_log(rt, store, Unknown, writer) {
            Ok(()) => 0,
            Err(fault) => tell_log(rt, faults, fault_of_log(fault), store, explains),
        },
        Task::CopyLog {
            place,
            patience,
            from,
            form,
        } => copy_log_at(
            rt, dial, place, patience, from, form, explains, writer, faults,
        ),
        Task::Status {
            desks,
            patience,
            json,
            watches,
            all,
        } => {
            let form = form_of(json);
            let way = StatusOptions { form, watches, all };
            status_at(rt, dial, desks, patience, way, writer, faults)
        }
        Task::Serve { service } => run_service(rt, service, explains, writer, faults),
        Task::ServeHall { file, wanted } => {
            run_hall_service(rt, dial, file, wanted, explains, writer, faults)
        }
    }
}

/// Parses the arguments of the program, the program's own name first, does what they ask for, and
/// returns the exit status.
///
/// The status is 0 where it was done; 1 where a part of a hall's desks lags or does not answer,
/// something is said of a file that is exported, or a command that was waited for was refused; 2
/// where the parser refused the arguments, with its text on `faults`, or where they ask for help or
/// the version, with its text on `writer`; 3 for a named refusal, and where no majority of a hall's
/// desks answers; 4 for a device that failed, 5 for `no memory`. The texts of the last three are
/// one line on `faults`, but for those of a competition's file, of which there is one for each; on
/// a terminal and with `--explain` a second line says why: [`DeskFault`], [`tell_import`] and
/// [`tell_export`](exports::tell_export) have them. What each subcommand reads, writes and refuses
/// is said at [`run_replay`], [`print_file`], [`run_export`], [`run_results`],
/// [`hall`](hall::hall), and in the crate `subcommands`. Desks are asked by `dial`.
pub fn run_arguments<'a, D: Dial, R: Read, W: Write, F: Write>(
    rt: &HostRuntime,
    dial: &mut D,
    given: &'a [&'a str],
    reader: &mut R,
    writer: &mut W,
    faults: &mut F,
) -> u8
    ensures { Ran (argument_texts given.now) result
        (sides R.remaining W.contents reader.old reader.new writer.old writer.new)
        (calls D.dialed dial.old dial.new) (told F.contents faults.old faults.new) }
{
    let alloc = rt.alloc();
    let matches = match parse(alloc, given) {
        Ok(matches) => matches,
        Err(error) => return tell_parse_error(alloc, &error, writer, faults),
    };
    let Some(asked) = task_of(&matches) else {
        return tell_bad_number(faults);
    };
    run_task(rt, dial, asked, reader, writer, faults)
}

/// Runs the program on the arguments that it was given: as [`run_arguments`].
pub fn run_given<D: Dial, R: Read, W: Write, F: Write>(
    rt: &HostRuntime,
    dial: &mut D,
    given: &[String],
    reader: &mut R,
    writer: &mut W,
    faults: &mut F,
) -> u8
    ensures { Ran (map string_bytes given.now) result
        (sides R.remaining W.contents reader.old reader.new writer.old writer.new)
        (calls D.dialed dial.old dial.new) (told F.contents faults.old faults.new) }
{
    let Ok(texts) = borrowed(rt.alloc(), given) else {
        return tell_fault(faults, RunFault::NoMemory);
    };
    run_arguments(rt, dial, &texts, reader, writer, faults)
}
