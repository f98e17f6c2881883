//! What the arguments ask for.

ghost use Rattle.std.specs.Prelude.{codes, IfSome};
ghost use Rattle.clap.specs.Words.{found_of, rows_of, subcommand_rows_of};
ghost use Rattle.arguments.specs.Asking.{Finds, FindsExplain, IsRequest, IsTask};

use crate::enter::enter_of;
use crate::enter_lines::lines_of;
use crate::export::export_of;
use crate::hall::hall_of;
use crate::hall_files::hall_file_of;
use crate::import::import_of;
use crate::key::key_of;
use crate::log::log_of;
use crate::places::{DeskPlaces, Place, placed};
use crate::results::results_of;
use crate::serve::serve_of;
use crate::sheet::sheet_of;
use crate::status::status_of;
use crate::values::id_at;
use clap::ArgMatches;
use formats::Event;
use hall_file::service::{ServeOptions, Service};
use replay_arguments::{ReplayTask, flag_at, replay_of};
use wcif::Options;
use wire::{SheetStyle, Version};

/// What a client asks of a desk with one frame.
#[derive(Clone, Copy)]
pub enum ClientRequest {
    /// What happened to a command.
    Ask {
        id: u64,
    },
    /// The sheet of a round at a position of the log.
    Sheet {
        event: Event,
        round: u8,
        position: u32,
        style: SheetStyle,
    },
    /// To do what a tick of a clock asks for.
    Tick,
    /// To end.
    Stop,
}

/// How the lines of an input are entered.
#[derive(Clone, Copy)]
pub struct EnterOptions {
    /// The id of the first line; without it one is chosen.
    pub first_id: Option<u64>,
    /// Whether each command is waited for until it is decided.
    pub waits: bool,
    /// Whether the progress is shown.
    pub progress: bool,
    /// Whether the first refused command ends it.
    pub stops_at_refusal: bool,
    /// Whether lines are sent that are no commands.
    pub sends_all: bool,
}

/// In which form the log of a desk that runs is printed.
#[derive(Clone, Copy)]
pub enum LogFormOption {
    /// As lines that `replay` reads.
    Lines,
    /// As rows for people: who entered what and when.
    Rows,
    /// So the changes of the result of a competitor in a round.
    ChangesOf {
        event: Event,
        round: u8,
        number: u16,
    },
}

/// What is asked of a desk that is to serve, of the hall that a file describes. Where its options
/// name no file of the hall's key, the hall's file names one or none.
#[derive(Clone, Copy)]
pub struct HallService<'a> {
    pub options: ServeOptions<'a>,
    /// Whether all desks of the hall are new, so that none has to answer.
    pub new_hall: bool,
}

/// What the arguments ask for.
#[derive(Clone, Copy)]
pub enum Task<'a> {
    /// The sheet of a round, from commands.
    Replay(ReplayTask),
    /// The commands that set up the competition of a file.
    Import {
        file: &'a str,
        options: Options,
    },
    /// The file of a competition, with the results of a log.
    Export {
        file: &'a str,
        running: bool,
    },
    /// The results of all rounds of a log, as JSON.
    Results,
    /// A hall of this many desks, run from a script.
    Hall {
        desks: u8,
    },
    /// The file that describes a hall; with its keys, and a folder for each machine, or printed.
    HallFile {
        hall: u32,
        addresses: &'a [&'a str],
        keys: bool,
    },
    /// A new key, in a file that is made, or on standard output.
    Key {
        file: Option<&'a str>,
    },
    /// To ask a desk.
    Carry {
        place: Place<'a>,
        patience: u32,
        request: ClientRequest,
    },
    /// The newest sheet of a round, from a desk.
    Newest {
        place: Place<'a>,
        patience: u32,
        event: Event,
        round: u8,
        style: SheetStyle,
    },
    /// To enter a command at a desk, whose words are between single spaces; without an id one is
    /// chosen.
    Enter {
        place: Place<'a>,
        patience: u32,
        id: Option<u64>,
        words: &'a [&'a str],
        waits: bool,
    },
    /// To enter the lines of an input at a desk.
    EnterLines {
        place: Place<'a>,
        patience: u32,
        lines: EnterOptions,
    },
    /// The log of a stopped desk, from its file.
    Log {
        store: &'a str,
    },
    /// The log of a desk that runs, from a position on.
    CopyLog {
        place: Place<'a>,
        patience: u32,
        from: u32,
        form: LogFormOption,
    },
    /// How the desks of a hall are, and this machine too where `all` is wanted.
    Status {
        desks: DeskPlaces<'a>,
        patience: u32,
        json: bool,
        watches: bool,
        all: bool,
    },
    /// To run a desk.
    Serve {
        service: Service<'a>,
    },
    /// To run a desk of the hall that a file describes.
    ServeHall {
        file: &'a str,
        wanted: HallService<'a>,
    },
}

/// What the arguments ask for, and whether a second line is to say why a fault came.
#[derive(Clone, Copy)]
pub struct Invocation<'a> {
    pub task: Task<'a>,
    pub explains: bool,
}

/// The request of a subcommand's arguments, where the subcommand makes one.
fn request_of(name: &str, found: &ArgMatches<'_>) -> Option<ClientRequest>
    ensures { IfSome result (λ request. IsRequest request name.now (rows_of (found_of found.now))) }
{
    match name {
        "ask" => {
            let id = id_at(found, "id")?;
            Some(ClientRequest::Ask { id })
        }
        "tick" => Some(ClientRequest::Tick),
        "stop" => Some(ClientRequest::Stop),
        _ => None,
    }
}

/// The task of a subcommand that makes a request to a desk.
fn carried<'a>(name: &str, found: &ArgMatches<'a>) -> Option<Task<'a>>
    ensures { IfSome result (λ task. IsTask task name.now (rows_of (found_of found.now))) }
{
    let request = request_of(name, found)?;
    let (place, patience) = placed(found)?;
    Some(Task::Carry {
        place,
        patience,
        request,
    })
}

/// The task of the arguments of `replay`.
fn replayed<'a>(found: &ArgMatches<'a>) -> Option<Task<'a>>
    ensures { IfSome result (λ task. IsTask task (codes "replay") (rows_of (found_of found.now))) }
{
    let task = replay_of(found)?;
    Some(Task::Replay(task))
}

/// The task of the arguments of a subcommand that runs a desk or asks one.
fn desk_task<'m, 'a: 'm>(name: &str, found: &'m ArgMatches<'a>) -> Option<Task<'m>>
    ensures { IfSome result (λ task. IsTask task name.now (rows_of (found_of found.now))) }
{
    match name {
        "serve" => serve_of(found),
        "status" => status_of(found),
        "enter" => enter_of(found),
        "enter-lines" => lines_of(found),
        "log" => log_of(found),
        "sheet" => sheet_of(found),
        _ => carried(name, found),
    }
}

/// The task of a subcommand's arguments.
fn task_named<'m, 'a: 'm>(name: &str, found: &'m ArgMatches<'a>) -> Option<Task<'m>>
    ensures { IfSome result (λ task. IsTask task name.now (rows_of (found_of found.now))) }
{
    match name {
        "replay" => replayed(found),
        "import" => import_of(found),
        "export" => export_of(found),
        "results" => results_of(found),
        "hall" => hall_of(found),
        "hall-file" => hall_file_of(found),
        "key" => key_of(found),
        _ => desk_task(name, found),
    }
}

/// What parsed arguments ask for. Nothing where a number has a sign or leading zeros or is out of
/// its range, or where arguments are given together that cannot be; the parser refuses the latter.
pub fn task_of<'m, 'a: 'm>(matches: &'m ArgMatches<'a>) -> Option<Invocation<'m>>
    ensures task { IfSome result (λ asked. Finds (subcommand_rows_of matches.now) asked.task) }
    ensures explains { IfSome result
        (λ asked. FindsExplain (subcommand_rows_of matches.now) asked.explains) }
{
    let (name, found) = matches.subcommand()?;
    let task = task_named(name, found)?;
    let explains = flag_at(found, "explain");
    Some(Invocation { task, explains })
}
