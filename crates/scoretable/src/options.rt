//! The arguments of the program, and how it ends.

use clap::builder::ValueParser;
use clap::{Arg, ArgAction, ArgMatches, Command, Error};
use command_line::borrowed;
use competition_file::file_given;
use fault_hints::{explain_listening, is_wanted};
use hall_file::hall_options::{
    FoundHall, Mistake, address_at, hall_of, option, tell, tell_mistake, tell_parse_error,
    tell_system, with_desks,
};
use hall_survey::Hall;
use http_server::Config;
use outbox::JournalFault;
use pages::{BrowserLimits, browsers_at};
use renewed_file::RenewedFile;
use std::alloc::{AllocError, Global};
use std::io::{ErrorKind, Read, Write};
use std::net::SocketAddr;
use std::{fs, io};
use table_service::{
    JournalFileFault, OpenedJournal, PROGRAM, ScoreTableEnd, SystemFile, hall_name, is_table_name,
    open_journal, serve,
};

const ABOUT: &str = "Takes scorecards in a browser, and enters them at the desks of a hall.";

const VERSION: &str = "1.0.0";

/// The title of the sheets on paper where the arguments do not say it.
const TITLE: &str = "Results";

/// The name of the table where the arguments do not say it.
const NAME: &str = "A";

/// What is said of an invalid name of a table.
const NO_NAME: &str = "--name has to be 1 to 60 bytes of text, with single spaces, without double \
                       quotes or hidden characters";

/// The journal where the arguments name none.
const JOURNAL: &str = "scoretable.journal";

/// The commands with which the competition was set up, where the arguments name no file.
const SETUP: &str = "setup.txt";

/// The most bytes of that file, 4 MiB.
const LONGEST_SETUP: u64 = 4_194_304;

/// What is said where the hall is broken.
const BROKEN: &str = "two desks of the hall have different commands: stop and look at their logs";

/// What help says of `--explain`.
const EXPLAIN: &str = "Where it cannot listen a second line says why, and what to do";

const AFTER: &str = "\
Shows the rounds of the hall at http://ADDR/, and takes the scorecards of a round at
http://ADDR/card/333-1. What is entered is put into the journal, submitted at a desk, and shown as
saved once it is decided. ADDR is that of --listen. It prints `scoretable at ADDR` once it listens,
and runs until it is stopped. What was not decided then is submitted after the next start. The log
keeps with each card who entered it and when: the name of --name and the machine's time, as in
`A 14:05:33 UTC`.

Where a later round is opened, the page proposes what the file of --setup says of it in a comment,
as `desk import` writes it: `# OPEN 333 2 ao5 - 60000 top:8`. The file is read once, at the start,
and without that option it is setup.txt, if there is one. Only who opens the round decides.

Of the competition's file of --wcif, a WCIF, the scorecards of http://ADDR/scorecards/333-1 have the
WCA ID, the group and the station, and come in that order; a time far below the best that it knows
is asked about once; http://ADDR/before says what is open before the results are sent in,
http://ADDR/records/333-1 which results of a round are personal records; http://ADDR/labels has a
label for each competitor; and without SETUP later rounds are proposed as the file has them. Nothing
is entered that would not be entered without it. A newer file of the same competition at its path
takes its place some seconds later; where it is damaged, or of another competition, standard error
gets a line that says so, and the file before is kept.

The desks are those of --hall and --to, or without these all desks of the hall that FILE describes.
Where they have a key, it is in the file of --key, or in the one that FILE names. Standard error
gets a line where a desk has another key, has no key, has a key and the score table has none, or is
of another hall, and where no majority of the desks answers.
Anybody who reaches ADDR can enter results, so it has to be an address of this machine alone, as
127.0.0.1:8081, unless --open-network is given.

Exit status: 2 invalid arguments, or help or the version; 3 FILE describes no hall, the key's file
gives no key, that of --wcif cannot be read or is no competition's, or the journal is damaged, of
another hall, or of an earlier scoretable; 4 an invalid address, the journal or the file of --setup
cannot be used, cannot listen, cannot continue, or two desks have different commands; 5 no memory.
Standard error gets a line that says why.";

/// The most browsers whose connections are open at once. With the longest bodies they take half a
/// GiB.
const MOST_BROWSERS: usize = 64;

/// How long a browser is waited for, in milliseconds.
const PATIENCE: u64 = 10_000;

/// The most bytes of a request's head.
const LONGEST_HEAD: usize = 16_384;

/// The most bytes of a request's body, 8 MiB: a competition's file with a thousand persons.
const LONGEST_BODY: usize = 8_388_608;

/// What the score table is to do.
#[derive(Drop)]
struct ScoreTableOptions {
    /// The hall, with one to five desks.
    hall: FoundHall,
    title: String,
    name: String,
    proposals: Vec<u8>,
    listen: SocketAddr,
    journal: OpenedJournal<SystemFile>,
}

/// The program, as the parser knows it.
fn command<'a>(alloc: Global) -> Result<Command<'a>, AllocError> {
    let plain = Command::new(alloc, PROGRAM)
        .about(ABOUT)
        .version(VERSION)
        .after_help(AFTER);
    let listen = "Where browsers find the score table, as 127.0.0.1:8081";
    let title = "The title of the sheets on paper; without this option Results";
    let name = "The name of this table in the log, 1 to 60 bytes; without this option A";
    let journal = "The file that keeps what was entered; without this option scoretable.journal";
    let setup = "The file that `desk import` printed; without this option setup.txt if it is there";
    let wcif = "The competition's file of the WCA's site, beside the list; see below";
    let open = Arg::new(alloc, "open-network")
        .long("open-network")
        .help("Lets ADDR be one that other machines reach")
        .action(ArgAction::SetTrue);
    let explain = Arg::new(alloc, "explain")
        .long("explain")
        .help(EXPLAIN)
        .action(ArgAction::SetTrue);
    with_desks(alloc, plain)?
        .arg(option(alloc, "listen", "ADDR", listen, ValueParser::string()).required(true))?
        .arg(option(alloc, "title", "TEXT", title, ValueParser::string()))?
        .arg(option(alloc, "name", "TEXT", name, ValueParser::string()))?
        .arg(option(alloc, "journal", "FILE", journal, ValueParser::string()))?
        .arg(option(alloc, "setup", "FILE", setup, ValueParser::string()))?
        .arg(option(alloc, "wcif", "FILE", wcif, ValueParser::string()))?
        .arg(open)?
        .arg(explain)
}

/// Why the arguments give no order.
#[derive(Drop)]
enum OptionsFault<'a> {
    /// The options are wrong.
    Wrong(Mistake<'a>),
    /// No table can have the name of `--name`.
    Name,
    /// Other machines reach the address of `--listen`, and `--open-network` is not given.
    Open,
    /// Browsers can't name the address of `--listen`.
    Nameless,
    /// The file at this path, which has the commands of the competition, can't be read.
    Setup(&'a str),
    /// The journal at this path can't be used.
    Journal(&'a str, JournalFileFault),
}

impl<'a> From<Mistake<'a>> for OptionsFault<'a> {
    ghost use Rattle.std.specs.Prelude.{◌≡◌};
    ghost use Rattle.scoretable.specs.declared.options.OptionsFault.TheVariants.{Wrong};

    ghost from_gives = { λ mistake refusal. refusal ≡ Wrong mistake };

    fn from(mistake: Mistake<'a>) -> OptionsFault<'a> {
        OptionsFault::Wrong(mistake)
    }
}

/// The name of the table.
fn name_of<'a>(rt: &HostRuntime, found: &ArgMatches<'a>) -> Result<String, OptionsFault<'a>> {
    let name = found.get_str("name").unwrap_or(NAME);
    if !is_table_name(name.as_bytes()) {
        return Err(OptionsFault::Name);
    }
    match String::from_str(rt.alloc(), name) {
        Ok(name) => Ok(name),
        Err(_) => Err(OptionsFault::Wrong(Mistake::NoMemory)),
    }
}

/// The bytes of a file, at most one more than a file of commands may have.
fn read_setup(rt: &HostRuntime, path: &str) -> io::Result<Vec<u8>> {
    let mut bytes = Vec::new(rt.alloc());
    let file = fs::open(rt, path)?;
    file.take(LONGEST_SETUP + 1).read_to_end(&mut bytes)?;
    Ok(bytes)
}

/// The commands with which the competition was set up; nothing where the arguments name no file and
/// there is none.
fn proposals_of<'a>(rt: &HostRuntime, found: &ArgMatches<'a>) -> Result<Vec<u8>, OptionsFault<'a>> {
    let named = found.get_str("setup");
    let path = named.unwrap_or(SETUP);
    match read_setup(rt, path) {
        Ok(bytes) if bytes.len() as u64 <= LONGEST_SETUP => Ok(bytes),
        Err(error) if error.kind() == ErrorKind::OutOfMemory => {
            Err(OptionsFault::Wrong(Mistake::NoMemory))
        }
        Err(error) if error.kind() == ErrorKind::NotFound && named.is_none() => {
            Ok(Vec::new(rt.alloc()))
        }
        _ => Err(OptionsFault::Setup(path)),
    }
}

/// What the arguments ask for. The journal is opened last.
fn order_of<'a>(
    rt: &HostRuntime,
    found: &ArgMatches<'a>,
) -> Result<ScoreTableOptions, OptionsFault<'a>> {
    let name = name_of(rt, found)?;
    let hall = hall_of(rt, found)?;
    let listen = address_at(rt, found, "listen")?;
    if listen.ip().is_unspecified() {
        return Err(OptionsFault::Nameless);
    }
    if !listen.ip().is_loopback() && !found.get_flag("open-network") {
        return Err(OptionsFault::Open);
    }
    let Ok(title) = String::from_str(rt.alloc(), found.get_str("title").unwrap_or(TITLE)) else {
        return Err(OptionsFault::Wrong(Mistake::NoMemory));
    };
    let proposals = proposals_of(rt, found)?;
    let path = found.get_str("journal").unwrap_or(JOURNAL);
    let Ok(named) = hall_name(rt.alloc(), hall.hall, &hall.desks) else {
        return Err(OptionsFault::Wrong(Mistake::NoMemory));
    };
    match open_journal(rt, path, &named, 0) {
        Ok(journal) => Ok(ScoreTableOptions {
            hall,
            title,
            name,
            proposals,
            listen,
            journal,
        }),
        Err(fault) => Err(OptionsFault::Journal(path, fault)),
    }
}

/// Says why the arguments give no order, and returns the status.
fn tell_refusal<F: Write>(faults: &mut F, refusal: OptionsFault<'_>) -> u8 {
    match refusal {
        OptionsFault::Wrong(mistake) => tell_mistake(faults, PROGRAM, mistake),
        OptionsFault::Name => tell(faults, PROGRAM, NO_NAME, 2),
        OptionsFault::Open => {
            let why = "other machines reach the address of --listen: see --open-network";
            tell(faults, PROGRAM, why, 4)
        }
        OptionsFault::Nameless => {
            let why = "--listen has to name the one address that browsers are to use";
            tell(faults, PROGRAM, why, 4)
        }
        OptionsFault::Setup(path) => {
            let _ = writeln!(faults, "{PROGRAM}: {path}: cannot be read");
            4
        }
        OptionsFault::Journal(_, JournalFileFault::Unread(JournalFault::NoMemory)) => {
            tell(faults, PROGRAM, "no memory", 5)
        }
        OptionsFault::Journal(path, fault) => {
            let _ = writeln!(faults, "{PROGRAM}: {path}: {fault}");
            match fault {
                JournalFileFault::Unread(_) => 3,
                JournalFileFault::System | JournalFileFault::InUse | JournalFileFault::TooLong => 4,
            }
        }
    }
}

/// Says that the program can't listen, and returns the status. A second line says why, where that
/// is asked for and on a terminal.
fn tell_listening<F: Write>(
    rt: &HostRuntime,
    faults: &mut F,
    error: &io::Error,
    found: &ArgMatches<'_>,
) -> u8 {
    let status = tell_system(faults, PROGRAM, error, "cannot listen");
    if is_wanted(rt, found.get_flag("explain")) {
        let _ = explain_listening(rt, faults, found.get_str("listen").unwrap_or(""));
    }
    status
}

/// Listens and serves until the system fails, and returns the status.
fn run_order<W: Write, F: Write>(
    rt: &HostRuntime,
    found: &ArgMatches<'_>,
    order: ScoreTableOptions,
    writer: &mut W,
    faults: &mut F,
) -> u8 {
    let alloc = rt.alloc();
    let ScoreTableOptions {
        hall,
        title,
        name,
        proposals,
        listen,
        journal,
    } = order;
    if journal.journal.cut {
        let why = "the journal's last line was cut off: left out";
        let _ = writeln!(faults, "{PROGRAM}: {why}");
    }
    let wcif = found.get_str("wcif");
    let mut renewed = RenewedFile::at(rt, wcif);
    let competition = match file_given(rt, wcif, PROGRAM, faults) {
        Ok(competition) => competition,
        Err(status) => return status,
    };
    let mut config = Config::default();
    config.limits.max_head_len = LONGEST_HEAD;
    config.max_body_len = LONGEST_BODY;
    let terms = BrowserLimits {
        most: MOST_BROWSERS,
        patience: PATIENCE,
        config,
    };
    let browsers = match browsers_at(rt, alloc, listen, terms) {
        Ok(browsers) => browsers,
        Err(error) => return tell_listening(rt, faults, &error, found),
    };
    let asked = Hall {
        number: hall.hall,
        addresses: &hall.desks,
        key: hall.key,
    };
    match serve(
        rt,
        alloc,
        asked,
        title,
        name,
        proposals,
        competition,
        &mut renewed,
        journal,
        browsers,
        writer,
        faults,
    ) {
        Ok(ScoreTableEnd::Failed) => tell(faults, PROGRAM, "cannot continue", 4),
        Ok(ScoreTableEnd::Broken) => tell(faults, PROGRAM, BROKEN, 4),
        Err(error) => tell_system(faults, PROGRAM, &error, "cannot continue"),
    }
}

/// Does what the arguments ask for, the program's own name first, and returns the exit status.
fn run_arguments<W: Write, F: Write>(
    rt: &HostRuntime,
    given: &[&str],
    writer: &mut W,
    faults: &mut F,
) -> u8 {
    let parsed = match command(rt.alloc()) {
        Ok(command) => command.try_get_matches_from(given),
        Err(_) => Err(Error::from(AllocError)),
    };
    match parsed {
        Ok(found) => match order_of(rt, &found) {
            Ok(order) => run_order(rt, &found, order, writer, faults),
            Err(refusal) => tell_refusal(faults, refusal),
        },
        Err(error) => tell_parse_error(rt.alloc(), PROGRAM, &error, writer, faults),
    }
}

/// Runs the program on the arguments that it was given, and returns the exit status.
pub fn run_given<W: Write, F: Write>(
    rt: &HostRuntime,
    given: &[String],
    writer: &mut W,
    faults: &mut F,
) -> u8 {
    match borrowed(rt.alloc(), given) {
        Ok(texts) => run_arguments(rt, &texts, writer, faults),
        Err(_) => tell(faults, PROGRAM, "no memory", 5),
    }
}
