//! The arguments of the program, and how it ends.

use board_service::{BoardEnd, PROGRAM, serve};
use clap::builder::ValueParser;
use clap::{Arg, ArgAction, ArgMatches, Command, Error};
use command_line::borrowed;
use competition_file::file_given;
use fault_hints::{explain_listening, is_wanted};
use hall_file::hall_options::{
    FoundHall, Mistake, address_at, hall_of, number_at, option, tell, tell_mistake,
    tell_parse_error, tell_system, with_desks,
};
use hall_survey::Hall;
use http_server::Config;
use pages::{BrowserLimits, browsers_at};
use renewed_file::RenewedFile;
use std::alloc::{AllocError, Global};
use std::io;
use std::io::Write;
use std::net::SocketAddr;

const ABOUT: &str = "Keeps up with a hall's log, and serves its sheets as pages for browsers.";

const VERSION: &str = "1.0.0";

/// How many seconds the board waits for a browser where the arguments do not say it.
const PATIENCE: u64 = 10;

/// The title of the pages where the arguments do not say it.
const TITLE: &str = "Results";

/// What is said where the hall is broken.
const BROKEN: &str = "two desks of the hall have different commands: stop and look at their logs";

/// What help says of `--explain`.
const EXPLAIN: &str = "Where it cannot listen a second line says why, and what to do";

const AFTER: &str = "\
Asks the desks of a hall for their log, one at a time, and asks the next one where a desk does
not answer or is behind. It shows all rounds that were opened at http://ADDR/, and for a projector
one after the other at http://ADDR/hall, or one alone at http://ADDR/hall/333-1. A round for a phone
is at http://ADDR/333-1 and its table at http://ADDR/333-1.csv; both as they were after 17 commands
are at http://ADDR/at/17/333-1. All competitors are at http://ADDR/people, the rounds of competitor
17 at http://ADDR/person/17, the first three of each final at http://ADDR/podiums, the log at
http://ADDR/log.txt, and how the desks are at http://ADDR/status.json. ADDR is that of --listen.
Where --wcif names the competition's file, those who are registered for 333 are at
http://ADDR/psych/333 in order of the bests that it has, what is where and when at
http://ADDR/schedule, what competitor 17 does at http://ADDR/today/17, and which results of a round
are personal records by it at http://ADDR/records/333-1. No other page depends on that file. A
newer file of the same competition at its path takes its place within seconds; where one is no
competition's, or another's, the file before is kept, and standard error gets a line.
It prints `board at ADDR` once it listens, and runs until it is stopped.

The desks are those of --hall and --to, or without these all desks of the hall that FILE describes.
Where they have a key, it is in the file of --key, or in the one that FILE names. Standard error
gets a line where a desk has another key, has no key, or has a key and the board has none.

Exit status: 2 invalid arguments, or help or the version; 3 FILE describes no hall, the key's file
gives no key, or the file of --wcif cannot be read or is no competition's; 4 an invalid address,
cannot listen, cannot continue, or two desks have different commands; 5 no memory. Standard error
gets a line that says why.";

/// The most browsers whose connections are open at once. With those that are ending, and with the
/// desk's, a program has no more than 1,024 files open, which is the usual limit.
const MOST_BROWSERS: usize = 800;

/// The most bytes of a request's head, and of its body.
const LONGEST_REQUEST: usize = 8_192;

/// What the board is to do.
#[derive(Drop)]
struct BoardOptions {
    /// The hall, with one to five desks.
    hall: FoundHall,
    title: String,
    listen: SocketAddr,
    /// How long a browser is waited for, in seconds.
    patience: u64,
}

/// The program, as the parser knows it.
fn command<'a>(alloc: Global) -> Result<Command<'a>, AllocError> {
    let plain = Command::new(alloc, PROGRAM)
        .about(ABOUT)
        .version(VERSION)
        .after_help(AFTER);
    let listen = "Where browsers find the board, as 127.0.0.1:8080";
    let title = "The title of the pages; without this option Results";
    let patience = "How long to wait for a browser, 1 to 3600; without this option 10";
    let wcif = "The competition's file of the WCA's site, for pages beside the list";
    let seconds = ValueParser::unsigned(1, 3600);
    let explain = Arg::new(alloc, "explain")
        .long("explain")
        .help(EXPLAIN)
        .action(ArgAction::SetTrue);
    with_desks(alloc, plain)?
        .arg(option(alloc, "listen", "ADDR", listen, ValueParser::string()).required(true))?
        .arg(option(alloc, "title", "TEXT", title, ValueParser::string()))?
        .arg(option(alloc, "wcif", "FILE", wcif, ValueParser::string()))?
        .arg(option(alloc, "patience", "SECONDS", patience, seconds))?
        .arg(explain)
}

/// What the arguments ask for.
fn order_of<'a>(rt: &HostRuntime, found: &ArgMatches<'a>) -> Result<BoardOptions, Mistake<'a>> {
    let mut patience = PATIENCE;
    if found.get_str("patience").is_some() {
        patience = number_at(found, "patience")?;
    }
    let hall = hall_of(rt, found)?;
    let listen = address_at(rt, found, "listen")?;
    match String::from_str(rt.alloc(), found.get_str("title").unwrap_or(TITLE)) {
        Ok(title) => Ok(BoardOptions {
            hall,
            title,
            listen,
            patience,
        }),
        Err(_) => Err(Mistake::NoMemory),
    }
}

/// Says that the program can't listen, and returns the status. A second line says why, where that
/// is asked for and on a terminal.
fn tell_listening<F: Write>(
    rt: &HostRuntime,
    faults: &mut F,
    error: &io::Error,
    found: &ArgMatches<'_>,
) -> u8 {
    let status = tell_system(faults, PROGRAM, error, "cannot listen");
    if is_wanted(rt, found.get_flag("explain")) {
        let _ = explain_listening(rt, faults, found.get_str("listen").unwrap_or(""));
    }
    status
}

/// Listens and serves until the system fails, and returns the status.
fn run_order<W: Write, F: Write>(
    rt: &HostRuntime,
    found: &ArgMatches<'_>,
    order: BoardOptions,
    writer: &mut W,
    faults: &mut F,
) -> u8 {
    let BoardOptions {
        hall,
        title,
        listen,
        patience,
    } = order;
    let wcif = found.get_str("wcif");
    let mut renewed = RenewedFile::at(rt, wcif);
    let competition = match file_given(rt, wcif, PROGRAM, faults) {
        Ok(competition) => competition,
        Err(status) => return status,
    };
    let mut config = Config::default();
    config.limits.max_head_len = LONGEST_REQUEST;
    config.max_body_len = LONGEST_REQUEST;
    let terms = BrowserLimits {
        most: MOST_BROWSERS,
        patience: patience.saturating_mul(1000),
        config,
    };
    let browsers = match browsers_at(rt, rt.alloc(), listen, terms) {
        Ok(browsers) => browsers,
        Err(error) => return tell_listening(rt, faults, &error, found),
    };
    let asked = Hall {
        number: hall.hall,
        addresses: &hall.desks,
        key: hall.key,
    };
    match serve(
        rt,
        rt.alloc(),
        asked,
        title,
        competition,
        &mut renewed,
        browsers,
        writer,
        faults,
    ) {
        Ok(BoardEnd::Failed) => tell(faults, PROGRAM, "cannot continue", 4),
        Ok(BoardEnd::Broken) => tell(faults, PROGRAM, BROKEN, 4),
        Err(error) => tell_system(faults, PROGRAM, &error, "cannot continue"),
    }
}

/// Does what the arguments ask for, the program's own name first, and returns the exit status.
fn run_arguments<W: Write, F: Write>(
    rt: &HostRuntime,
    given: &[&str],
    writer: &mut W,
    faults: &mut F,
) -> u8 {
    let parsed = match command(rt.alloc()) {
        Ok(command) => command.try_get_matches_from(given),
        Err(_) => Err(Error::from(AllocError)),
    };
    match parsed {
        Ok(found) => match order_of(rt, &found) {
            Ok(order) => run_order(rt, &found, order, writer, faults),
            Err(mistake) => tell_mistake(faults, PROGRAM, mistake),
        },
        Err(error) => tell_parse_error(rt.alloc(), PROGRAM, &error, writer, faults),
    }
}

/// Runs the program on the arguments that it was given, and returns the exit status.
pub fn run_given<W: Write, F: Write>(
    rt: &HostRuntime,
    given: &[String],
    writer: &mut W,
    faults: &mut F,
) -> u8 {
    match borrowed(rt.alloc(), given) {
        Ok(texts) => run_arguments(rt, &texts, writer, faults),
        Err(_) => tell(faults, PROGRAM, "no memory", 5),
    }
}
