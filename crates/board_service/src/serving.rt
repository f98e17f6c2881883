//! The board: browsers are answered, and the mirror is kept up, as sockets become ready.

use crate::service::BoardService;
use competition_file::CompetitionFile;
use desk_sockets::{DeskStream, DialogueChange};
use hall_survey::{
    AskedDesks, AskedStream, Hall, asked_desks, count_desks, lent_stream, tell_difference,
};
use kept_mirror::Mirroring;
use pages::{TcpBrowsers, say_where};
use renewed_file::RenewedFile;
use std::alloc::Global;
use std::fs::Files;
use std::io;
use std::io::Write;
use std::net::Net;
use std::random::RandomSource;
use std::time::Clock;

/// The name of the program.
pub const PROGRAM: &str = "board";

/// Milliseconds that sockets are waited for at most.
const LONGEST_WAIT: u64 = 250;

/// Why the board ended.
#[derive(Clone, Copy, PartialEq, Eq, Debug)]
pub enum BoardEnd {
    /// The system doesn't say what is ready any more.
    Failed,
    /// Two desks of the hall reported different entries for one position.
    Broken,
}

/// Says that a desk differs, where one does, and whether one did.
fn tell_if_differs<F: Write>(service: &BoardService, faults: &mut F) -> bool {
    match service.differs() {
        Ok(Some(difference)) => {
            tell_difference(faults, PROGRAM, difference);
            true
        }
        _ => false,
    }
}

/// Takes a newer competition's file in place of the one before, where its path has one.
fn renew<R: Files, F: Write>(
    runtime: &R,
    alloc: Global,
    service: &mut BoardService,
    renewed: &mut Option<RenewedFile<'_>>,
    now: u64,
    faults: &mut F,
) {
    let Some(file) = renewed else {
        return;
    };
    let Some(bytes) = file.newer(runtime, alloc, now, PROGRAM, faults) else {
        return;
    };
    if let Err(fault) = service.renew(bytes) {
        file.tell_fault(PROGRAM, &fault, faults);
    }
}

/// Serves until it can't continue, over the connection to the desk that is asked for its log, and
/// those to the desks that are asked how they are. Says what is wrong with their keys.
fn serve_on<R: Net + RandomSource + Clock + Files + Drop, F: Write>(
    runtime: &R,
    alloc: Global,
    browsers: &mut TcpBrowsers<'_, R>,
    service: &mut BoardService,
    followed: &mut DeskStream<'_, R>,
    asked: &mut [AskedStream<'_, R>],
    renewed: &mut Option<RenewedFile<'_>>,
    faults: &mut F,
) -> BoardEnd {
    let mut now = 0;
    let mut said = false;
    for _round in 0..u64::MAX {
        let wait = service.wait(now).min(LONGEST_WAIT);
        let Some(after) = browsers.round(service, wait) else {
            return BoardEnd::Failed;
        };
        now = after;
        renew(runtime, alloc, service, renewed, now, faults);
        for place in 0..asked.len() {
            service.keep_desk(place, asked[place].stream, now);
            asked[place].tell(faults, PROGRAM);
        }
        said = said || tell_if_differs(service, faults);
        if service.keep(followed, now) == DialogueChange::Broken {
            return BoardEnd::Broken;
        }
    }
    BoardEnd::Failed
}

/// Says where it listens, and serves the pages of a hall under this title, and those of the
/// competition's file, to these browsers until it can't continue. What is wrong with the key of a
/// desk is said on a line of `faults`, and why a newer file does not take the place of the one
/// before.
pub fn serve<'a, R: Net + RandomSource + Clock + Files + Drop, W: Write, F: Write>(
    runtime: &'a R,
    alloc: Global,
    hall: Hall<'_>,
    title: String,
    competition: Option<CompetitionFile>,
    renewed: &mut Option<RenewedFile<'_>>,
    browsers: &mut TcpBrowsers<'a, R>,
    writer: &mut W,
    faults: &mut F,
) -> io::Result<BoardEnd> {
    let address = browsers.sockets().address()?;
    let AskedDesks { desks, mut streams } = asked_desks(runtime, alloc, browsers, hall)?;
    let followed = lent_stream(runtime, alloc, browsers, 0, hall)?;
    let mirroring = Mirroring::new(alloc, hall.number, count_desks(hall.addresses))?;
    let mut service = BoardService::new(alloc, title, mirroring, desks, competition)?;
    say_where(address, PROGRAM, writer)?;
    Ok(serve_on(
        runtime,
        alloc,
        browsers,
        &mut service,
        followed,
        streams.as_mut_slice(),
        renewed,
        faults,
    ))
}
