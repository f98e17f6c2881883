//! The loop: browsers are answered, the mirror is kept up, and what was entered is submitted, as
//! sockets become ready.

use crate::desks_side::{DesksSide, PROGRAM};
use crate::disk::{Disk, SystemFile};
use crate::drawing::drawn_ids;
use crate::journal_file::OpenedJournal;
use crate::service::TableService;
use crate::setup::Setup;
use competition_file::CompetitionFile;
use hall_survey::{Hall, count_desks};
use kept_mirror::Mirroring;
use outbox::HallName;
use pages::{TcpBrowsers, say_where};
use renewed_file::RenewedFile;
use std::alloc::{AllocError, Global};
use std::fs::Files;
use std::io;
use std::io::Write;
use std::net::{Net, SocketAddr};
use std::random::RandomSource;
use std::time::Clock;

/// Why the score table ended.
#[derive(Clone, Copy, PartialEq, Eq, Debug)]
pub enum ScoreTableEnd {
    /// The system doesn't say what is ready any more.
    Failed,
    /// Two desks of the hall reported different entries for one position.
    Broken,
}

/// The seconds since 1970 by the machine's clock; none where it does not give them.
fn clock_of<R: Clock>(runtime: &R) -> Option<u64> {
    match runtime.since_1970() {
        Ok(since) => Some(since.as_secs()),
        Err(_) => None,
    }
}

/// Proposes how later rounds are held as the competition's file has them, where there is one.
fn propose<D: Disk>(alloc: Global, service: &mut TableService<D>) -> Result<(), AllocError> {
    if let Some(file) = service.competition() {
        let proposals = file.proposals(alloc)?;
        service.propose(proposals);
    }
    Ok(())
}

/// Takes a newer competition's file in place of the one before, where its path has one, and then
/// its proposals, where they are those of the file.
fn renew<D: Disk, R: Files, F: Write>(
    runtime: &R,
    alloc: Global,
    service: &mut TableService<D>,
    renewed: &mut Option<RenewedFile<'_>>,
    proposes: bool,
    now: u64,
    faults: &mut F,
) -> Result<(), AllocError> {
    let Some(file) = renewed else {
        return Ok(());
    };
    let Some(bytes) = file.newer(runtime, alloc, now, PROGRAM, faults) else {
        return Ok(());
    };
    match service.renew(bytes) {
        Ok(()) if proposes => propose(alloc, service),
        Ok(()) => Ok(()),
        Err(fault) => {
            file.tell_fault(PROGRAM, &fault, faults);
            Ok(())
        }
    }
}

/// Says where it listens, and serves until it can't continue. Pages are given ids for their forms
/// as they use them up.
fn serve_on<D: Disk, R: Net + RandomSource + Clock + Files + Drop, W: Write, F: Write>(
    runtime: &R,
    alloc: Global,
    browsers: &mut TcpBrowsers<'_, R>,
    service: &mut TableService<D>,
    side: &mut DesksSide<'_, R>,
    renewed: &mut Option<RenewedFile<'_>>,
    proposes: bool,
    writer: &mut W,
    faults: &mut F,
) -> io::Result<ScoreTableEnd> {
    say_where(browsers.sockets().address()?, PROGRAM, writer)?;
    let mut now = 0;
    for _round in 0..u64::MAX {
        for _set in 0..service.wants() {
            let ids = drawn_ids(runtime)?;
            service.give(ids)?;
        }
        service.set_clock(clock_of(runtime));
        let wait = side.wait(service, now);
        let Some(after) = browsers.round(service, wait) else {
            return Ok(ScoreTableEnd::Failed);
        };
        now = after;
        service.set_time(now);
        renew(runtime, alloc, service, renewed, proposes, now, faults)?;
        if !side.keep(service, now, faults)? {
            return Ok(ScoreTableEnd::Broken);
        }
    }
    Ok(ScoreTableEnd::Failed)
}

/// Where a desk is, as the journal names it: `-` where that is not known.
fn address_text(alloc: Global, address: &Option<SocketAddr>) -> Result<String, AllocError> {
    match address {
        Some(address) => format!(in alloc; "{address}"),
        None => String::from_str(alloc, "-"),
    }
}

/// A hall, as its journals name it.
pub fn hall_name(
    alloc: Global,
    number: u32,
    addresses: &[Option<SocketAddr>],
) -> Result<HallName, AllocError> {
    let mut named = Vec::new(alloc);
    for address in addresses {
        named.push(address_text(alloc, address)?)?;
    }
    Ok(HallName::new(number, named))
}

/// The service of the pages of a hall under this title, for the table of this name, over a journal.
/// It is lent for as long as the program runs, and is never dropped.
fn service_of<'a, R: RandomSource>(
    runtime: &R,
    alloc: Global,
    hall: Hall<'_>,
    address: SocketAddr,
    title: String,
    name: String,
    proposals: Vec<u8>,
    competition: Option<CompetitionFile>,
    opened: OpenedJournal<SystemFile>,
) -> io::Result<&'a mut TableService<SystemFile>> {
    let setup = Setup::new(runtime, alloc, address, title, name, proposals, competition)?;
    let mirroring = Mirroring::new(alloc, hall.number, count_desks(hall.addresses))?;
    let OpenedJournal { journal, file } = opened;
    let service = TableService::new(alloc, setup, mirroring, journal.outbox, file);
    let kept = Box::new(alloc, service)?;
    Ok(Box::leak(kept))
}

/// What is kept up with the desks of a hall, lent in the same way.
fn side_of<'a, R: Net + RandomSource + Clock + Drop>(
    runtime: &'a R,
    alloc: Global,
    hall: Hall<'_>,
    browsers: &TcpBrowsers<'a, R>,
) -> io::Result<&'a mut DesksSide<'a, R>> {
    let side = DesksSide::new(runtime, alloc, browsers, hall)?;
    let kept = Box::new(alloc, side)?;
    Ok(Box::leak(kept))
}

/// Says where it listens, and serves the pages of a hall under this title, for the table of this
/// name, with the proposals of these commands' comments, or, where there are no commands, of the
/// competition's file, and with that file, over this journal, to these browsers until it can't
/// continue. What is wrong with the key of a desk, or with a newer competition's file, is said on a
/// line of `faults`.
pub fn serve<'a, R: Net + RandomSource + Clock + Files + Drop, W: Write, F: Write>(
    runtime: &'a R,
    alloc: Global,
    hall: Hall<'_>,
    title: String,
    name: String,
    proposals: Vec<u8>,
    competition: Option<CompetitionFile>,
    renewed: &mut Option<RenewedFile<'_>>,
    opened: OpenedJournal<SystemFile>,
    browsers: &mut TcpBrowsers<'a, R>,
    writer: &mut W,
    faults: &mut F,
) -> io::Result<ScoreTableEnd> {
    let address = browsers.sockets().address()?;
    let proposes = proposals.is_empty();
    let service = service_of(
        runtime,
        alloc,
        hall,
        address,
        title,
        name,
        proposals,
        competition,
        opened,
    )?;
    if proposes {
        propose(alloc, service)?;
    }
    let side = side_of(runtime, alloc, hall, browsers)?;
    serve_on(
        runtime, alloc, browsers, service, side, renewed, proposes, writer, faults,
    )
}
