//! The service of the board.

ghost use Rattle.std.specs.Prelude.{◌≡◌, IfErr, IfOk, OnErr, OnOk, string_bytes};
ghost use Rattle.board_views.specs.{Rounds.accepted_in, Views.IsPageAt};
ghost use Rattle.competition_file.specs.Files.{data_of};
ghost use Rattle.file_views.specs.Pages.{IsFilePage};
ghost use Rattle.http_server.specs.Response.{IsBlank};
ghost use Rattle.board_service.specs.Services.{ShowsAges, ShowsFile, ShowsPage, ShowsStatus};
ghost use Rattle.board_service.specs.Services.{asks_ages, asks_file, asks_status, service};
ghost use Rattle.board_service.specs.Services.{service_wait};
ghost use Rattle.board_service.specs.Laws.{with_file};
ghost use Rattle.hall_survey.specs.Halls.{Differs, IsKept};
ghost use Rattle.renewed_file.specs.Renewing.{RenewFailsFor, Renews};

use crate::shelf::Shelf;
use crate::status::send_status;
use board_views::page_at;
use bytes::Bytes;
use competition_file::{CompetitionFile, RenewFault};
use desk_sockets::{DeskStream, DialogueChange};
use file_views::{FileView, file_page};
use hall_survey::HallDesks;
use http::{HeaderValue, Request};
use http_server::{Response, Service};
use kept_mirror::Mirroring;
use markup::replies::{Page, is_read, reply};
use mirror::Mirror;
use std::alloc::{AllocError, Global};
use std::marker::Model;
use std::net::Net;
use std::random::RandomSource;
use wire::Difference;

/// Whether a request asks how the desks are.
fn asks_status(request: &Request<Bytes>) -> bool
    ensures { result ≡ asks_status request.now }
{
    request.uri().path() == "/status.json" && is_read(request.method())
}

/// Whether a request asks when the desks said last how they are.
fn asks_ages(request: &Request<Bytes>) -> bool
    ensures { result ≡ asks_ages request.now }
{
    request.uri().path() == "/heard.txt" && is_read(request.method())
}

/// What of the competition's file a request asks for.
fn asks_file(request: &Request<Bytes>) -> Option<FileView>
    ensures { result ≡ asks_file request.now }
{
    if is_read(request.method()) {
        FileView::from_path(request.uri().path().as_bytes())
    } else {
        None
    }
}

/// A page of the competition's file, under its title, beside the log.
fn file_page_beside(
    alloc: Global,
    mirror: &Mirror,
    file: &CompetitionFile,
    title: &[u8],
    view: FileView,
) -> Result<Page, AllocError>
    ensures { IfOk result (λ page.
        IsFilePage title.now (data_of file.now) (accepted_in mirror.now) view page) }
{
    let page = file_page(alloc, file, mirror.meet(), title, view)?;
    Ok(page)
}

/// Answers browsers with the pages of a mirror of a hall's log, and programs that ask how the desks
/// of the hall are.
///
/// A page is made once for all browsers that ask for it until the mirror grows: at most 64 pages
/// are kept until then.
///
/// A contract sees the title of the competition, the mirror with what keeps it up, the desks that
/// are asked how they are, the competition's file, and the time. Which pages are kept makes no
/// difference to an answer.
#[derive(Drop)]
pub struct BoardService {
    alloc: Global,
    title: String,
    mirroring: Mirroring,
    desks: HallDesks,
    /// The competition's file, where there is one.
    competition: Option<CompetitionFile>,
    /// What the clock said when the mirror was kept up last, in milliseconds.
    time: u64,
    /// Pages of the mirror as it is.
    shelf: Shelf,
}

impl Model for BoardService {
    ghost use Rattle.std.specs.Prelude.{string_bytes};
    ghost use Rattle.board_service.specs.Services.{ServiceOf, service};
    ghost use Rattle.board_service.specs.Shelves.{AreAllAt};

    ghost Value = { ServiceOf };

    ghost view = { λ s. service (string_bytes s.title) s.mirroring s.desks s.competition s.time };

    ghost invariant = { λ s. AreAllAt (string_bytes s.title) s.mirroring.entries s.shelf };
}

impl BoardService {
    /// A service over a mirror, for the competition of this title and with its file, and over the
    /// desks of a hall, at time 0.
    pub fn new(
        alloc: Global,
        title: String,
        mirroring: Mirroring,
        desks: HallDesks,
        competition: Option<CompetitionFile>,
    ) -> Result<BoardService, AllocError>
        ensures { IfOk result
            (λ s. s ≡ service (string_bytes title) mirroring desks competition 0) }
    {
        let shelf = Shelf::new(alloc)?;
        Ok(BoardService {
            alloc,
            title,
            mirroring,
            desks,
            competition,
            time: 0,
            shelf,
        })
    }

    /// The mirror, with what keeps it up.
    pub fn mirroring(&self) -> &Mirroring
        ensures { result.now ≡ self.now.mirroring }
    {
        &self.mirroring
    }

    /// Does all for the mirror that can be done now over a connection to a desk, as
    /// `DeskStream::keep` does it, at this time. Unless the mirror holds what it held, the pages
    /// that were made are given up.
    pub fn keep<R: Net + RandomSource>(
        &mut self,
        stream: &mut DeskStream<'_, R>,
        now: u64,
    ) -> DialogueChange
        ensures title { self.new.title ≡ self.old.title }
        ensures desks { self.new.desks ≡ self.old.desks }
        ensures competition { self.new.competition ≡ self.old.competition }
        ensures time { self.new.time ≡ now }
        ensures same { result ≡ DialogueChange.Same
            → self.new.mirroring.entries ≡ self.old.mirroring.entries }
    {
        let kept = stream.keep(&mut self.mirroring, now);
        self.shelf.refresh(kept);
        self.time = now;
        kept
    }

    /// Does all that can be done now for the survey of a desk over a connection to it, as
    /// `HallDesks::keep` does it.
    pub fn keep_desk<R: Net + RandomSource>(
        &mut self,
        place: usize,
        stream: &mut DeskStream<'_, R>,
        now: u64,
    )
        ensures title { self.new.title ≡ self.old.title }
        ensures mirroring { self.new.mirroring ≡ self.old.mirroring }
        ensures competition { self.new.competition ≡ self.old.competition }
        ensures time { self.new.time ≡ self.old.time }
        ensures desks { IsKept place self.old.desks self.new.desks }
    {
        self.desks.keep(place, stream, now);
    }

    /// Takes a newer file of the same competition in place of the one before; nothing where there
    /// is none. At a fault the one before stays.
    pub fn renew(&mut self, bytes: Vec<u8>) -> Result<(), RenewFault>
        ensures others { OnOk result (self.new ≡ with_file self.new.competition self.old) }
        ensures ok { OnOk result (Renews self.old.competition bytes.items self.new.competition) }
        ensures why { IfErr result (RenewFailsFor self.old.competition bytes.items) }
        ensures err { OnErr result (self.new ≡ self.old) }
    {
        match &mut self.competition {
            Some(file) => file.renew(self.alloc, bytes),
            None => Ok(()),
        }
    }

    /// In how many milliseconds something is to be done for the mirror or for a survey, if nothing
    /// comes: as soon as it is for one of them, and so at most 1,000.
    pub fn wait(&self, now: u64) -> u64
        ensures { result ≡ service_wait self.now now }
    {
        let wait = self.mirroring.wait(now);
        self.desks.wait(now).min(wait)
    }

    /// The page at a path, if one is there.
    fn made(&self, path: &str) -> Result<Option<Page>, AllocError>
        ensures { IfOk result
            (λ page. IsPageAt self.now.title self.now.mirroring.entries path.now page) }
    {
        page_at(
            self.alloc,
            self.mirroring.mirror(),
            self.title.as_bytes(),
            path.as_bytes(),
        )
    }

    /// Keeps the page at a path, if one is there.
    fn remember(&mut self, path: &str, made: Option<Page>)
        requires { IsPageAt self.old.title self.old.mirroring.entries path.now made }
        ensures { self.new ≡ self.old }
    {
        if let Some(page) = made {
            self.shelf.put(path, page);
        }
    }

    /// How a desk differs from others, if one has said so when it was asked last.
    pub(crate) fn differs(&self) -> Result<Option<Difference>, AllocError>
        ensures { IfOk result (λ differs. Differs self.now.desks differs) }
    {
        self.desks.differs(self.alloc)
    }

    /// How the desks are.
    fn tell_status(&self, response: &mut Response) -> Result<(), AllocError>
        requires { IsBlank response.old }
        ensures { OnOk result (ShowsStatus self.now response.new) }
    {
        let text = self.desks.status(self.alloc)?;
        send_status(HeaderValue::from_static("application/json"), text, response)
    }

    /// How long ago each desk said how it is.
    fn tell_ages(&self, response: &mut Response) -> Result<(), AllocError>
        requires { IsBlank response.old }
        ensures { OnOk result (ShowsAges self.now response.new) }
    {
        let text = self.desks.ages(self.alloc, self.time)?;
        send_status(HeaderValue::from_static("text/plain"), text, response)
    }

    /// Answers a request for a page of the competition's file.
    fn show_file(
        &self,
        view: FileView,
        request: &Request<Bytes>,
        response: &mut Response,
    ) -> Result<(), AllocError>
        requires { IsBlank response.old }
        ensures { OnOk result
            (ShowsFile self.now.title self.now.competition self.now.mirroring.entries view
            request.now response.new) }
    {
        let Some(file) = &self.competition else {
            reply(request, None, response)?;
            return Ok(());
        };
        let mirror = self.mirroring.mirror();
        let page = file_page_beside(self.alloc, mirror, file, self.title.as_bytes(), view)?;
        reply(request, Some(&page), response)
    }

    /// Answers a request for a page of the list.
    fn show(&mut self, request: &Request<Bytes>, response: &mut Response) -> Result<(), AllocError>
        requires { IsBlank response.old }
        ensures same { self.new ≡ self.old }
        ensures shows { OnOk result (ShowsPage self.old request.now response.new) }
    {
        let path = request.uri().path();
        if let Some(page) = self.shelf.get(path) {
            reply(request, Some(page), response)?;
            return Ok(());
        }
        let made = self.made(path)?;
        reply(request, made.as_ref(), response)?;
        self.remember(path, made);
        Ok(())
    }
}

impl Service for BoardService {
    ghost use Rattle.board_service.specs.Services.{Answers};

    // The response is that of `markup::replies::reply` for the page that is at the request's path
    // as the mirror and the competition's file are, or says how the desks are or when they said so,
    // and nothing changes.
    ghost answers = { Answers };

    fn call(
        &mut self,
        request: &Request<Bytes>,
        response: &mut Response,
    ) -> Result<(), AllocError> {
        if asks_status(request) {
            self.tell_status(response)
        } else if asks_ages(request) {
            self.tell_ages(response)
        } else if let Some(view) = asks_file(request) {
            self.show_file(view, request, response)
        } else {
            self.show(request, response)
        }
    }
}
