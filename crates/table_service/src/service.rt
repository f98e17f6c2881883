//! The service of the score table.

ghost use Rattle.std.specs.Prelude.{◌≡◌, ◌≤◌, IfOk, length, slice_get};
ghost use Rattle.std.specs.Option.{option_copied};
ghost use Rattle.outbox.specs.{Items.taken_back, Outboxes.with_list};
ghost use Rattle.table_service.specs.Services.{StaysKept, TakesAs, TriesAll, is_new};
ghost use Rattle.wire.specs.Ranges.{IsId};

use crate::disk::Disk;
use crate::entries::{is_sent, list_of};
use crate::gate::is_own;
use crate::journal_file::JournalFile;
use crate::plan::{Effect, Problem, RequestPlan};
use crate::posting::plan_own;
use crate::recents::recents_of;
use crate::remarks::remark_of;
use crate::replies::{tell_problem, write};
use crate::setup::Setup;
use crate::waiting::{sent_before, waits};
use acceptor::NoMemory;
use acceptor::entry::Entry;
use bytes::Bytes;
use card_forms::FormId;
use competition_file::{CompetitionFile, RenewFault};
use desk_sockets::{DeskStream, DialogueChange};
use http::Request;
use http_server::{Response, Service};
use kept_mirror::Mirroring;
use outbox::{Outbox, QueueOutcome};
use std::alloc::{AllocError, Global};
use std::collections::VecDeque;
use std::marker::Model;
use std::net::Net;
use std::random::RandomSource;
use table_views::{HallStatus, PageContext};

/// The most sets of ids that are kept.
const MOST_SETS: usize = 64;

/// Answers browsers with the pages of a mirror of a hall's log, and accepts what they send: it is
/// in the journal, and will be after a crash, before it is answered.
#[derive(Drop)]
pub struct TableService<D: Disk> {
    alloc: Global,
    setup: Setup,
    mirroring: Mirroring,
    desks: HallStatus,
    outbox: Outbox,
    /// Ids for the forms of pages, a set for each page.
    ids: VecDeque<[FormId; 32]>,
    /// The milliseconds of the clock by which items say since when they wait.
    time: u64,
    /// The seconds since 1970 by the machine's clock, where it gives them.
    clock: Option<u64>,
    file: JournalFile<D>,
}

impl<D: Disk> Model for TableService<D> {
    ghost use Rattle.std.specs.Prelude.{map, string_bytes};
    ghost use Rattle.table_service.specs.Services.{IsKept, ServiceOf, service};

    ghost Value = { ServiceOf };

    ghost view = { λ s. service (string_bytes s.setup.title) (string_bytes s.setup.name)
        (map string_bytes s.setup.hosts.items) (string_bytes s.setup.token)
        s.setup.proposals.items s.mirroring s.setup.competition s.desks s.outbox s.ids.items s.time
        s.clock s.file };

    ghost invariant = { λ s. IsKept s.outbox };
}

/// What is known of the desks at first.
fn unknown_desks(alloc: Global) -> HallStatus {
    HallStatus {
        followed: 1,
        silent: None,
        undecided: None,
        refused: None,
        lengths: Vec::new(alloc),
        away: Vec::new(alloc),
        trouble: None,
        of_other_hall: None,
        differs: None,
    }
}

/// The set of ids that is used next.
fn first_set(ids: &VecDeque<[FormId; 32]>) -> Option<&[FormId; 32]>
    ensures { option_copied result ≡ slice_get ids.now.items 0 }
{
    ids.front()
}

/// Whether an entry is queued that was given to the outbox.
fn is_new(came: QueueOutcome) -> bool
    ensures { result ≡ is_new came }
{
    matches!(came, QueueOutcome::New)
}

/// Takes an entry. Whether it is queued, or was known with its text, whatever the remarks are.
fn take_one(outbox: &mut Outbox, entry: &Entry, now: u64) -> Result<bool, NoMemory>
    ensures ok { IfOk result (λ there.
        TakesAs there outbox.old.list entry.now now outbox.new.list) }
    ensures same { outbox.old.list.kept ≤ length outbox.old.list.items
        → StaysKept outbox.old.list outbox.new.list }
    ensures others { outbox.new ≡ with_list outbox.old outbox.new.list }
{
    let was_sent = is_sent(outbox, entry);
    let came = outbox.take(entry.copy()?, now)?;
    Ok(was_sent || is_new(came))
}

/// Takes entries, one after the other. False: one of them can't be taken. Then, and at NoMemory,
/// the first of them were taken.
fn take_all(outbox: &mut Outbox, entries: &[Entry], now: u64) -> Result<bool, NoMemory>
    ensures ok { IfOk result (λ all.
        TriesAll all outbox.old.list entries.now now outbox.new.list) }
    ensures same { outbox.old.list.kept ≤ length outbox.old.list.items
        → taken_back outbox.new.list ≡ taken_back outbox.old.list }
    ensures others { outbox.new ≡ with_list outbox.old outbox.new.list }
{
    for entry in entries {
        if !take_one(outbox, entry, now)? {
            return Ok(false);
        }
    }
    Ok(true)
}

/// Takes back what was taken since the journal was written last, and answers that.
fn take_back(outbox: &mut Outbox, busy: Response, response: &mut Response)
    ensures back { outbox.new ≡ with_list outbox.old (taken_back outbox.old.list) }
    ensures all { outbox.new.list.kept ≡ length outbox.new.list.items }
    ensures told { response.new ≡ busy }
{
    outbox.not_kept();
    *response = busy;
}

impl<D: Disk> TableService<D> {
    ghost use Rattle.std.specs.Prelude.{ℕ, ◌++◌, ◌-◌, ◌∷◌, [], length, map, string_bytes, IfOk};
    ghost use Rattle.std.specs.Prelude.{IfErr, OnErr, OnOk, take};
    ghost use Rattle.table_service.specs.Services.{AnswersIt, IsKeptBut, IsNew, IsSentBut};
    ghost use Rattle.table_service.specs.Services.{Plans, PlansAround, TakesAgainFor, TakesFor};
    ghost use Rattle.table_service.specs.Services.{with_ids_used};
    ghost use Rattle.renewed_file.specs.Renewing.{RenewFailsFor, Renews};
    ghost use Rattle.desk_sockets.specs.Asking.{AsksNow};
    ghost use Rattle.desk_talks.specs.Dialogues.{Reaches};
    ghost use Rattle.kept_mirror.specs.Mirrorings.{DialogueLeads as MirrorLeads, awaiting, hurried};
    ghost use Rattle.outbox.specs.Outboxes.{DialogueLeads, aimed, looked};
    ghost use Rattle.wire.specs.Ranges.{IsDesk};

    /// A service over a mirror and what was entered. What is not in the journal is left out. Ids
    /// have to be given before it shows a page with a form.
    pub fn new(
        alloc: Global,
        setup: Setup,
        mirroring: Mirroring,
        outbox: Outbox,
        file: JournalFile<D>,
    ) -> TableService<D>
        ensures { IsNew (string_bytes setup.title) (string_bytes setup.name)
            (map string_bytes setup.hosts.items) (string_bytes setup.token) setup.proposals.items
            mirroring setup.competition outbox file result }
    {
        let mut outbox = outbox;
        outbox.not_kept();
        TableService {
            alloc,
            setup,
            mirroring,
            desks: unknown_desks(alloc),
            outbox,
            ids: VecDeque::new(alloc),
            time: 0,
            clock: None,
            file,
        }
    }

    /// The mirror, with what keeps it up.
    pub fn mirroring(&self) -> &Mirroring
        ensures { result.now ≡ self.now.mirroring }
    {
        &self.mirroring
    }

    /// What was entered, and is under way.
    pub fn outbox(&self) -> &Outbox
        ensures { result.now ≡ self.now.outbox }
    {
        &self.outbox
    }

    /// How many sets of ids there is room for, 0 to 64.
    pub fn wants(&self) -> usize
        ensures { result ≡ 64 - length self.now.ids }
    {
        MOST_SETS.saturating_sub(self.ids.len())
    }

    /// Gives ids for the forms of a page, each drawn at random.
    pub fn give(&mut self, ids: [FormId; 32]) -> Result<(), AllocError>
        ensures ok { OnOk result (self.new ≡ record self.old { ids = self.old.ids ++ ids ∷ [] }) }
        ensures err { OnErr result (self.new ≡ self.old) }
    {
        self.ids.push_back(ids)?;
        Ok(())
    }

    /// Says what time it is, in milliseconds.
    pub fn set_time(&mut self, now: u64)
        ensures { self.new ≡ record self.old { time = now } }
    {
        self.time = now;
    }

    /// Says what the machine's clock shows, in seconds since 1970, if it shows it.
    pub fn set_clock(&mut self, clock: Option<u64>)
        ensures { self.new ≡ record self.old { clock = clock } }
    {
        self.clock = clock;
    }

    /// Takes a newer file of the same competition in place of the one beside the list; nothing
    /// where there is none. At a fault the one before stays.
    pub fn renew(&mut self, bytes: Vec<u8>) -> Result<(), RenewFault>
        ensures others { OnOk result
            (self.new ≡ record self.old { competition = self.new.competition }) }
        ensures ok { OnOk result
            (Renews self.old.competition bytes.items self.new.competition) }
        ensures why { IfErr result (RenewFailsFor self.old.competition bytes.items) }
        ensures err { OnErr result (self.new ≡ self.old) }
    {
        match &mut self.setup.competition {
            Some(file) => file.renew(self.alloc, bytes),
            None => Ok(()),
        }
    }

    /// The competition's file, where there is one.
    pub fn competition(&self) -> Option<&CompetitionFile>
        ensures { option_copied result ≡ self.now.competition }
    {
        self.setup.competition.as_ref()
    }

    /// Proposes from now on how later rounds are held as the comments of these commands say.
    pub fn propose(&mut self, proposals: Vec<u8>)
        ensures { self.new ≡ record self.old { proposals = proposals.items } }
    {
        self.setup.proposals = proposals;
    }

    /// Says how the desks are doing.
    pub fn set_desks(&mut self, desks: HallStatus)
        ensures { self.new ≡ record self.old { desks = desks } }
    {
        self.desks = desks;
    }

    // ---- the desks

    /// Does all for the mirror that can be done now over a connection to a desk, as
    /// `DeskStream::keep` does it.
    pub fn keep<R: Net + RandomSource>(
        &mut self,
        stream: &mut DeskStream<'_, R>,
        now: u64,
    ) -> DialogueChange
        ensures others { IsKeptBut self.old self.new }
        ensures went { Reaches MirrorLeads self.old.mirroring self.new.mirroring }
        ensures same { result ≡ DialogueChange.Same
            → self.new.mirroring.entries ≡ self.old.mirroring.entries }
    {
        stream.keep(&mut self.mirroring, now)
    }

    /// Asks the desk at once for what comes next.
    pub fn hurry(&mut self)
        ensures { self.new ≡ record self.old { mirroring = hurried self.old.mirroring } }
    {
        self.mirroring.hurry();
    }

    /// Lets the desk say as soon as its log has this command, and asks it at once then for what
    /// comes next. The desk has to know version 5 of the wire.
    pub fn await_next(&mut self, id: u64)
        requires { IsId id }
        ensures { self.new ≡ record self.old { mirroring = awaiting self.old.mirroring id } }
    {
        self.mirroring.await_next(id);
    }

    /// Looks through what the mirror's log has got, for entries that were sent from here. Where
    /// memory was refused the same call then continues.
    pub fn look(&mut self) -> Result<(), AllocError>
        ensures ok { OnOk result (self.new ≡ record self.old {
          outbox = looked self.old.outbox self.old.mirroring.entries;
        }) }
        ensures err { OnErr result ((count : ℕ) × (self.new ≡ record self.old {
          outbox = looked self.old.outbox (take count self.old.mirroring.entries);
        })) }
    {
        self.outbox.look(self.mirroring.mirror().log())
    }

    /// Submits at the desk with this number, 1 to 5, from now on.
    pub fn aim(&mut self, desk: u8)
        requires { IsDesk desk }
        ensures { self.new ≡ record self.old { outbox = aimed self.old.outbox desk } }
    {
        self.outbox.aim(desk);
    }

    /// Does all that can be done now for what is to be submitted, over a connection to a desk: what
    /// goes over it is what the outbox hands out. The items stay as they are.
    pub fn submit<R: Net + RandomSource>(
        &mut self,
        stream: &mut DeskStream<'_, R>,
        now: u64,
    ) -> DialogueChange
        ensures others { IsSentBut self.old self.new }
        ensures went { Reaches DialogueLeads self.old.outbox self.new.outbox }
        ensures asked { AsksNow DialogueLeads now self.old.outbox self.new.outbox }
        ensures list { self.new.outbox.list ≡ self.old.outbox.list }
    {
        stream.keep(&mut self.outbox, now)
    }

    // ---- the browsers

    /// Uses the front set of ids.
    fn use_ids(&mut self)
        ensures { self.new ≡ with_ids_used self.old }
    {
        let _used = self.ids.pop_front();
    }

    /// What is to be done for a request of one of the program's own pages, where a page has these
    /// ids.
    fn plan_with(
        &self,
        ids: &[FormId; 32],
        request: &Request<Bytes>,
    ) -> Result<RequestPlan, AllocError>
        ensures { IfOk result (PlansAround self.now ids.now request.now) }
    {
        let recent = recents_of(self.alloc, &self.outbox, self.mirroring.mirror())?;
        let name = self.setup.name.as_bytes();
        let remark = remark_of(self.alloc, name, self.clock)?;
        let sent = sent_before(self.alloc, request)?;
        let around = PageContext {
            mirror: self.mirroring.mirror(),
            desks: &self.desks,
            token: self.setup.token.as_bytes(),
            proposals: &self.setup.proposals,
            ids,
            remark: &remark,
            recent: &recent,
            now: self.time,
            waits: waits(&self.outbox, self.mirroring.mirror(), self.time, sent),
        };
        let title = self.setup.title.as_bytes();
        plan_own(
            self.alloc,
            &self.outbox,
            title,
            self.setup.competition.as_ref(),
            &around,
            request,
        )
    }

    /// What is to be done for a request. Nothing changes yet.
    fn plan(&self, request: &Request<Bytes>) -> Result<RequestPlan, AllocError>
        ensures { IfOk result (Plans self.now request.now) }
    {
        if !is_own(&self.setup.hosts, request) {
            return Ok(RequestPlan::problem(Problem::Foreign));
        }
        match first_set(&self.ids) {
            Some(ids) => self.plan_with(ids, request),
            None => Ok(RequestPlan::problem(Problem::Busy)),
        }
    }

    /// Takes entries, and puts their lines into the journal, or says that it couldn't be done: then
    /// none is taken. Whether all of them are, or were taken before. That answer is made first:
    /// memory may be refused for it, and what was tried with the file can't be undone.
    fn take(&mut self, entries: &[Entry], response: &mut Response) -> Result<bool, AllocError>
        ensures ok { IfOk result (λ kept.
            TakesFor kept entries.now self.old response.old self.new response.new) }
        ensures err { OnErr result (self.new ≡ self.old) }
    {
        let mut busy = Response::new(self.alloc);
        tell_problem(&mut busy, Problem::Busy)?;
        match take_all(&mut self.outbox, entries, self.time) {
            Ok(true) => {}
            Ok(false) => {
                take_back(&mut self.outbox, busy, response);
                return Ok(false);
            }
            Err(fault) => {
                self.outbox.not_kept();
                return Err(fault);
            }
        }
        if self.file.keep(self.outbox.lines()) {
            self.outbox.kept();
            return Ok(true);
        }
        take_back(&mut self.outbox, busy, response);
        Ok(false)
    }

    /// Notes that a scoretaker has answered an item, and puts that into the journal. Where that
    /// fails, or memory is refused, the item is shown again after the next start, or now.
    fn answer(&mut self, of: u64)
        ensures { AnswersIt of self.old self.new }
    {
        if self.outbox.answer(self.mirroring.mirror(), of).is_err() {
            return;
        }
        if self.file.keep(self.outbox.lines()) {
            self.outbox.kept();
        } else {
            self.outbox.not_kept();
        }
    }

    /// Takes an entry under the first of a page's ids, and notes that a scoretaker has answered the
    /// item that it stands for.
    fn take_again(
        &mut self,
        entry: Entry,
        of: u64,
        response: &mut Response,
    ) -> Result<(), AllocError>
        ensures ok { OnOk result (TakesAgainFor entry of self.old response.old self.new
            response.new) }
        ensures err { OnErr result (self.new ≡ self.old) }
    {
        let entries = list_of(self.alloc, entry)?;
        if self.take(&entries, response)? {
            self.use_ids();
            self.answer(of);
        }
        Ok(())
    }
}

impl<D: Disk> Service for TableService<D> {
    ghost use Rattle.table_service.specs.Services.{Answers};

    // What is planned for the request is done, and nothing else changes.
    ghost answers = { Answers };

    fn call(
        &mut self,
        request: &Request<Bytes>,
        response: &mut Response,
    ) -> Result<(), AllocError> {
        let RequestPlan { reply, effect } = self.plan(request)?;
        write(response, reply)?;
        match effect {
            Effect::Nothing => Ok(()),
            Effect::Ids => {
                self.use_ids();
                Ok(())
            }
            Effect::Take(entries) => {
                self.take(&entries, response)?;
                Ok(())
            }
            Effect::Again { entry, of } => self.take_again(entry, of, response),
            Effect::Answer { of } => {
                self.answer(of);
                Ok(())
            }
        }
    }
}
