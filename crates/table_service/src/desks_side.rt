//! What is kept up with the desks of the hall.

ghost use Rattle.std.specs.Prelude.{◌≡◌, IfOk, IfSome, true};
ghost use Rattle.wire.specs.Ranges.{IsDesk, IsId};
ghost use Rattle.table_service.specs.Steps.{HandsOut, IsKeptUp, has_all};

use crate::disk::Disk;
use crate::service::TableService;
use desk_sockets::{DeskStream, DialogueChange};
use desk_talks::ConnectionStage;
use hall_survey::{AskedDesks, Hall, asked_desks, count_desks, lent_stream};
use kept_mirror::Mirroring;
use log_follower::AnswerWorth;
use outbox::{ItemState, state_of};
use pages::TcpBrowsers;
use std::alloc::Global;
use std::io;
use std::io::Write;
use std::net::Net;
use std::random::RandomSource;
use std::time::Clock;
use table_views::HallStatus;
use wire::ClientRefusal;

/// The name of the program.
pub const PROGRAM: &str = "scoretable";

/// Milliseconds that sockets are waited for at most.
const LONGEST_WAIT: u64 = 250;

/// How often the desk is asked for its log while what it has taken waits to be decided, in
/// milliseconds. Three desks on one machine have mostly decided by then.
const HURRY: u64 = 10;

/// How long entries wait at a desk until they are submitted at the next one, in milliseconds.
const PATIENCE: u64 = 5_000;

/// The most items that are known.
const MOST_ITEMS: u32 = 65_536;

/// What is kept up with the desks of the hall, beside the mirror and what was entered.
#[derive(Drop)]
pub(crate) struct DesksSide<'a, R: Net + RandomSource> {
    alloc: Global,
    /// The connection of the mirror, and the one over which items are submitted.
    stream: &'a mut DeskStream<'a, R>,
    submits: &'a mut DeskStream<'a, R>,
    asked: AskedDesks<'a, R>,
    desks: u8,
    /// Whether the mirror had all that a desk's log had, since the start.
    caught_up: bool,
    /// When the desk that is followed answered last.
    answered_at: u64,
    /// When the desk was asked at once for what comes next, or nothing waited to be decided.
    hurried_at: u64,
    /// The desk that the mirror followed last.
    followed: u8,
    /// The desk that items are submitted at, and since when.
    aim: u8,
    aimed_at: u64,
    /// The place of the first item that waits, and when the one before it was decided.
    front: usize,
    moved_at: u64,
    /// Whether it was said that a desk accepts nothing for want of the key.
    said_refused: bool,
    /// What was said last of how the desks are doing.
    said: HallWarning,
    ghost in_range: { IsDesk desks × IsDesk aim },
}

/// What is said of how the desks are doing.
#[derive(Clone, Copy, PartialEq, Eq)]
pub(crate) enum HallWarning {
    Nothing,
    /// This desk is of another hall.
    OtherHall(u8),
    /// No majority of them answers.
    Few,
}

/// What is to be said of how the desks are doing.
fn said_of(desks: &HallStatus) -> HallWarning {
    if let Some(desk) = desks.of_other_hall {
        HallWarning::OtherHall(desk)
    } else if desks.too_few() {
        HallWarning::Few
    } else {
        HallWarning::Nothing
    }
}

/// Says it on a line, where something else was said before. A line that can't be written is left
/// out.
fn say<F: Write>(before: HallWarning, said: HallWarning, faults: &mut F) -> HallWarning {
    if said == before {
        return said;
    }
    match said {
        HallWarning::Nothing => {}
        HallWarning::OtherHall(desk) => {
            let _ = writeln!(faults, "{PROGRAM}: desk {desk} is of another hall");
        }
        HallWarning::Few => {
            let _ = writeln!(faults, "{PROGRAM}: no majority of the hall's desks answers");
        }
    }
    said
}

/// Does all that can be done now for the desks that are asked how they are, and says what is wrong
/// with their keys.
fn keep_asked<R: Net + RandomSource, F: Write>(
    asked: &mut AskedDesks<'_, R>,
    now: u64,
    faults: &mut F,
) {
    let streams = asked.streams.as_mut_slice();
    for place in 0..streams.len() {
        asked.desks.keep(place, streams[place].stream, now);
        streams[place].tell(faults, PROGRAM);
    }
}

/// Whether the desk has answered the last question over its connection with something of use.
fn has_answered(mirroring: &Mirroring) -> bool {
    matches!(mirroring.worth(), AnswerWorth::Useful)
        && matches!(mirroring.stage(), ConnectionStage::Answered { .. })
}

/// Whether the mirror has all that was in the log of the desk that answered last.
fn has_all(mirroring: &Mirroring) -> bool
    ensures { result ≡ has_all mirroring.now }
{
    matches!(mirroring.worth(), AnswerWorth::Useful)
        && matches!(
            mirroring.stage(),
            ConnectionStage::Answered { last: Some(_) }
        )
}

/// Whether the item at a place waits; none where there is no such item.
fn waits_at<D: Disk>(service: &TableService<D>, place: usize) -> Option<bool> {
    let (_, item) = service.outbox().at(place)?;
    Some(state_of(service.mirroring().mirror(), &item.entry) == ItemState::Waits)
}

/// The place of the first item from this one on that waits, or after the last one.
fn first_waiting<D: Disk>(service: &TableService<D>, from: usize) -> usize {
    let mut place = from;
    for _item in 0..MOST_ITEMS {
        if waits_at(service, place) != Some(false) {
            return place;
        }
        place = place.saturating_add(1);
    }
    place
}

/// The item that the desk did not take when it was submitted last, and why.
fn refused<D: Disk>(service: &TableService<D>) -> Option<(u64, ClientRefusal)> {
    let why = service.outbox().refusal()?;
    let (id, _) = service.outbox().at(service.outbox().next())?;
    Some((*id, why))
}

impl<'a, R: Net + RandomSource + Clock + Drop> DesksSide<'a, R> {
    /// Nothing is connected yet.
    pub(crate) fn new(
        runtime: &'a R,
        alloc: Global,
        browsers: &TcpBrowsers<'a, R>,
        hall: Hall<'_>,
    ) -> io::Result<DesksSide<'a, R>> {
        Ok(DesksSide {
            alloc,
            stream: lent_stream(runtime, alloc, browsers, 0, hall)?,
            submits: lent_stream(runtime, alloc, browsers, 1, hall)?,
            asked: asked_desks(runtime, alloc, browsers, hall)?,
            desks: count_desks(hall.addresses),
            caught_up: false,
            answered_at: 0,
            hurried_at: 0,
            followed: 1,
            aim: 1,
            aimed_at: 0,
            front: 0,
            moved_at: 0,
            said_refused: false,
            said: HallWarning::Nothing,
        })
    }

    /// Moves on to the first item that waits, once the mirror had all that a desk's log had.
    fn pass<D: Disk>(&mut self, service: &TableService<D>, now: u64)
        ensures { self.new.caught_up ≡ self.old.caught_up }
    {
        let front = first_waiting(service, self.front);
        if self.caught_up && front != self.front {
            self.front = front;
            self.moved_at = now;
        }
    }

    /// Keeps the mirror up, and looks for what was decided. False: the hall is broken.
    fn keep_mirror<D: Disk>(&mut self, service: &mut TableService<D>, now: u64) -> io::Result<bool>
        ensures keeps { IsKeptUp service.old service.new }
        ensures caught_up { self.old.caught_up ≡ true → self.new.caught_up ≡ true }
        ensures catches_up { IfOk result (λ goes_on. goes_on ≡ true
            → has_all service.new.mirroring ≡ true → self.new.caught_up ≡ true) }
    {
        if service.keep(self.stream, now) == DialogueChange::Broken {
            return Ok(false);
        }
        let mirroring = service.mirroring();
        if has_answered(mirroring) {
            self.answered_at = now;
        }
        self.caught_up = self.caught_up || has_all(mirroring);
        service.look()?;
        self.pass(service, now);
        Ok(true)
    }

    /// Since when nothing was decided of what waits; none where nothing waits.
    fn still_since<D: Disk>(&self, service: &TableService<D>) -> Option<u64> {
        let (_, item) = service.outbox().at(self.front)?;
        Some(item.since.max(self.moved_at))
    }

    /// Submits at this desk, 1 to 5, from now on.
    fn aim_at<D: Disk>(&mut self, service: &mut TableService<D>, desk: u8, now: u64)
        requires { IsDesk desk }
        ensures keeps { IsKeptUp service.old service.new }
        ensures caught_up { self.new.caught_up ≡ self.old.caught_up }
    {
        self.aim = desk;
        self.aimed_at = now;
        service.aim(desk);
    }

    /// Moves on to the desk that the mirror follows, where it is another one than before; and to
    /// the next desk, where a majority answers and nothing was decided for five seconds.
    fn follow<D: Disk>(&mut self, service: &mut TableService<D>, now: u64)
        ensures keeps { IsKeptUp service.old service.new }
        ensures caught_up { self.new.caught_up ≡ self.old.caught_up }
    {
        let desk = service.mirroring().desk();
        if desk != self.followed {
            self.followed = desk;
            return self.aim_at(service, desk, now);
        }
        if self.said == HallWarning::Few {
            // Without a majority nothing is decided at any desk: the five seconds begin when one
            // answers.
            self.aimed_at = now;
            return;
        }
        let Some(since) = self.still_since(service) else {
            return;
        };
        if now.saturating_sub(since.max(self.aimed_at)) < PATIENCE {
            return;
        }
        let next = if self.aim >= self.desks {
            1
        } else {
            self.aim + 1
        };
        self.aim_at(service, next, now);
    }

    /// Whether something that a desk has taken waits to be decided.
    fn is_taken<D: Disk>(&self, service: &TableService<D>) -> bool {
        self.front < service.outbox().next()
    }

    /// The id of the first item that waits, where the desk that is followed can say as soon as its
    /// log has it.
    fn awaited<D: Disk>(&self, service: &TableService<D>) -> Option<u64>
        ensures { IfSome result IsId }
    {
        if !self.asked.desks.speaks_five(service.mirroring().desk()) {
            return None;
        }
        let (_id, item) = service.outbox().at(self.front)?;
        Some(item.entry.id())
    }

    /// Asks the desk at once for what comes next, where what it has taken waits to be decided: one
    /// that knows version 5 of the wire answers as soon as its log has it. The question is not
    /// asked as soon as the item was taken: a desk answers few questions on one connection, and one
    /// that comes too early may be its last.
    fn hurry<D: Disk>(&mut self, service: &mut TableService<D>, now: u64)
        ensures keeps { IsKeptUp service.old service.new }
        ensures caught_up { self.new.caught_up ≡ self.old.caught_up }
    {
        if !self.is_taken(service) {
            self.hurried_at = now;
            return;
        }
        if now.saturating_sub(self.hurried_at) < HURRY {
            return;
        }
        self.hurried_at = now;
        match self.awaited(service) {
            Some(id) => service.await_next(id),
            None => service.hurry(),
        }
    }

    /// Submits what was taken, once the mirror had all that a desk's log had.
    fn hand_out<D: Disk>(&mut self, service: &mut TableService<D>, now: u64)
        ensures keeps { IsKeptUp service.old service.new }
        ensures hands { self.old.caught_up ≡ true → HandsOut now service.old service.new }
        ensures caught_up { self.new.caught_up ≡ self.old.caught_up }
    {
        if !self.caught_up {
            return;
        }
        self.follow(service, now);
        let _kept = service.submit(self.submits, now);
    }

    /// Says how the desks are doing: on the pages, and on a line where none of them can take
    /// anything, once it is so.
    fn tell<D: Disk, F: Write>(
        &mut self,
        service: &mut TableService<D>,
        now: u64,
        faults: &mut F,
    ) -> io::Result<()>
        ensures keeps { IsKeptUp service.old service.new }
        ensures mirror { service.new.mirroring ≡ service.old.mirroring }
        ensures caught_up { self.new.caught_up ≡ self.old.caught_up }
    {
        let lengths = self.asked.desks.lengths(self.alloc)?;
        let away = self.asked.desks.away(self.alloc, now)?;
        let undecided = match self.still_since(service) {
            Some(since) => Some(now.saturating_sub(since)),
            None => None,
        };
        let desks = HallStatus {
            followed: service.mirroring().desk(),
            silent: Some(now.saturating_sub(self.answered_at)),
            undecided,
            refused: refused(service),
            lengths,
            away,
            trouble: self.stream.wire.key_trouble(),
            of_other_hall: self.asked.desks.of_other_hall(),
            differs: self.asked.desks.differs(self.alloc)?,
        };
        self.said = say(self.said, said_of(&desks), faults);
        service.set_desks(desks);
        Ok(())
    }

    /// Does all that can be done now, and says what is wrong with the desks' keys. Each call
    /// submits what was taken, once the mirror had all that a desk's log had before the call: so
    /// after a start nothing is submitted that was decided before it. False: the hall is broken.
    pub(crate) fn keep<D: Disk, F: Write>(
        &mut self,
        service: &mut TableService<D>,
        now: u64,
        faults: &mut F,
    ) -> io::Result<bool>
        ensures keeps { IsKeptUp service.old service.new }
        ensures hands { IfOk result (λ goes_on. goes_on ≡ true → self.old.caught_up ≡ true
            → HandsOut now service.old service.new) }
        ensures caught_up { self.old.caught_up ≡ true → self.new.caught_up ≡ true }
        ensures catches_up { IfOk result (λ goes_on. goes_on ≡ true
            → has_all service.new.mirroring ≡ true → self.new.caught_up ≡ true) }
    {
        keep_asked(&mut self.asked, now, faults);
        if !self.keep_mirror(service, now)? {
            return Ok(false);
        }
        self.hand_out(service, now);
        self.tell_refused(service, faults);
        self.hurry(service, now);
        if !self.keep_mirror(service, now)? {
            return Ok(false);
        }
        self.tell(service, now, faults)?;
        Ok(true)
    }

    /// Says on a line, once, that a desk accepts nothing for want of the key, where one refused to.
    /// A line that can't be written is left out.
    fn tell_refused<D: Disk, F: Write>(&mut self, service: &TableService<D>, faults: &mut F)
        ensures { self.new.caught_up ≡ self.old.caught_up }
    {
        let outbox = service.outbox();
        if self.said_refused || outbox.refusal() != Some(ClientRefusal::NotAllowed) {
            return;
        }
        let desk = outbox.desk();
        let why = "accepts nothing: this table has no key, or another one";
        let _ = writeln!(faults, "{PROGRAM}: desk {desk} {why}");
        self.said_refused = true;
    }

    /// How long browsers may be waited for.
    pub(crate) fn wait<D: Disk>(&self, service: &TableService<D>, now: u64) -> u64 {
        let wait = service
            .mirroring()
            .wait(now)
            .min(self.asked.desks.wait(now))
            .min(LONGEST_WAIT);
        if !self.caught_up {
            return wait;
        }
        let wait = wait.min(service.outbox().wait(now));
        if self.is_taken(service) {
            wait.min(HURRY)
        } else {
            wait
        }
    }
}
