//! A mirror, the follower that says which desk is asked, and the connection to it.

ghost use Rattle.std.specs.Prelude.{◌≡◌, ◌≤◌, ◌+◌, false, IfOk, length};
ghost use Rattle.log_follower.specs.Following.{IsPlace};
ghost use Rattle.kept_mirror.specs.Mirrorings.{Asks, Fails, Grows, hurried, lost, wait_of};
ghost use Rattle.kept_mirror.specs.Mirrorings.{Follows, after_told, given_up, is_growth, is_within};
ghost use Rattle.kept_mirror.specs.Mirrorings.{FollowsAnswer, awaiting, new_mirroring, question_by};
ghost use Rattle.desk_talks.specs.KeptConnections.{unsent_by};
ghost use Rattle.wire.specs.Ranges.{IsFrame, IsId};
ghost use Rattle.desk_talks.specs.declared.dialogue.ReceiveOutcome.TheVariants as came;

use client::{await_request, log_request};
use desk_talks::{
    AnswerOutcome, ConnectionPhase, ConnectionStage, Dialogue, DialogueAction, KeptConnection,
    ReceiveOutcome,
};
use log_follower::{AnswerWorth, FollowAction, Follower};
use mirror::{Mirror, MirrorGrowth};
use std::alloc::{AllocError, Global};
use std::marker::Model;
use wire::{Entries, Frame, FrameBody};

/// Keeps a mirror up with the desks of a hall. Its caller asks it again and again what is to be
/// done (`act`), does it over one connection at a time, and says what came of it.
///
/// A contract sees the number of the hall, the follower, the connection to the desk that is
/// followed, the entries of the mirror, and the id of a command that the desk is to be asked for
/// next.
#[derive(Drop)]
pub struct Mirroring {
    hall: u32,
    follower: Follower,
    line: KeptConnection,
    mirror: Mirror,
    awaits: Option<u64>,
}

/// How long a desk is to wait for a command, in seconds, before it says that it does not have it.
const SECONDS: u8 = 1;

impl Model for Mirroring {
    ghost use Rattle.kept_mirror.specs.Mirrorings.{AreIds, MirroringOf, mirroring};

    ghost Value = { MirroringOf };

    ghost view = { λ m. mirroring m.hall m.follower m.line m.mirror m.awaits };

    ghost invariant = { λ m. AreIds m.awaits };
}

/// Whether a mirror has grown, as far as is known.
fn is_growth(taken: Option<MirrorGrowth>) -> bool
    ensures { result ≡ is_growth taken }
{
    matches!(taken, Some(MirrorGrowth::Grew) | None)
}

/// Whether entries from a position on end where a log may end.
fn is_within(position: u32, entries: &Entries) -> bool
    ensures { result ≡ is_within position entries.now }
{
    let left = 65_536_u32.saturating_sub(position);
    position <= 65_536 && entries.as_slice().len() <= left as usize
}

impl Mirroring {
    /// An empty mirror of a hall with this many desks, 1 to 5. The first desk comes first.
    pub fn new(alloc: Global, hall: u32, desks: u8) -> Result<Mirroring, AllocError>
        requires { IsPlace 1 desks }
        ensures { IfOk result (λ m. m ≡ new_mirroring hall desks) }
    {
        Ok(Mirroring {
            hall,
            follower: Follower::new(desks),
            line: KeptConnection::new(alloc),
            mirror: Mirror::new(alloc)?,
            awaits: None,
        })
    }

    /// The mirror.
    pub fn mirror(&self) -> &Mirror
        ensures { result.now ≡ self.now.entries }
    {
        &self.mirror
    }

    /// The number of the desk that is followed, 1 to 5.
    pub fn desk(&self) -> u8
        ensures desk { result ≡ self.now.follower.desk }
        ensures place { IsPlace result self.now.follower.desks }
    {
        self.follower.desk()
    }

    /// What the connection to it has come to.
    pub fn stage(&self) -> ConnectionStage
        ensures { result ≡ self.now.line.stage }
    {
        self.line.stage()
    }

    /// What the last answer was worth.
    pub fn worth(&self) -> AnswerWorth
        ensures { result ≡ self.now.follower.worth }
    {
        self.follower.worth()
    }

    /// In how many milliseconds something is to be done, if nothing comes: at most 2,000.
    pub fn wait(&self, now: u64) -> u64
        ensures wait { result ≡ wait_of self.now now }
        ensures soon { result ≤ 2000 }
    {
        self.follower.wait(&self.line, now)
    }

    /// What the desk that is followed is asked: for a command, or for its log from the mirror's
    /// last entry on: if the desk has another one there, that is noticed.
    fn question(&self) -> Frame
        ensures question { result ≡ question_by self.now.awaits self.now }
        ensures spelled { IsFrame result }
    {
        let desk = self.follower.desk();
        match self.awaits {
            Some(id) => await_request(self.hall, desk, id, SECONDS),
            None => log_request(self.hall, desk, self.mirror.len().saturating_sub(1)),
        }
    }

    /// Asks the desk that is followed.
    fn ask(&mut self, now: u64) -> DialogueAction
        ensures { Asks result now self.old self.new }
    {
        let question = self.question();
        if self.line.ask(now, question) {
            self.awaits = None;
            return DialogueAction::Write;
        }
        self.give_up();
        DialogueAction::Close
    }

    /// Closes the connection, if it is not closed yet, and follows the next desk.
    fn give_up(&mut self)
        ensures { self.new ≡ given_up self.old }
    {
        self.awaits = None;
        self.follower.turn();
        self.line.close();
    }

    /// Counts the connection as lost, since what came over it is no answer.
    fn fail(&mut self) -> ReceiveOutcome
        ensures { Fails result self.old self.new }
    {
        self.give_up();
        ReceiveOutcome::NoAnswer
    }

    /// Does what follows of what the desk's bytes came to.
    fn follow(&mut self, now: u64, heard: AnswerOutcome) -> ReceiveOutcome
        ensures { Follows heard result now self.old self.new }
    {
        match heard {
            AnswerOutcome::Waits => ReceiveOutcome::Nothing,
            AnswerOutcome::Answer(answer) => self.follow_answer(now, answer),
            AnswerOutcome::Refused(_refusal) => self.fail(),
            AnswerOutcome::NoAnswer => self.fail(),
        }
    }

    /// Does what follows of a desk's answer.
    fn follow_answer(&mut self, now: u64, answer: FrameBody) -> ReceiveOutcome
        ensures { FollowsAnswer answer result now self.old self.new }
    {
        match answer {
            FrameBody::Entries {
                position,
                length,
                entries,
            } => {
                if is_within(position, &entries) {
                    self.take(now, position, length, entries)
                } else {
                    self.fail()
                }
            }
            FrameBody::Told { .. } => self.say(now),
            _other => self.fail(),
        }
    }

    /// Asks for the log at once, since a desk has said what becomes of a command.
    fn say(&mut self, now: u64) -> ReceiveOutcome
        ensures said { self.new ≡ after_told self.old now }
        ensures came { result ≡ came.Answer false }
    {
        self.awaits = None;
        let held = self.mirror.len();
        self.follower.answered(&mut self.line, now, None, held, 0);
        self.hurry();
        ReceiveOutcome::Answer { changed: false }
    }

    /// Takes entries that a desk sent, whose log is this long.
    fn take(&mut self, now: u64, position: u32, len: u32, entries: Entries) -> ReceiveOutcome
        requires { position + length entries ≤ 65536 }
        ensures { Grows result now position len entries self.old self.new }
    {
        let taken = self.mirror.take(position, entries).ok();
        let held = self.mirror.len();
        self.follower
            .answered(&mut self.line, now, taken, held, len);
        ReceiveOutcome::Answer {
            changed: is_growth(taken),
        }
    }

    /// Lets the next question come at once where the last one was answered with something of use:
    /// over the connection or, where that was closed or lost since, over a new one to the next
    /// desk. So a caller who knows of something new needn't wait for a quarter of a second, also
    /// where the desk ended the connection after that answer.
    pub fn hurry(&mut self)
        ensures { self.new ≡ hurried self.old }
    {
        self.follower.hurry(&mut self.line);
    }

    /// The same, and the next question is for this command, which the log does not have yet: the
    /// desk answers it once it is there, or after a second, and is asked for its log at once then.
    /// The desk has to know version 5 of the wire: another one ends the connection at it.
    pub fn await_next(&mut self, id: u64)
        requires { IsId id }
        ensures { self.new ≡ awaiting self.old id }
    {
        self.awaits = Some(id);
        self.hurry();
    }
}

impl Dialogue for Mirroring {
    ghost use Rattle.std.specs.Prelude.{◌≡◌, List};
    ghost use Rattle.kept_mirror.specs.Mirrorings.{DialogueLeads, held};
    ghost use Rattle.desk_talks.specs.KeptConnections.{phase_of};
    ghost use Rattle.acceptor.specs.declared.entry.Entry.{Entry};

    ghost Held = { List Entry };

    // The entries of the mirror.
    ghost held = { held };

    ghost leads = { DialogueLeads };

    ghost phase = { λ m. phase_of m.line.stage };

    ghost output = { λ m. unsent_by m.line.talking };

    fn act(&mut self, now: u64) -> DialogueAction {
        match self.follower.act(&mut self.line, now) {
            FollowAction::Rest => DialogueAction::Rest,
            FollowAction::Open { desk } => DialogueAction::Open { desk },
            FollowAction::Ask { .. } => self.ask(now),
            FollowAction::Close { .. } => DialogueAction::Close,
            FollowAction::Stop => {
                self.line.close();
                DialogueAction::Stop
            }
        }
    }

    fn phase(&self) -> ConnectionPhase {
        self.line.phase()
    }

    fn opened(&mut self) -> bool {
        if self.line.opened() {
            return true;
        }
        self.give_up();
        false
    }

    fn lost(&mut self, _ended: bool)
        ensures { self.new ≡ lost self.old }
    {
        if self.line.is_closed() {
            self.awaits = None;
        } else {
            self.give_up();
        }
    }

    fn output(&self) -> &[u8] {
        self.line.output()
    }

    fn sent(&mut self, count: usize) {
        self.line.sent(count);
    }

    fn hear(&mut self, now: u64, piece: &[u8]) -> ReceiveOutcome {
        let heard = self.line.hear(piece);
        self.follow(now, heard)
    }
}
