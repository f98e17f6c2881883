//! A connection to one desk that is kept up, and when the desk may be asked over it.

ghost use Rattle.std.specs.Prelude.{◌≡◌, ◌≤◌};
ghost use Rattle.wire.specs.Ranges.{IsFrame};
ghost use Rattle.desk_talks.specs.KeptConnections.{AsksOver, HearsOver, Opens, answered_stage};
ghost use Rattle.desk_talks.specs.KeptConnections.{closed, due_at, due_of, hurried, is_closed};
ghost use Rattle.desk_talks.specs.KeptConnections.{is_free, is_over, phase_of, to_open_at_once};
ghost use Rattle.desk_talks.specs.KeptConnections.{last_of, left_of, new_line, opened_stage};
ghost use Rattle.desk_talks.specs.KeptConnections.{opening, pace_left, sent_by, unsent_by, wait_at};
ghost use Rattle.desk_talks.specs.KeptConnections.{wait_of, asked_once_more, is_used_up};

use crate::dialogue::ConnectionPhase;
use crate::exchange::{AnswerOutcome, Exchange};
use std::alloc::Global;
use std::marker::Model;
use wire::Frame;

/// The least time from one question to the next, in milliseconds.
const PACE: u64 = 250;

/// How long a desk may be silent, in milliseconds.
const PATIENCE: u64 = 2000;

/// How many questions a desk answers over one connection, before it ends it.
const MOST_QUESTIONS: u32 = 64;

/// What a connection to a desk has come to. Times are milliseconds.
#[derive(Clone, Copy, PartialEq, Eq, Debug)]
pub enum ConnectionStage {
    /// There is none. The last try began at this time. Where there is no such time, the next may
    /// begin at once.
    Closed { last: Option<u64> },
    /// It is being opened since this time.
    Opening { since: u64 },
    /// It is open, nothing was asked over it, and its opening was begun at this time.
    Opened { since: u64 },
    /// The desk was asked at this time, and has not answered.
    Asked { since: u64 },
    /// The desk answered what it was asked at this time. Where there is no such time, the next
    /// question may come at once.
    Answered { last: Option<u64> },
}

/// What is due over a connection now.
#[derive(Clone, Copy, PartialEq, Eq, Debug)]
pub enum DueAction {
    /// Nothing.
    Rest,
    /// It may be opened.
    Open,
    /// The desk may be asked.
    Ask,
    /// It is to be closed, since the desk is silent for two seconds: no connection could be opened,
    /// or no answer came.
    Close,
    /// It is to be closed, and then opened again: the desk has answered as many questions over it
    /// as a desk answers over one connection.
    Renew,
}

/// A connection to one desk that is kept up: it is opened, the desk is asked one question after the
/// other over it, and where it is lost, the desk is silent for two seconds, or 64 questions were
/// answered over it, which is all that a desk answers over one connection, it is opened again.
/// From one question to the next there is at least a quarter of a second, and so there is from a
/// question, or from an opening, to the next opening. Over a new connection the desk may be asked at
/// once.
///
/// A contract sees what the connection has come to, the talk over it, if it is open, and how many
/// questions were asked over it, of which no more than 64 are counted. Times are milliseconds of a
/// clock that doesn't go back; where it does, more time passes between questions.
#[derive(Drop)]
pub struct KeptConnection {
    alloc: Global,
    stage: ConnectionStage,
    talk: Option<Exchange>,
    asked: u32,
}

impl Model for KeptConnection {
    ghost use Rattle.desk_talks.specs.KeptConnections.{KeptConnectionOf, line};

    ghost Value = { KeptConnectionOf };

    ghost view = { λ l. line l.stage l.talk l.asked };
}

/// Whether this many milliseconds have gone since then.
fn is_over(now: u64, since: u64, millis: u64) -> bool
    ensures { result ≡ is_over now since millis }
{
    now.saturating_sub(since) >= millis
}

/// What is left of this many milliseconds from then on.
fn left_of(now: u64, since: u64, millis: u64) -> u64
    ensures left { result ≡ left_of now since millis }
    ensures most { result ≤ millis }
{
    millis.saturating_sub(now.saturating_sub(since))
}

/// Whether a quarter of a second has gone since then.
fn is_free(last: Option<u64>, now: u64) -> bool
    ensures { result ≡ is_free last now }
{
    match last {
        None => true,
        Some(since) => is_over(now, since, PACE),
    }
}

/// What is left of a quarter of a second from then on.
fn pace_left(last: Option<u64>, now: u64) -> u64
    ensures left { result ≡ pace_left last now }
    ensures most { result ≤ 250 }
{
    match last {
        None => 0,
        Some(since) => left_of(now, since, PACE),
    }
}

/// Whether this many questions are all that a desk answers over one connection.
fn is_used_up(asked: u32) -> bool
    ensures { result ≡ is_used_up asked }
{
    asked >= MOST_QUESTIONS
}

/// How many questions were asked with one more, of which no more than 64 are counted.
fn asked_once_more(asked: u32) -> u32
    ensures { result ≡ asked_once_more asked }
{
    if asked >= MOST_QUESTIONS {
        asked
    } else {
        asked + 1
    }
}

/// What is due in this stage, of a connection that is used up or not.
fn due_at(stage: ConnectionStage, used_up: bool, now: u64) -> DueAction
    ensures { result ≡ due_at stage used_up now }
{
    match stage {
        ConnectionStage::Closed { last } if is_free(last, now) => DueAction::Open,
        ConnectionStage::Opening { since } | ConnectionStage::Asked { since }
            if is_over(now, since, PATIENCE) => { DueAction::Close }
        ConnectionStage::Opened { .. } => DueAction::Ask,
        ConnectionStage::Answered { .. } if used_up => DueAction::Renew,
        ConnectionStage::Answered { last } if is_free(last, now) => DueAction::Ask,
        _ => DueAction::Rest,
    }
}

/// How long it is until something is due in this stage, of a connection that is used up or not.
fn wait_at(stage: ConnectionStage, used_up: bool, now: u64) -> u64
    ensures wait { result ≡ wait_at stage used_up now }
    ensures most { result ≤ 2000 }
{
    match stage {
        ConnectionStage::Answered { .. } if used_up => 0,
        ConnectionStage::Closed { last } | ConnectionStage::Answered { last } => pace_left(
            last, now,
        ),
        ConnectionStage::Opening { since } | ConnectionStage::Asked { since } => left_of(
            now, since, PATIENCE,
        ),
        ConnectionStage::Opened { .. } => 0,
    }
}

/// The time from which the next question is a quarter of a second away.
fn last_of(stage: ConnectionStage) -> Option<u64>
    ensures { result ≡ last_of stage }
{
    match stage {
        ConnectionStage::Closed { last } | ConnectionStage::Answered { last } => last,
        ConnectionStage::Opening { since }
        | ConnectionStage::Opened { since }
        | ConnectionStage::Asked { since } => Some(since),
    }
}

/// What the connection has come to once it is open.
fn opened_stage(stage: ConnectionStage) -> ConnectionStage
    ensures { result ≡ opened_stage stage }
{
    match stage {
        ConnectionStage::Opening { since } => ConnectionStage::Opened { since },
        other => other,
    }
}

/// What the connection has come to with an answer.
fn answered_stage(stage: ConnectionStage) -> ConnectionStage
    ensures { result ≡ answered_stage stage }
{
    match stage {
        ConnectionStage::Asked { since } => ConnectionStage::Answered { last: Some(since) },
        other => other,
    }
}

impl KeptConnection {
    /// No connection yet. It may be opened at once.
    pub fn new(alloc: Global) -> KeptConnection
        ensures { result ≡ new_line }
    {
        KeptConnection {
            alloc,
            stage: ConnectionStage::Closed { last: None },
            talk: None,
            asked: 0,
        }
    }

    /// What the connection has come to.
    pub fn stage(&self) -> ConnectionStage
        ensures { result ≡ self.now.stage }
    {
        self.stage
    }

    /// What is due now.
    pub fn due(&self, now: u64) -> DueAction
        ensures { result ≡ due_of self.now now }
    {
        due_at(self.stage, is_used_up(self.asked), now)
    }

    /// In how many milliseconds something is due, if no other call is made: 0 where something is
    /// due already, and at most 2,000.
    pub fn wait(&self, now: u64) -> u64
        ensures wait { result ≡ wait_of self.now now }
        ensures most { result ≤ 2000 }
    {
        wait_at(self.stage, is_used_up(self.asked), now)
    }

    /// Whether there is a connection, as its dialogue says it.
    pub fn phase(&self) -> ConnectionPhase
        ensures { result ≡ phase_of self.now.stage }
    {
        match self.stage {
            ConnectionStage::Closed { .. } => ConnectionPhase::Closed,
            ConnectionStage::Opening { .. } => ConnectionPhase::Opening,
            _ => ConnectionPhase::Open,
        }
    }

    /// Whether there is no connection, and none is being opened.
    pub fn is_closed(&self) -> bool
        ensures { result ≡ is_closed self.now.stage }
    {
        matches!(self.stage, ConnectionStage::Closed { .. })
    }

    /// Says that a connection is being opened from now on.
    pub fn open(&mut self, now: u64)
        ensures { self.new ≡ opening self.old now }
    {
        self.talk = None;
        self.asked = 0;
        self.stage = ConnectionStage::Opening { since: now };
    }

    /// Says that the connection that was being opened is open. Where memory is refused, it counts
    /// as closed, and the answer is false: it is to be closed.
    pub fn opened(&mut self) -> bool
        ensures { Opens result self.old self.new }
    {
        let Ok(talk) = Exchange::new(self.alloc) else {
            self.close();
            return false;
        };
        self.talk = Some(talk);
        self.asked = 0;
        self.stage = opened_stage(self.stage);
        true
    }

    /// Says that the connection is closed or lost, or that its opening is given up.
    pub fn close(&mut self)
        ensures { self.new ≡ closed self.old }
    {
        self.talk = None;
        self.asked = 0;
        self.stage = ConnectionStage::Closed {
            last: last_of(self.stage),
        };
    }

    /// Asks the desk this question, whose fields are in their ranges: it is to be written. A
    /// question that waited is given up. Where no connection is open, or memory is refused, it
    /// counts as closed, and the answer is false: it is to be closed.
    pub fn ask(&mut self, now: u64, question: Frame) -> bool
        requires { IsFrame question }
        ensures { AsksOver result now question self.old self.new }
    {
        let asked = match &mut self.talk {
            Some(talk) => talk.ask(self.alloc, question).is_ok(),
            None => false,
        };
        if asked {
            self.stage = ConnectionStage::Asked { since: now };
            self.asked = asked_once_more(self.asked);
        } else {
            self.close();
        }
        asked
    }

    /// Lets the next question come at once, where the last one was answered.
    pub fn hurry(&mut self)
        ensures { self.new ≡ hurried self.old }
    {
        if let ConnectionStage::Answered { .. } = self.stage {
            self.stage = ConnectionStage::Answered { last: None };
        }
    }

    /// Lets the next connection be opened at once, where there is none.
    pub fn open_at_once(&mut self)
        ensures { self.new ≡ to_open_at_once self.old }
    {
        if self.is_closed() {
            self.stage = ConnectionStage::Closed { last: None };
        }
    }

    /// What is to be written now.
    pub fn output(&self) -> &[u8]
        ensures { result.now ≡ unsent_by self.now.talking }
    {
        match &self.talk {
            Some(talk) => talk.output(),
            None => &[],
        }
    }

    /// Says that this many bytes of the output were written.
    pub fn sent(&mut self, count: usize)
        ensures { self.new ≡ sent_by self.old count }
    {
        if let Some(talk) = &mut self.talk {
            talk.sent(count);
        }
    }

    /// Takes bytes that came from the desk. Without a connection nothing comes. What is no answer
    /// closes the connection.
    pub fn hear(&mut self, piece: &[u8]) -> AnswerOutcome
        ensures { HearsOver result piece.now self.old self.new }
    {
        let Some(talk) = &mut self.talk else {
            return AnswerOutcome::Waits;
        };
        let heard = talk.hear(piece);
        match heard {
            AnswerOutcome::Waits => {}
            AnswerOutcome::Answer(_) | AnswerOutcome::Refused(_) => self.stage = answered_stage(
                self.stage,
            ),
            AnswerOutcome::NoAnswer => self.close(),
        }
        heard
    }
}
