//! What the entries of a log were answered, and the meet that they come to.

ghost use Rattle.std.specs.Prelude.{◌≡◌, ◌≤◌, ◌<◌, ◌+◌, ◌∷◌, ◌++◌, [], List, Some};
ghost use Rattle.std.specs.Prelude.{IfOk, IfErr, OnOk, OnErr, length, slice_get, take};
ghost use Rattle.acceptor.specs.declared.entry.Entry.{Entry as EntryValue};
ghost use Rattle.sheets.specs.Sheet.{sheet};
ghost use Rattle.answers.specs.Answers.{told, sheet_at, NoSheetAt, NoSheetIn};
ghost use Rattle.answers.specs.Transcripts.{IsFront, IsTranscript, answer_after};

use crate::answers::{IdState, told_by_queue};
use crate::fault::LogSheetFault;
use acceptor::NoMemory;
use acceptor::entry::Entry;
use commands::Meet;
use formats::Event;
use learner::log::Log;
use sheets::{SheetStyle, sheet};
use std::alloc::Global;
use std::marker::Model;
use texts::Answer;

/// What entries were answered that were taken one after the other, and the meet that they come to.
///
/// Contracts see it as both, and say of which entries it is the transcript. Whoever keeps a log
/// keeps one beside it: it is that of the log's first entries, which are all of them, but where
/// memory was refused.
pub struct Transcript {
    meet: Meet,
    answers: Vec<Answer>,
}

// It is written out, so that a caller does not prove again how each part is dropped.
impl Drop for Transcript {
    fn drop(self) {
        let Transcript {
            meet: _,
            answers: _,
        } = self;
    }
}

impl Model for Transcript {
    ghost use Rattle.answers.specs.Transcripts.{TranscriptValue};

    ghost Value = { TranscriptValue };

    ghost view = { λ t. record { meet = t.meet; answers = t.answers.items } };
}

/// What has become of this id, where the log and the queue are these. It reads the log up to there.
#[tactic(auto, using(crate::proofs::States::done_by_taking))]
pub fn state_of(alloc: Global, log: &Log, queue: &[Entry], id: u64) -> Result<IdState, NoMemory>
    ensures { IfOk result (λ state. state ≡ told log.now.entries queue.now id) }
{
    let Some(pos) = log.position_of(id) else {
        return Ok(told_by_queue(queue, id));
    };
    let Some(entry) = log.entry(pos) else {
        return Ok(IdState::Unknown);
    };
    let mut before = Transcript::of_first(alloc, log, pos)?;
    let answer = before.take(entry)?;
    Ok(IdState::Done { pos, answer })
}

/// The sheet of a round after the log's first `position` entries. It reads the log up to there.
pub fn sheet_of(
    alloc: Global,
    log: &Log,
    position: u32,
    event: Event,
    round: u8,
    style: SheetStyle,
) -> Result<Vec<u8>, LogSheetFault>
    ensures there { OnOk result (position ≤ length log.now.entries) }
    ensures sheet { IfOk result
        (λ text. sheet_at style log.now.entries position event round ≡ Some text.items) }
    ensures none { IfErr result
        (λ fault. NoSheetAt fault log.now.entries position
        (sheet_at style log.now.entries position event round)) }
{
    if position > log.len() {
        return Err(LogSheetFault::NotThere);
    }
    let Ok(first) = Transcript::of_first(alloc, log, position) else {
        return Err(LogSheetFault::NoMemory);
    };
    first.sheet_in(alloc, position, event, round, style)
}

impl Transcript {
    /// The transcript of no entry.
    pub fn new(alloc: Global) -> Result<Transcript, NoMemory>
        ensures none { IfOk result (λ t. IsTranscript t []) }
        ensures front { IfOk result (λ t. (log : List EntryValue) → IsFront t log) }
    {
        let meet = Meet::new(alloc)?;
        let answers = Vec::new(alloc);
        Ok(Transcript { meet, answers })
    }

    /// The transcript of the first `count` entries of a log, or of all.
    pub fn of_first(alloc: Global, log: &Log, count: u32) -> Result<Transcript, NoMemory>
        ensures { IfOk result (λ t. IsTranscript t (take count log.now.entries)) }
    {
        let mut first = Transcript::new(alloc)?;
        first.take_to(log, count.min(log.len()))?;
        Ok(first)
    }

    /// How many entries were taken.
    fn len(&self) -> usize
        ensures { result ≡ length self.now.answers }
    {
        self.answers.len()
    }

    /// The competition that the entries come to.
    pub fn meet(&self) -> &Meet
        ensures { result.now ≡ self.now.meet }
    {
        &self.meet
    }

    /// What the entry at a position was answered, where it was taken.
    pub fn answer(&self, position: u32) -> Option<Answer>
        ensures { result ≡ slice_get self.now.answers position }
    {
        self.answers.get(position as usize).copied()
    }

    /// Takes one more entry, and says what its command is answered: by the rules, over the entries
    /// that were taken before it. At NoMemory nothing changes.
    pub fn take(&mut self, entry: &Entry) -> Result<Answer, NoMemory>
        ensures answer { IfOk result (λ answer. (entries : List EntryValue)
            → IsTranscript self.old entries → answer ≡ answer_after entries entry.now) }
        ensures taken { OnOk result ((entries : List EntryValue) → IsTranscript self.old entries
            → IsTranscript self.new (entries ++ entry.now ∷ [])) }
        ensures more { OnOk result (length self.new.answers ≡ length self.old.answers + 1) }
        ensures err { OnErr result (self.new ≡ self.old) }
    {
        self.answers.reserve(1)?;
        let answer = self.meet.apply(entry.id(), entry.text())?;
        self.answers.push(answer).unwrap();
        Ok(answer)
    }

    /// Takes the entries of the log that lack. Where memory is refused for one, those before it are
    /// taken.
    pub fn catch_up(&mut self, log: &Log) -> Result<(), NoMemory>
        requires { IsFront self.old log.now.entries }
        ensures front { IsFront self.new log.now.entries }
        ensures all { OnOk result (length self.new.answers ≡ length log.now.entries) }
        ensures err { OnErr result (length self.new.answers < length log.now.entries) }
        ensures no_less { length self.old.answers ≤ length self.new.answers }
    {
        self.take_to(log, log.len())
    }

    /// Takes the entries of the log that lack before the position `end`.
    fn take_to(&mut self, log: &Log, end: u32) -> Result<(), NoMemory>
        requires front { IsFront self.old log.now.entries }
        requires old { length self.old.answers ≤ end }
        requires there { end ≤ length log.now.entries }
        ensures front { IsFront self.new log.now.entries }
        ensures all { OnOk result (length self.new.answers ≡ end) }
        ensures err { OnErr result (length self.new.answers < end) }
        ensures no_less { length self.old.answers ≤ length self.new.answers }
    {
        for position in self.len() as u32..end {
            let Some(entry) = log.entry(position) else {
                unreachable!();
            };
            self.take(entry)?;
        }
        Ok(())
    }

    /// As the function `state_of`, but where the entry was taken its answer is looked up.
    pub fn state_of(
        &self,
        alloc: Global,
        log: &Log,
        queue: &[Entry],
        id: u64,
    ) -> Result<IdState, NoMemory>
        requires { IsFront self.now log.now.entries }
        ensures { IfOk result (λ state. state ≡ told log.now.entries queue.now id) }
    {
        if let Some(pos) = log.position_of(id) {
            if let Some(answer) = self.answer(pos) {
                return Ok(IdState::Done { pos, answer });
            }
        }
        state_of(alloc, log, queue, id)
    }

    /// As the function `sheet_of`, but where the entries up to there are those that were taken, the
    /// log is not read.
    pub fn sheet_at(
        &self,
        alloc: Global,
        log: &Log,
        position: u32,
        event: Event,
        round: u8,
        style: SheetStyle,
    ) -> Result<Vec<u8>, LogSheetFault>
        requires { IsFront self.now log.now.entries }
        ensures there { OnOk result (position ≤ length log.now.entries) }
        ensures sheet { IfOk result
            (λ text. sheet_at style log.now.entries position event round ≡ Some text.items) }
        ensures none { IfErr result
            (λ fault. NoSheetAt fault log.now.entries position
            (sheet_at style log.now.entries position event round)) }
    {
        if position as usize != self.len() {
            return sheet_of(alloc, log, position, event, round, style);
        }
        self.sheet_in(alloc, position, event, round, style)
    }

    /// The sheet of a round of the competition that the entries come to, with this position.
    fn sheet_in(
        &self,
        alloc: Global,
        position: u32,
        event: Event,
        round: u8,
        style: SheetStyle,
    ) -> Result<Vec<u8>, LogSheetFault>
        ensures sheet { IfOk result
            (λ text. sheet style self.now.meet.accepted event round position ≡ Some text.items) }
        ensures none { IfErr result
            (λ fault. NoSheetIn fault (sheet style self.now.meet.accepted event round position)) }
    {
        match sheet(alloc, self.meet(), event, round, position, style) {
            Ok(text) => Ok(text),
            Err(sheets::SheetFault::NoSuchRound) => Err(LogSheetFault::NoSuchRound),
            Err(sheets::SheetFault::NoMemory) => Err(LogSheetFault::NoMemory),
        }
    }
}
