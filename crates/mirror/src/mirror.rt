//! A list of entries that grows by what desks answer, and its transcript.

ghost use Rattle.std.specs.Prelude.{◌≡◌, drop};

use acceptor::NoMemory;
use acceptor::entry::Entry;
use answers::{LogSheetFault, Transcript};
use commands::Meet;
use formats::Event;
use learner::log::Log;
use sheets::SheetStyle;
use std::alloc::{AllocError, Global};
use std::collections::VecDeque;
use std::marker::Model;
use texts::Answer;
use wire::Entries;

/// What came of entries that a mirror was given.
#[derive(Clone, Copy, PartialEq, Eq, Debug)]
pub enum MirrorGrowth {
    /// The entries are where the mirror ends, or overlap with what it holds and continue beyond its
    /// end. It has grown by those beyond its end.
    Grew,
    /// The mirror holds all of them already, at their positions. It is as it was.
    Known,
    /// The first of them is above the mirror's end, which is at the position of its length. The
    /// mirror is as it was, whatever the entries are.
    Gap,
    /// The mirror holds another entry at `position`, 0 to 65,535, and at no position below it that
    /// was given. It is as it was.
    Differs { position: u32 },
}

/// The first entries of a log, from position 0 on, as they were given.
///
/// Contracts see it as the list of these entries. Their transcript is kept beside them.
#[derive(Drop)]
pub struct Mirror {
    log: Log,
    transcript: Transcript,
}

impl Model for Mirror {
    ghost use Rattle.std.specs.Prelude.{List};
    ghost use Rattle.acceptor.specs.declared.entry.Entry.{Entry};
    ghost use Rattle.answers.specs.Transcripts.{IsTranscript};

    ghost Value = { List Entry };

    ghost view = { λ m. m.log.entries };

    ghost invariant = { λ m. IsTranscript m.transcript m.log.entries };
}

/// The entries after the first `count`.
fn after_first(entries: Vec<Entry>, count: u32) -> VecDeque<Entry>
    ensures { result.items ≡ drop count entries.items }
{
    let mut left = VecDeque::from(entries);
    for _ in 0..count {
        let _known = left.pop_front();
    }
    left
}

impl Mirror {
    ghost use Rattle.std.specs.Prelude.{◌≡◌, ◌∷◌, ◌++◌, ◌+◌, ◌-◌, ◌<◌, ◌≤◌, ◌↔◌, [], None, Some};
    ghost use Rattle.std.specs.Prelude.{IfOk, IfErr, IfSome, OnOk, OnErr, IsTrue};
    ghost use Rattle.std.specs.Prelude.{length};
    ghost use Rattle.answers.specs.Answers.{sheet_at, texts, NoSheetAt};
    ghost use Rattle.commands.specs.History.{StandsFor};
    ghost use Rattle.answers.specs.Transcripts.{answer_at};
    ghost use Rattle.mirror.specs.Mirrors.{Takes, TakesPart, DiffersFirst, AreHeldBelow, HoldsPart};

    /// The mirror with no entry. It takes its first memory here.
    pub fn new(alloc: Global) -> Result<Mirror, NoMemory>
        ensures { IfOk result (λ mirror. mirror ≡ []) }
    {
        let log = Log::new(alloc)?;
        let transcript = Transcript::new(alloc)?;
        Ok(Mirror { log, transcript })
    }

    /// The entries that are held, by position.
    pub fn log(&self) -> &Log
        ensures entries { result.now.entries ≡ self.now }
        ensures most { length self.now ≤ 65536 }
    {
        let _most = self.log.len();
        &self.log
    }

    /// The competition that the entries come to.
    pub fn meet(&self) -> &Meet
        ensures { StandsFor result.now (texts self.now) }
    {
        self.transcript.meet()
    }

    /// What the entry at a position was answered, by the rules, over the entries before it; none
    /// where no entry is held there.
    pub fn answer(&self, position: u32) -> Option<Answer>
        ensures { result ≡ answer_at self.now position }
    {
        self.transcript.answer(position)
    }

    /// The number of entries that are held, at most 65,536.
    pub fn len(&self) -> u32
        ensures len { result ≡ length self.now }
        ensures most { length self.now ≤ 65536 }
    {
        self.log.len()
    }

    /// Whether no entry is held.
    pub fn is_empty(&self) -> bool
        ensures { IsTrue result ↔ (self.now ≡ []) }
    {
        self.log.is_empty()
    }

    /// Takes entries of a log that are there from `position` on, as an Entries of the wire says.
    /// The work is that of these entries, however many are held.
    ///
    /// Where memory is refused, all that overlaps is as it is held, some are new, and of these the
    /// first ones were taken, or none, and not all. The same call then takes the others.
    pub fn take(&mut self, position: u32, entries: Entries) -> Result<MirrorGrowth, NoMemory>
        requires { position + length entries ≤ 65536 }
        ensures ok { IfOk result (λ taken. Takes self.old position entries taken self.new) }
        ensures err { OnErr result (TakesPart self.old position entries self.new) }
    {
        let held = self.log.len();
        if position > held {
            return Ok(MirrorGrowth::Gap);
        }
        if let Some(at) = self.first_other(position, entries.as_slice()) {
            return Ok(MirrorGrowth::Differs { position: at });
        }
        let known = held - position;
        if entries.as_slice().len() <= known as usize {
            return Ok(MirrorGrowth::Known);
        }
        self.put_all(after_first(entries.into_vec(), known))?;
        Ok(MirrorGrowth::Grew)
    }

    /// The first position at which another entry is given than the one that is held.
    fn first_other(&self, position: u32, entries: &[Entry]) -> Option<u32>
        requires { position + length entries.now ≤ 65536 }
        ensures differs { IfSome result (λ at. DiffersFirst self.now position entries.now at) }
        ensures none { result ≡ None
            → AreHeldBelow (length self.now) self.now position entries.now }
    {
        for place in 0..entries.len() {
            let at = position + place as u32;
            let Some(held) = self.log.entry(at) else {
                return None;
            };
            if *held != entries[place] {
                return Some(at);
            }
        }
        None
    }

    /// Puts the entries after those that are held. Where memory is refused, a front part of them
    /// was put there.
    fn put_all(&mut self, left: VecDeque<Entry>) -> Result<(), NoMemory>
        requires { length self.old + length left.items ≤ 65536 }
        ensures ok { OnOk result (self.new ≡ self.old ++ left.items) }
        ensures err { OnErr result (HoldsPart self.old left.items self.new) }
    {
        let mut left = left;
        while let Some(entry) = left.pop_front() {
            self.put(entry)?;
        }
        Ok(())
    }

    /// Puts an entry after those that are held. What can fail is done first: NoMemory leaves all as
    /// it was.
    fn put(&mut self, entry: Entry) -> Result<(), NoMemory>
        requires { length self.old < 65536 }
        ensures ok { OnOk result (self.new ≡ self.old ++ entry ∷ []) }
        ensures err { OnErr result (self.new ≡ self.old) }
    {
        let Ok(()) = self.log.reserve() else {
            return Err(AllocError);
        };
        self.transcript.take(&entry)?;
        self.log.append(entry);
        Ok(())
    }

    /// The sheet of a round after the first `position` entries: the Regulations' sheet for the
    /// accepted commands up to there. Where these are all that are held, none of them is read.
    ///
    /// Where the position is above the mirror's length, the answer is NotThere; else, where no
    /// accepted command up to the position opened the round, NoSuchRound; else, where memory is
    /// refused, NoMemory.
    pub fn sheet_at(
        &self,
        alloc: Global,
        position: u32,
        event: Event,
        round: u8,
        style: SheetStyle,
    ) -> Result<Vec<u8>, LogSheetFault>
        ensures there { OnOk result (position ≤ length self.now) }
        ensures sheet { IfOk result
            (λ text. sheet_at style self.now position event round ≡ Some text.items) }
        ensures none { IfErr result
            (λ fault. NoSheetAt fault self.now position
            (sheet_at style self.now position event round)) }
    {
        self.transcript
            .sheet_at(alloc, &self.log, position, event, round, style)
    }
}
