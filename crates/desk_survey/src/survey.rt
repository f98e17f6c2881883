//! The survey of one desk.

ghost use Rattle.std.specs.Prelude.{◌≡◌, ◌≤◌};
ghost use Rattle.desk_talks.specs.KeptConnections.{unsent_by, wait_of};
ghost use Rattle.desk_survey.specs.Surveys.{Asks, Follows, is_earlier, lost, new_survey, question};
ghost use Rattle.desk_survey.specs.Surveys.{speaks_five};
ghost use Rattle.wire.specs.Ranges.{IsDesk, IsFrame};

use client::{status_request, status_request_in_five};
use desk_talks::{
    AnswerOutcome, ConnectionPhase, ConnectionStage, Dialogue, DialogueAction, DueAction,
    KeptConnection, ReceiveOutcome,
};
use std::alloc::Global;
use std::marker::Model;
use wire::{ClientRefusal, DeskStatus, Frame, FrameBody};

/// Whether a desk answers.
#[derive(Clone, Copy, PartialEq, Eq, Debug)]
pub enum Reachability {
    /// Nothing has come of asking it yet.
    NotAsked,
    /// It said how it is when it was asked last.
    Answers,
    /// No connection could be opened, or it was lost, or for two seconds no answer came.
    Silent,
    /// It refused when it was asked last.
    Refuses(ClientRefusal),
}

/// What a desk said.
#[derive(Clone, Copy, PartialEq, Eq, Debug)]
pub struct SurveyAnswer {
    /// How it is.
    pub standing: DeskStatus,
    /// When it said so, in milliseconds.
    pub at: u64,
}

/// Asks one desk of a hall how it is, four times a second, over a connection that is kept. Where a
/// connection isn't open or a question isn't answered in two seconds, it is closed and opened
/// again. Its caller does what the survey wants over one connection (`desk_talks::Dialogue`).
///
/// A contract sees the number of the hall and of the desk, the connection, what the desk said last,
/// whether it answers, and whether it is asked as one of an earlier program.
#[derive(Drop)]
pub struct Survey {
    hall: u32,
    desk: u8,
    line: KeptConnection,
    told: Option<SurveyAnswer>,
    contact: Reachability,
    /// Whether it is asked in version 3 of the wire, since the connection over which it was asked
    /// in version 5 was lost with no answer: it may be of an earlier program.
    earlier: bool,
}

impl Model for Survey {
    ghost use Rattle.desk_survey.specs.Surveys.{SurveyOf, survey};
    ghost use Rattle.wire.specs.Ranges.{IsDesk};

    ghost Value = { SurveyOf };

    ghost view = { λ s. survey s.hall s.desk s.line s.told s.contact s.earlier };

    ghost invariant = { λ s. IsDesk s.desk };
}

impl Survey {
    /// A survey of the desk with this number, 1 to 5, that was not asked yet.
    pub fn new(alloc: Global, hall: u32, desk: u8) -> Survey
        requires { IsDesk desk }
        ensures { result ≡ new_survey hall desk }
    {
        Survey {
            hall,
            desk,
            line: KeptConnection::new(alloc),
            told: None,
            contact: Reachability::NotAsked,
            earlier: false,
        }
    }

    /// The number of the desk, 1 to 5.
    pub fn desk(&self) -> u8
        ensures desk { result ≡ self.now.desk }
        ensures in_range { IsDesk result }
    {
        self.desk
    }

    /// What the desk said last, and when. None: it has not said how it is.
    pub fn told(&self) -> Option<SurveyAnswer>
        ensures { result ≡ self.now.told }
    {
        self.told
    }

    /// Whether the desk answers now.
    pub fn contact(&self) -> Reachability
        ensures { result ≡ self.now.contact }
    {
        self.contact
    }

    /// Whether it answers now in version 5 of the wire.
    pub fn speaks_five(&self) -> bool
        ensures { result ≡ speaks_five self.now }
    {
        matches!(self.contact, Reachability::Answers) && !self.earlier
    }

    /// In how many milliseconds something is to be done, if nothing comes: 0 where something is to
    /// be done already.
    pub fn wait(&self, now: u64) -> u64
        ensures { result ≡ wait_of self.now.line now }
    {
        self.line.wait(now)
    }

    /// How the desk is asked how it is.
    fn question(&self) -> Frame
        ensures question { result ≡ question self.now }
        ensures spelled { IsFrame result }
    {
        if self.earlier {
            status_request(self.hall, self.desk)
        } else {
            status_request_in_five(self.hall, self.desk)
        }
    }

    /// Asks the desk how it is.
    fn ask(&mut self, now: u64) -> DialogueAction
        ensures { Asks result now self.old self.new }
    {
        let question = self.question();
        if self.line.ask(now, question) {
            return DialogueAction::Write;
        }
        self.contact = Reachability::Silent;
        DialogueAction::Close
    }

    /// Whether the desk is to be asked in version 3 over the next connection, where this one is
    /// lost: a desk of an earlier program ends one over which it is asked in version 5. One that
    /// answers is asked on in the same version.
    fn is_earlier(&self) -> bool
        ensures { result ≡ is_earlier self.now }
    {
        if matches!(self.contact, Reachability::Answers) {
            return self.earlier;
        }
        !self.earlier && matches!(self.line.stage(), ConnectionStage::Asked { .. })
    }

    /// Does what follows of what the desk's bytes came to.
    fn follow(&mut self, now: u64, heard: AnswerOutcome) -> ReceiveOutcome
        ensures { Follows heard result now self.old self.new }
    {
        match heard {
            AnswerOutcome::Waits => ReceiveOutcome::Nothing,
            AnswerOutcome::Answer(FrameBody::Standing { standing }) => {
                self.told = Some(SurveyAnswer { standing, at: now });
                self.contact = Reachability::Answers;
                ReceiveOutcome::Answer { changed: true }
            }
            AnswerOutcome::Refused(refusal) => {
                self.contact = Reachability::Refuses(refusal);
                ReceiveOutcome::Answer { changed: false }
            }
            _ => {
                self.lost(false);
                ReceiveOutcome::NoAnswer
            }
        }
    }
}

impl Dialogue for Survey {
    ghost use Rattle.std.specs.Prelude.{◌≡◌};
    ghost use Rattle.desk_talks.specs.KeptConnections.{phase_of};
    ghost use Rattle.std.specs.Prelude.{Option};
    ghost use Rattle.desk_survey.specs.Surveys.{DialogueLeads, held};
    ghost use Rattle.desk_survey.specs.declared.survey.SurveyAnswer.{SurveyAnswer as ToldOf};

    ghost Held = { Option ToldOf };

    // What the desk said last.
    ghost held = { held };

    ghost leads = { DialogueLeads };

    ghost phase = { λ s. phase_of s.line.stage };

    ghost output = { λ s. unsent_by s.line.talking };

    fn act(&mut self, now: u64) -> DialogueAction {
        match self.line.due(now) {
            DueAction::Rest => DialogueAction::Rest,
            DueAction::Open => {
                self.line.open(now);
                DialogueAction::Open { desk: self.desk }
            }
            DueAction::Ask => self.ask(now),
            DueAction::Close => {
                self.lost(false);
                DialogueAction::Close
            }
            DueAction::Renew => {
                self.line.close();
                DialogueAction::Close
            }
        }
    }

    fn phase(&self) -> ConnectionPhase {
        self.line.phase()
    }

    fn opened(&mut self) -> bool {
        let opened = self.line.opened();
        if !opened {
            self.contact = Reachability::Silent;
        }
        opened
    }

    fn lost(&mut self, _ended: bool)
        ensures { self.new ≡ lost self.old }
    {
        self.earlier = self.is_earlier();
        self.line.close();
        self.contact = Reachability::Silent;
    }

    fn output(&self) -> &[u8] {
        self.line.output()
    }

    fn sent(&mut self, count: usize) {
        self.line.sent(count);
    }

    fn hear(&mut self, now: u64, piece: &[u8]) -> ReceiveOutcome {
        let heard = self.line.hear(piece);
        self.follow(now, heard)
    }
}
