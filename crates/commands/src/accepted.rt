//! The accepted commands, with what is looked up of them.

ghost use Rattle.std.specs.Prelude.{◌≡◌, ◌≤◌, ◌++◌, [], IfOk, OnOk, OnErr, option_map, unwrap_or};
ghost use Rattle.commands.specs.Accepted.{name_of, round_of, refusal, edition_set, edition_in};
ghost use Rattle.commands.specs.Accepted.{scramble_of, advanced_of, competitors_seen};
ghost use Rattle.texts.specs.Spelling.{IsFit, IsFitTold};
ghost use Rattle.commands.specs.History.{answer_of, added, spelled_refusal};

use crate::index::Index;
use attempts::NoMemory;
use cube::Move;
use rounds::RoundTable;
use std::alloc::Global;
use std::marker::Model;
use texts::{Answer, Code, Command, RemarkedCommand, RoundId, Settings, is_spelled_in};

/// The accepted commands in order, with what is looked up of them, and the edition that holds.
#[derive(Drop)]
pub(crate) struct AcceptedCommands {
    accepted: Vec<Command>,
    index: Index,
    edition: u8,
}

impl Model for AcceptedCommands {
    ghost use Rattle.std.specs.Prelude.{List};
    ghost use Rattle.texts.specs.declared.command.Command.{Command};
    ghost use Rattle.commands.specs.model.Kept.{IsAccepted};

    ghost Value = { List Command };

    ghost view = { λ b. b.accepted.items };

    ghost invariant = { λ b. IsAccepted b.accepted.items b.index b.edition };
}

/// The edition that holds after one more command.
fn edition_after(edition: u8, command: &Command) -> u8
    ensures { result ≡ unwrap_or (edition_set command.now) edition }
{
    match command {
        Command::SetEdition { edition } => *edition,
        _ => edition,
    }
}

impl AcceptedCommands {
    /// No command is accepted yet.
    #[tactic(auto, using(crate::proofs::Editions::acceptances))]
    pub(crate) fn new(alloc: Global) -> Self
        ensures { result ≡ [] }
    {
        AcceptedCommands {
            accepted: Vec::new(alloc),
            index: Index::new(alloc),
            edition: 1,
        }
    }

    /// The edition that holds.
    pub(crate) fn edition(&self) -> u8
        ensures { result ≡ edition_in self.now }
    {
        self.edition
    }

    /// Does what a text spells, whatever its remark says, or says why not: what the edition that
    /// holds has no spelling of is `Unread`.
    pub(crate) fn apply(&mut self, alloc: Global, told: RemarkedCommand) -> Result<Answer, NoMemory>
        requires { IsFitTold told }
        ensures answer { IfOk result (λ a. a ≡ answer_of (spelled_refusal self.old told)) }
        ensures added { OnOk result
            (self.new ≡ self.old ++ added (spelled_refusal self.old told) told.command) }
        ensures err { OnErr result (self.new ≡ self.old) }
    {
        if !is_spelled_in(self.edition(), &told) {
            return Ok(Answer::Refused(Code::Unread));
        }
        let RemarkedCommand { command, .. } = told;
        self.do_command(alloc, command)
    }

    /// Does a command, or says why not.
    #[tactic(auto, using(crate::proofs::Editions::acceptances))]
    fn do_command(&mut self, alloc: Global, command: Command) -> Result<Answer, NoMemory>
        requires { IsFit command }
        ensures answer { IfOk result (λ a. a ≡ answer_of (refusal self.old command)) }
        ensures added { OnOk result
            (self.new ≡ self.old ++ added (refusal self.old command) command) }
        ensures err { OnErr result (self.new ≡ self.old) }
    {
        self.accepted.reserve(1)?;
        match self
            .index
            .apply(alloc, &self.accepted, self.edition, &command)?
        {
            None => {
                self.edition = edition_after(self.edition, &command);
                self.accepted.push(command).unwrap();
                Ok(Answer::Done)
            }
            Some(code) => Ok(Answer::Refused(code)),
        }
    }

    /// The name of a competitor.
    pub(crate) fn name(&self, number: u16) -> Option<&[u8]>
        ensures { option_map (λ s. s.now) result ≡ name_of self.now number }
    {
        self.index.competitors.name(&self.accepted, number)
    }

    /// The table of a round.
    pub(crate) fn round(&self, id: RoundId) -> Option<&RoundTable>
        ensures { option_map (λ t. t.now) result
            ≡ option_map (λ r. r.1) (round_of self.now id.event id.round) }
    {
        self.index.rounds.table(id)
    }

    /// The settings of a round.
    pub(crate) fn settings(&self, id: RoundId) -> Option<Settings>
        ensures { result ≡ option_map (λ r. r.0) (round_of self.now id.event id.round) }
    {
        self.index.rounds.settings(id)
    }

    /// How many competitors a round has, as the next one sees it.
    #[tactic(auto, using(crate::proofs::Seen::sightings))]
    pub(crate) fn competitors(&self, id: RoundId) -> u16
        ensures { result ≡ competitors_seen self.now id.event id.round }
    {
        self.index.rounds.competitors(id)
    }

    /// Those who advanced from a round when the next one was opened, if it was.
    #[tactic(auto, using(crate::proofs::Seen::sightings))]
    pub(crate) fn advanced(&self, id: RoundId) -> Option<&[u16]>
        ensures { option_map (λ numbers. numbers.now) result
            ≡ advanced_of self.now id.event id.round }
    {
        self.index.rounds.advanced(id)
    }

    /// The scramble of an attempt, where it has one.
    pub(crate) fn scramble(&self, id: RoundId, attempt: u8) -> Option<&[Move]>
        requires { 1 ≤ attempt }
        ensures { option_map (λ moves. moves.now) result
            ≡ scramble_of self.now id.event id.round attempt }
    {
        self.index.scramble_of(&self.accepted, id, attempt)
    }
}
