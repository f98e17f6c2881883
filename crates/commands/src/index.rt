//! What is looked up of the accepted commands: the competitors and the rounds that they make.

ghost use Rattle.std.specs.Prelude.{◌≡◌, ◌≤◌, ◌++◌, [], IfOk, OnErr};
ghost use Rattle.std.specs.Option.{option_copied};
ghost use Rattle.commands.specs.Accepted.{scramble_of, refusal, edition_in};
ghost use Rattle.texts.specs.Spelling.{IsFit, IsFitCutoff};
ghost use Rattle.commands.specs.{History.added, model.Kept.edition_refusal};
ghost use Rattle.commands.specs.model.Kept.{IsIndexOf, competitor_of, is_of_nobody, scramble_at};
ghost use Rattle.texts.specs.declared.command.Command.TheVariants as command;

use crate::competitors::Competitors;
use crate::kept_rounds::{KeptRounds, is_same};
use crate::openings::round_before;
use crate::settings::settings_refusal;
use attempts::NoMemory;
use cube::Move;
use std::alloc::Global;
use texts::{Code, Command, RoundId, Settings};

/// The scramble that the command at a place sets for an attempt.
fn scramble_at(accepted: &[Command], id: RoundId, attempt: u8, place: usize) -> Option<&[Move]>
    ensures { option_copied result
        ≡ scramble_at accepted.now id.event id.round attempt place }
{
    match accepted.get(place)? {
        Command::Scramble {
            id: other,
            attempt: which,
            moves,
        } if is_same(id, *other) && attempt == *which => Some(moves.as_slice()),
        Command::Rescramble {
            id: other,
            attempt: which,
            moves,
        } if is_same(id, *other) && attempt == *which => Some(moves.as_slice()),
        _ => None,
    }
}

/// The competitor whom a command enters, or whose attempts it is of.
fn competitor_of(command: &Command) -> Option<u16>
    ensures { result ≡ competitor_of command.now }
{
    match command {
        Command::Enter { number, .. } => Some(*number),
        Command::Attempt(entry) => Some(entry.number),
        Command::Correct(entry) => Some(entry.number),
        Command::Strike { number, .. } => Some(*number),
        Command::Rename { number, .. } => Some(*number),
        Command::Withdraw { number, .. } => Some(*number),
        Command::Card(card) => Some(card.number),
        Command::Fix(card) => Some(card.number),
        Command::Register { .. }
        | Command::Open { .. }
        | Command::Scramble { .. }
        | Command::SetAdvance { .. }
        | Command::Close { .. }
        | Command::SetEdition { .. }
        | Command::SetRound { .. }
        | Command::Rescramble { .. }
        | Command::Reopen { .. }
        | Command::Cancel { .. } => None,
    }
}

/// Why the edition is not set, where edition `holds` does.
fn edition_refusal(holds: u8, edition: u8) -> Option<Code>
    ensures { result ≡ edition_refusal holds edition }
{
    if edition <= holds {
        Some(Code::Already)
    } else {
        None
    }
}

/// The competitors and the rounds that the accepted commands make.
#[derive(Drop)]
pub(crate) struct Index {
    pub(crate) competitors: Competitors,
    pub(crate) rounds: KeptRounds,
}

impl Index {
    /// Nothing was accepted yet.
    pub(crate) fn new(alloc: Global) -> Self
        ensures { IsIndexOf [] result }
    {
        Index {
            competitors: Competitors::new(alloc),
            rounds: KeptRounds::new(alloc),
        }
    }

    /// Whether a command is of a competitor under whose number nobody is registered.
    fn is_of_nobody(&self, accepted: &[Command], command: &Command) -> bool
        requires { IsIndexOf accepted.now self.now }
        ensures { result ≡ is_of_nobody accepted.now command.now }
    {
        match competitor_of(command) {
            Some(number) => !self.competitors.is_registered(accepted, number),
            None => false,
        }
    }

    /// Opens a round, or says why not.
    fn open(
        &mut self,
        alloc: Global,
        accepted: &[Command],
        id: RoundId,
        settings: Settings,
    ) -> Result<Option<Code>, NoMemory>
        requires index { IsIndexOf accepted.now self.old }
        requires fit { IsFitCutoff settings.cutoff }
        requires round { 1 ≤ id.round }
        ensures code { IfOk result
            (λ code. code ≡ refusal accepted.now (command.Open id settings)) }
        ensures index { IfOk result
            (λ code.
            IsIndexOf (accepted.now ++ added code (command.Open id settings)) self.new) }
        ensures err { OnErr result (IsIndexOf accepted.now self.new) }
    {
        if self.rounds.is_open(id) {
            return Ok(Some(Code::RoundOpen));
        }
        if id.round > 1 && !self.rounds.leads_on(round_before(id)) {
            return Ok(Some(Code::RoundUnknown));
        }
        if let Some(code) = settings_refusal(
            id.event,
            settings.format,
            settings.cutoff,
            settings.limit,
        ) {
            return Ok(Some(code));
        }
        self.rounds.add(alloc, id, settings)?;
        Ok(None)
    }

    /// The scramble of an attempt, where it has one.
    pub(crate) fn scramble_of<'a>(
        &self,
        accepted: &'a [Command],
        id: RoundId,
        attempt: u8,
    ) -> Option<&'a [Move]>
        requires index { IsIndexOf accepted.now self.now }
        requires attempt { 1 ≤ attempt }
        ensures { option_copied result
            ≡ scramble_of accepted.now id.event id.round attempt }
    {
        let place = self.rounds.scramble(id, attempt)?;
        scramble_at(accepted, id, attempt, place)
    }

    /// Does a command that will be after the accepted ones, or says why not, where edition `holds`
    /// does.
    #[tactic(auto, using(crate::proofs::Units::units), unfolding(texts::specs::Table::rows))]
    pub(crate) fn apply(
        &mut self,
        alloc: Global,
        accepted: &[Command],
        holds: u8,
        command: &Command,
    ) -> Result<Option<Code>, NoMemory>
        requires index { IsIndexOf accepted.now self.old }
        requires holds { holds ≡ edition_in accepted.now }
        requires command { IsFit command.now }
        ensures code { IfOk result (λ code. code ≡ refusal accepted.now command.now) }
        ensures index { IfOk result
            (λ code. IsIndexOf (accepted.now ++ added code command.now) self.new) }
        ensures err { OnErr result (IsIndexOf accepted.now self.new) }
    {
        if self.is_of_nobody(accepted, command) {
            return Ok(Some(Code::UnknownCompetitor));
        }
        match command {
            Command::Register { number, name } => {
                self.competitors.register(alloc, accepted, *number, name)
            }
            Command::Open { id, settings } => self.open(alloc, accepted, *id, *settings),
            Command::Enter { event, number } => self.rounds.enter(*event, *number),
            Command::Scramble { id, attempt, .. } => {
                let there = self.scramble_of(accepted, *id, *attempt);
                Ok(
                    self.rounds
                        .add_scramble(*id, *attempt, there, accepted.len()),
                )
            }
            Command::Attempt(entry) => {
                let scramble = self.scramble_of(accepted, entry.id, entry.attempt);
                self.rounds.put(entry, scramble)
            }
            Command::Correct(entry) => {
                let scramble = self.scramble_of(accepted, entry.id, entry.attempt);
                self.rounds.correct(entry, scramble)
            }
            Command::Strike { id, number } => Ok(self.rounds.strike(*id, *number)),
            Command::SetAdvance { id, advance } => Ok(self.rounds.set_advance(*id, *advance)),
            Command::Close { id } => Ok(self.rounds.close(*id)),
            Command::SetEdition { edition } => Ok(edition_refusal(holds, *edition)),
            Command::Rename { number, name } => {
                self.competitors.rename(alloc, accepted, *number, name)
            }
            Command::SetRound {
                id,
                format,
                cutoff,
                limit,
            } => Ok(self.rounds.set_round(*id, *format, *cutoff, *limit)),
            Command::Rescramble { id, attempt, .. } => {
                let there = self.scramble_of(accepted, *id, *attempt);
                self.rounds.rescramble(*id, *attempt, there, accepted.len())
            }
            Command::Withdraw { id, number } => self.rounds.withdraw(*id, *number),
            Command::Reopen { id } => Ok(self.rounds.reopen(*id)),
            Command::Card(card) => self.card(alloc, accepted, card),
            Command::Fix(card) => self.fix(alloc, accepted, card),
            Command::Cancel { id } => Ok(self.rounds.cancel(*id)),
        }
    }
}
