//! Who is registered, found by number and by name.

ghost use Rattle.std.specs.Prelude.{◌≡◌, ◌++◌, [], true, OnOk, OnErr, IfOk, option_map};
ghost use Rattle.commands.specs.Accepted.{name_of, is_called, is_registered, is_taken, refusal};
ghost use Rattle.commands.specs.History.{added};
ghost use Rattle.commands.specs.model.Kept.{name_at, AreCompetitors, Notes, IsAsGood};
ghost use Rattle.texts.specs.declared.command.Command.TheVariants as command;

use attempts::NoMemory;
use std::alloc::Global;
use std::collections::HashMap;
use texts::{Code, Command, Name};

/// Where the name of each number is among the accepted commands, and the number to which each name
/// was given last.
#[derive(Drop)]
pub(crate) struct Competitors {
    places: HashMap<u16, usize>,
    holders: HashMap<Vec<u8>, u16>,
}

/// The name that the command at a place gives a number.
fn name_at(accepted: &[Command], number: u16, place: usize) -> Option<&[u8]>
    ensures { option_map (λ name. name.now) result ≡ name_at accepted.now number place }
{
    match accepted.get(place)? {
        Command::Register {
            number: other,
            name,
        } if *other == number => Some(name.as_bytes()),
        Command::Rename {
            number: other,
            name,
        } if *other == number => Some(name.as_bytes()),
        _ => None,
    }
}

impl Competitors {
    /// Nobody is registered.
    pub(crate) fn new(alloc: Global) -> Self
        ensures { AreCompetitors [] result }
    {
        Competitors {
            places: HashMap::new(alloc),
            holders: HashMap::new(alloc),
        }
    }

    /// The name of a number, where it is registered.
    pub(crate) fn name<'a>(&self, accepted: &'a [Command], number: u16) -> Option<&'a [u8]>
        requires { AreCompetitors accepted.now self.now }
        ensures { option_map (λ name. name.now) result ≡ name_of accepted.now number }
    {
        let place = self.places.get(&number)?;
        name_at(accepted, number, *place)
    }

    /// Whether a number is registered.
    pub(crate) fn is_registered(&self, accepted: &[Command], number: u16) -> bool
        requires { AreCompetitors accepted.now self.now }
        ensures { result ≡ is_registered accepted.now number }
    {
        self.name(accepted, number).is_some()
    }

    /// Whether a number has this name.
    fn is_called(&self, accepted: &[Command], number: u16, name: &[u8]) -> bool
        requires { AreCompetitors accepted.now self.now }
        ensures { result ≡ is_called accepted.now number name.now }
    {
        match self.name(accepted, number) {
            Some(other) => name == other,
            None => false,
        }
    }

    /// Whether another number has this name.
    fn is_taken(&self, accepted: &[Command], number: u16, name: &Name) -> bool
        requires { AreCompetitors accepted.now self.now }
        ensures { result ≡ is_taken accepted.now number name.now }
    {
        match self.holders.get(name.as_bytes()) {
            Some(holder) => {
                *holder != number && self.is_called(accepted, *holder, name.as_bytes())
            }
            None => false,
        }
    }

    /// Notes that a number has a name, which the command after the accepted ones gives it. No other
    /// number has it, so that nothing is looked up otherwise where only that is noted.
    fn note(
        &mut self,
        alloc: Global,
        accepted: &[Command],
        number: u16,
        name: &Name,
    ) -> Result<(), NoMemory>
        ensures ok { OnOk result (Notes accepted.now number name.now self.old self.new) }
        ensures err { OnErr result
            (IsAsGood accepted.now number name.now self.old self.new) }
    {
        let copy = Vec::from_slice(alloc, name.as_bytes())?;
        self.holders.insert(copy, number)?;
        self.places.insert(number, accepted.len())?;
        Ok(())
    }

    /// Registers a competitor, or says why not.
    pub(crate) fn register(
        &mut self,
        alloc: Global,
        accepted: &[Command],
        number: u16,
        name: &Name,
    ) -> Result<Option<Code>, NoMemory>
        requires { AreCompetitors accepted.now self.old }
        ensures code { IfOk result
            (λ code. code ≡ refusal accepted.now (command.Register number name.now)) }
        ensures kept { IfOk result (λ code. AreCompetitors
            (accepted.now ++ added code (command.Register number name.now)) self.new) }
        ensures err { OnErr result (AreCompetitors accepted.now self.new) }
    {
        if self.is_registered(accepted, number) {
            return Ok(Some(Code::Already));
        }
        if self.is_taken(accepted, number, name) {
            return Ok(Some(Code::NameTaken));
        }
        self.note(alloc, accepted, number, name)?;
        Ok(None)
    }

    /// Gives a competitor who is registered another name, or says why not.
    pub(crate) fn rename(
        &mut self,
        alloc: Global,
        accepted: &[Command],
        number: u16,
        name: &Name,
    ) -> Result<Option<Code>, NoMemory>
        requires kept { AreCompetitors accepted.now self.old }
        requires known { is_registered accepted.now number ≡ true }
        ensures code { IfOk result
            (λ code. code ≡ refusal accepted.now (command.Rename number name.now)) }
        ensures kept { IfOk result (λ code. AreCompetitors
            (accepted.now ++ added code (command.Rename number name.now)) self.new) }
        ensures err { OnErr result (AreCompetitors accepted.now self.new) }
    {
        if self.is_taken(accepted, number, name) {
            return Ok(Some(Code::NameTaken));
        }
        self.note(alloc, accepted, number, name)?;
        Ok(None)
    }
}
