//! A meet, and each name that its commands gave a number.

ghost use Rattle.std.specs.Prelude.{◌≡◌, ◌<◌, ◌++◌, IfOk, OnOk, option_to_list, vec_capacity};
ghost use Rattle.std.specs.Prelude.{vec_len};
ghost use Rattle.commands.specs.History.{after, answer_to, nothing};
ghost use Rattle.texts.specs.Reading.{command_of};
ghost use Rattle.wcif_results.specs.Names.{kept, naming, naming_read, names_given};

use attempts::NoMemory;
use commands::Meet;
use std::alloc::{AllocError, Global};
use std::marker::Model;
use texts::{Answer, Command, CommandFault, Name, read};

/// A name that a number was given by `REG` or `REN`.
#[derive(Drop)]
pub struct GivenName {
    pub number: u16,
    pub name: Name,
}

/// A meet, and each name that a number was given in it, in order. Contracts see it as the meet.
#[derive(Drop)]
pub struct NamedMeet {
    alloc: Global,
    meet: Meet,
    given: Vec<GivenName>,
}

impl Model for NamedMeet {
    ghost use Rattle.std.specs.Prelude.{◌≡◌};
    ghost use Rattle.commands.specs.History.{History};
    ghost use Rattle.wcif_results.specs.Names.{names_given as all_given};

    ghost Value = { History };

    ghost view = { λ m. m.meet };

    ghost invariant = { λ m. m.given.items ≡ all_given m.meet.accepted };
}

/// The name that a command gives.
fn given_by(command: Command) -> Option<GivenName>
    ensures { option_to_list result ≡ naming command }
{
    match command {
        Command::Register { number, name } => Some(GivenName { number, name }),
        Command::Rename { number, name } => Some(GivenName { number, name }),
        _ => None,
    }
}

/// The name that the command of a text gives.
fn given_in(alloc: Global, text: &[u8]) -> Result<Option<GivenName>, NoMemory>
    ensures { IfOk result (λ given. option_to_list given ≡ naming_read (command_of text.now)) }
{
    match read(alloc, text) {
        Ok(told) => Ok(given_by(told.command)),
        Err(CommandFault::NoMemory) => Err(AllocError),
        Err(CommandFault::TooLong | CommandFault::NotACommand | CommandFault::BadField { .. }) =>
            Ok(None),
    }
}

/// Keeps a name, where there is one and its entry is done.
fn keep(given: &mut Vec<GivenName>, answer: Answer, name: Option<GivenName>)
    requires { vec_len given.old < vec_capacity given.old }
    ensures { given.new.items ≡ given.old.items ++ kept answer name }
{
    match answer {
        Answer::Refused(_) => {}
        Answer::Done => match name {
            Some(name) => given.push_reserved(name),
            None => {}
        },
    }
}

impl NamedMeet {
    /// A competition before any entry.
    pub fn new(alloc: Global) -> Result<Self, NoMemory>
        ensures { IfOk result (λ meet. meet ≡ nothing) }
    {
        let meet = Meet::new(alloc)?;
        Ok(NamedMeet {
            alloc,
            meet,
            given: Vec::new(alloc),
        })
    }

    /// Takes one more entry, and says what it is answered, as [`Meet::apply`]. The name that it
    /// gives is kept where it is done.
    pub fn apply(&mut self, id: u64, text: &[u8]) -> Result<Answer, NoMemory>
        ensures answer { IfOk result (λ answer. answer ≡ answer_to self.old id text.now) }
        ensures after { OnOk result (self.new ≡ after self.old id text.now) }
    {
        let name = given_in(self.alloc, text)?;
        self.given.reserve(1)?;
        let answer = self.meet.apply(id, text)?;
        keep(&mut self.given, answer, name);
        Ok(answer)
    }

    /// The meet.
    pub fn meet(&self) -> &Meet
        ensures { result.now ≡ self.now }
    {
        &self.meet
    }

    /// Each name that a number was given.
    pub fn given(&self) -> &[GivenName]
        ensures { result.now ≡ names_given self.now.accepted }
    {
        &self.given
    }
}
