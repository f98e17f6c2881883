//! A competition, as the list of its entries makes it.

ghost use Rattle.std.specs.Prelude.{◌≡◌, ◌≤◌, ◌++◌, ◌∷◌, [], List, ℕ, true, Ok, IfOk, OnOk, OnErr};
ghost use Rattle.std.specs.Prelude.{option_map};
ghost use Rattle.commands.specs.History.{is_seen, answer_to, answer_of, added_read, read_refusal};
ghost use Rattle.commands.specs.History.{after, nothing, StandsFor};
ghost use Rattle.texts.specs.Reading.{command_of};
ghost use Rattle.commands.specs.Accepted.{name_of, round_of, scramble_of, edition_in};
ghost use Rattle.commands.specs.Accepted.{advanced_of, competitors_seen};

use crate::accepted::AcceptedCommands;
use attempts::NoMemory;
use cube::Move;
use formats::Event;
use indexmap::IndexSet;
use rounds::RoundTable;
use std::alloc::{AllocError, Global};
use std::marker::Model;
use texts::{Answer, Code, CommandFault, RoundId, Settings, read};

/// What a list of entries comes to: the ids seen so far, and the accepted commands.
///
/// An entry is an id and a command text. Contracts see a `Meet` as its `History`, and a history
/// stands for a list of entries where it is what they come to, taken one after the other.
#[derive(Drop)]
pub struct Meet {
    alloc: Global,
    ids: IndexSet<u64>,
    accepted: AcceptedCommands,
}

impl Model for Meet {
    ghost use Rattle.commands.specs.History.{History};

    ghost Value = { History };

    ghost view = { λ m. record { ids = m.ids.keys; accepted = m.accepted } };
}

/// Does the command of a text, or says why not.
fn do_text(accepted: &mut AcceptedCommands, alloc: Global, text: &[u8]) -> Result<Answer, NoMemory>
    ensures answer { IfOk result
        (λ answer. answer ≡ answer_of (read_refusal accepted.old (command_of text.now))) }
    ensures added { OnOk result
        (accepted.new
        ≡ accepted.old ++ added_read (read_refusal accepted.old (command_of text.now))
        (command_of text.now)) }
    ensures err { OnErr result (accepted.new ≡ accepted.old) }
{
    match read(alloc, text) {
        Ok(command) => accepted.apply(alloc, command),
        Err(CommandFault::NoMemory) => Err(AllocError),
        Err(CommandFault::TooLong | CommandFault::NotACommand | CommandFault::BadField { .. }) =>
            Ok(Answer::Refused(Code::Unread)),
    }
}

impl Meet {
    /// A competition before any entry.
    pub fn new(alloc: Global) -> Result<Self, NoMemory>
        ensures value { IfOk result (λ meet. meet ≡ nothing) }
        ensures stands { IfOk result (λ meet. StandsFor meet []) }
    {
        Ok(Meet {
            alloc,
            ids: IndexSet::new(alloc),
            accepted: AcceptedCommands::new(alloc),
        })
    }

    /// Takes one more entry, and says what its command is answered: `Repeat` where the id was seen
    /// before, `Unread` where the text is not a command of this edition, else the first
    /// check of the command that fails, or `Done`.
    ///
    /// A refused entry adds its id to those seen and changes nothing else. At `NoMemory` nothing
    /// changes at all.
    #[tactic(auto, unfolding(crate::specs::History::after_in, crate::specs::History::entry_refusal_in))]
    pub fn apply(&mut self, id: u64, text: &[u8]) -> Result<Answer, NoMemory>
        ensures answer { IfOk result (λ answer. answer ≡ answer_to self.old id text.now) }
        ensures after { OnOk result (self.new ≡ after self.old id text.now) }
        ensures err { OnErr result (self.new ≡ self.old) }
        // Memory is taken for an id that is new, and for no other.
        ensures repeat { is_seen self.old id ≡ true → result ≡ Ok (Answer.Refused Code.Repeat) }

        // Whatever list of entries the meet stands for, it then stands for that list and this
        // entry.
        ensures stands { OnOk result
            ((entries : List (ℕ × List ℕ)) → StandsFor self.old entries
            → StandsFor self.new (entries ++ (id, text.now) ∷ [])) }
    {
        if self.ids.contains(&id) {
            return Ok(Answer::Refused(Code::Repeat));
        }
        self.ids.reserve(1)?;
        let answer = do_text(&mut self.accepted, self.alloc, text)?;
        self.ids.insert(id).unwrap();
        Ok(answer)
    }

    /// The edition of the commands that holds: 1, then 2 to 4 once one of `EDITION 2` to
    /// `EDITION 4` is accepted. What an edition has no spelling of is no command while it holds.
    pub fn edition(&self) -> u8
        ensures { result ≡ edition_in self.now.accepted }
    {
        self.accepted.edition()
    }

    /// The name of a competitor, 1 to 160 bytes of UTF-8, where the number is registered: the last
    /// that it was given.
    pub fn name(&self, number: u16) -> Option<&[u8]>
        ensures { option_map (λ name. name.now) result ≡ name_of self.now.accepted number }
    {
        self.accepted.name(number)
    }

    /// The table of a round, where it was opened.
    pub fn round(&self, event: Event, round: u8) -> Option<&RoundTable>
        ensures { option_map (λ table. table.now) result
            ≡ option_map (λ r. r.1) (round_of self.now.accepted event round) }
    {
        self.accepted.round(RoundId { event, round })
    }

    /// The settings of a round as they are now, where it was opened.
    pub fn settings(&self, event: Event, round: u8) -> Option<Settings>
        ensures { result ≡ option_map (λ r. r.0) (round_of self.now.accepted event round) }
    {
        self.accepted.settings(RoundId { event, round })
    }

    /// How many competitors a round has, entrants with an attempt that is not DNS: when the next
    /// one was opened, where it is. 0 where the round itself is not opened.
    pub fn competitors(&self, event: Event, round: u8) -> u16
        ensures { result ≡ competitors_seen self.now.accepted event round }
    {
        self.accepted.competitors(RoundId { event, round })
    }

    /// Those who advanced from a round when the next one was opened, in order of the standings
    /// then; none where the next one is not opened.
    pub fn advanced(&self, event: Event, round: u8) -> Option<&[u16]>
        ensures { option_map (λ numbers. numbers.now) result
            ≡ advanced_of self.now.accepted event round }
    {
        self.accepted.advanced(RoundId { event, round })
    }

    /// The scramble of an attempt of a round, where one was set since the round was opened: the
    /// last one. Attempts are counted from 1.
    pub fn scramble(&self, event: Event, round: u8, attempt: u8) -> Option<&[Move]>
        requires { 1 ≤ attempt }
        ensures { option_map (λ moves. moves.now) result
            ≡ scramble_of self.now.accepted event round attempt }
    {
        self.accepted.scramble(RoundId { event, round }, attempt)
    }
}
