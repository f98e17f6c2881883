//! Events and formats: their names and numbers, and which format an event may have.

ghost use Rattle.std.specs.Prelude.{◌≡◌, ◌≤◌, ◌↔◌, ℕ, List, Some, IsTrue};
ghost use Rattle.formats.specs.Events.{event_name, event_of_name, event_number, event_of_number};
ghost use Rattle.formats.specs.Events.{event_edition, format_name, format_named, attempts_of};
ghost use Rattle.formats.specs.{Events.unit_of, Events.is_allowed, Results.IsFormatOf};

use attempts::Unit;

/// The last round that an event may have (WCA Regulations, article 9m).
pub const LAST_ROUND: u8 = 4;

/// An event of the WCA Regulations, in the order of their numbers.
#[derive(Clone, Copy, Debug, PartialEq, Eq)]
pub enum Event {
    Cube3,
    Cube2,
    Cube4,
    Cube5,
    Cube6,
    Cube7,
    Blind3,
    FewestMoves,
    OneHanded,
    Clock,
    Megaminx,
    Pyraminx,
    Skewb,
    Square1,
    Blind4,
    Blind5,
    /// 3x3x3 multi-blind, an event of edition 2.
    MultiBlind,
}

/// How many attempts a round has, and what counts of them (WCA Regulations, article 9b).
#[derive(Clone, Copy, Debug, PartialEq, Eq)]
pub enum Format {
    /// Average of five.
    Ao5,
    /// Mean of three.
    Mo3,
    /// Best of one.
    Bo1,
    /// Best of two.
    Bo2,
    /// Best of three.
    Bo3,
}

impl Event {
    /// All events, in the order of their numbers: those of edition 1, and `333mbf` of edition 2.
    pub const ALL: [Event; 17] = [
        Event::Cube3,
        Event::Cube2,
        Event::Cube4,
        Event::Cube5,
        Event::Cube6,
        Event::Cube7,
        Event::Blind3,
        Event::FewestMoves,
        Event::OneHanded,
        Event::Clock,
        Event::Megaminx,
        Event::Pyraminx,
        Event::Skewb,
        Event::Square1,
        Event::Blind4,
        Event::Blind5,
        Event::MultiBlind,
    ];

    /// The event of a name, as `333bf`. None where no event has the name.
    #[tactic(auto, unfolding(crate::specs::Events::event_of_name))]
    pub fn from_name(name: &[u8]) -> Option<Event>
        ensures { result ≡ event_of_name name.now }
    {
        Event::ALL
            .iter()
            .copied()
            .find(|event| event.name().as_bytes() == name)
    }

    /// The event of a number, 1 to 17. None at any other number.
    #[tactic(auto, unfolding(crate::specs::Events::event_of_number))]
    pub fn from_number(number: u8) -> Option<Event>
        ensures { result ≡ event_of_number number }
    {
        Event::ALL
            .iter()
            .copied()
            .find(|event| event.number() == number)
    }

    /// The first edition that has the event: 2 for `333mbf`, and 1 for the others.
    pub fn edition(self) -> u8
        ensures { result ≡ event_edition self }
    {
        match self {
            Event::MultiBlind => 2,
            _ => 1,
        }
    }

    /// 1 to 17, in the order of the list. No other number is the event's.
    #[tactic(auto, using(crate::proofs::Naming::event_numbers))]
    pub fn number(self) -> u8
        ensures value { result ≡ event_number self }
        ensures only { (number : ℕ) → (event_of_number number ≡ Some self)
            ↔ (number ≡ event_number self) }
    {
        match self {
            Event::Cube3 => 1,
            Event::Cube2 => 2,
            Event::Cube4 => 3,
            Event::Cube5 => 4,
            Event::Cube6 => 5,
            Event::Cube7 => 6,
            Event::Blind3 => 7,
            Event::FewestMoves => 8,
            Event::OneHanded => 9,
            Event::Clock => 10,
            Event::Megaminx => 11,
            Event::Pyraminx => 12,
            Event::Skewb => 13,
            Event::Square1 => 14,
            Event::Blind4 => 15,
            Event::Blind5 => 16,
            Event::MultiBlind => 17,
        }
    }

    /// The name in commands and on sheets. No other text names the event.
    #[tactic(auto, using(crate::proofs::Naming::event_names))]
    pub fn name(self) -> &'static str
        ensures value { result.now ≡ event_name self }
        ensures only { (text : List ℕ) → (event_of_name text ≡ Some self)
            ↔ (text ≡ event_name self) }
    {
        match self {
            Event::Cube3 => "333",
            Event::Cube2 => "222",
            Event::Cube4 => "444",
            Event::Cube5 => "555",
            Event::Cube6 => "666",
            Event::Cube7 => "777",
            Event::Blind3 => "333bf",
            Event::FewestMoves => "333fm",
            Event::OneHanded => "333oh",
            Event::Clock => "clock",
            Event::Megaminx => "minx",
            Event::Pyraminx => "pyram",
            Event::Skewb => "skewb",
            Event::Square1 => "sq1",
            Event::Blind4 => "444bf",
            Event::Blind5 => "555bf",
            Event::MultiBlind => "333mbf",
        }
    }
}

impl Format {
    /// All formats.
    pub const ALL: [Format; 5] = [
        Format::Ao5,
        Format::Mo3,
        Format::Bo1,
        Format::Bo2,
        Format::Bo3,
    ];

    /// The format of a name, as `ao5`. None where no format has the name.
    #[tactic(auto, unfolding(crate::specs::Events::format_named))]
    pub fn from_name(name: &[u8]) -> Option<Format>
        ensures { result ≡ format_named name.now }
    {
        Format::ALL
            .iter()
            .copied()
            .find(|format| format.name().as_bytes() == name)
    }

    /// The name in commands and on sheets. No other text names the format.
    #[tactic(auto, using(crate::proofs::Naming::format_names))]
    pub fn name(self) -> &'static str
        ensures value { result.now ≡ format_name self }
        ensures only { (text : List ℕ) → (format_named text ≡ Some self)
            ↔ (text ≡ format_name self) }
    {
        match self {
            Format::Ao5 => "ao5",
            Format::Mo3 => "mo3",
            Format::Bo1 => "bo1",
            Format::Bo2 => "bo2",
            Format::Bo3 => "bo3",
        }
    }
}

/// How many attempts a round of this format has.
pub fn attempts_of(format: Format) -> u8
    ensures value { result ≡ attempts_of format }
    ensures few { result ≤ 5 }
{
    match format {
        Format::Ao5 => 5,
        Format::Mo3 | Format::Bo3 => 3,
        Format::Bo1 => 1,
        Format::Bo2 => 2,
    }
}

/// What the numbers of an event count.
pub fn unit_of(event: Event) -> Unit
    ensures { result ≡ unit_of event }
{
    match event {
        Event::FewestMoves => Unit::Moves,
        Event::MultiBlind => Unit::Multi,
        _ => Unit::Time,
    }
}

/// Whether an event may have a format.
pub fn allowed(event: Event, format: Format) -> bool
    ensures value { result ≡ is_allowed event format }
    ensures unit { IsTrue result → IsFormatOf (unit_of event) format }
{
    match event {
        Event::Cube6 | Event::Cube7 | Event::FewestMoves => {
            matches!(format, Format::Mo3 | Format::Bo1 | Format::Bo2)
        }
        Event::Blind3 | Event::Blind4 | Event::Blind5 | Event::MultiBlind => {
            matches!(format, Format::Bo1 | Format::Bo2 | Format::Bo3)
        }
        _ => !matches!(format, Format::Mo3),
    }
}
