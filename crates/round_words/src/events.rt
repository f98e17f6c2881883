//! The names of events and rounds.

ghost use Rattle.std.specs.Prelude.{◌≡◌, ◌++◌, OnOk};
ghost use Rattle.round_words.specs.Words.{event_words, round_name, round_part, round_words};

use attempts::{NoMemory, push_decimal};
use formats::{Advance, Event};
use texts::RoundId;

/// The name of an event (WCA Regulations, article 9b).
pub fn event_words(event: Event) -> &'static str
    ensures { result.now ≡ event_words event }
{
    match event {
        Event::Cube3 => "3x3x3 Cube",
        Event::Cube2 => "2x2x2 Cube",
        Event::Cube4 => "4x4x4 Cube",
        Event::Cube5 => "5x5x5 Cube",
        Event::Cube6 => "6x6x6 Cube",
        Event::Cube7 => "7x7x7 Cube",
        Event::Blind3 => "3x3x3 Blindfolded",
        Event::FewestMoves => "3x3x3 Fewest Moves",
        Event::OneHanded => "3x3x3 One-Handed",
        Event::Clock => "Clock",
        Event::Megaminx => "Megaminx",
        Event::Pyraminx => "Pyraminx",
        Event::Skewb => "Skewb",
        Event::Square1 => "Square-1",
        Event::Blind4 => "4x4x4 Blindfolded",
        Event::Blind5 => "5x5x5 Blindfolded",
        Event::MultiBlind => "3x3x3 Multi-Blind",
    }
}

/// Adds what pages refer to a round by, as `333-1`.
pub fn push_round_name(out: &mut Vec<u8>, id: RoundId) -> Result<(), NoMemory>
    ensures { OnOk result (out.new.items ≡ out.old.items ++ round_name id) }
{
    out.extend_from_slice(id.event.name().as_bytes())?;
    out.extend_from_slice(b"-")?;
    push_decimal(out, u32::from(id.round))
}

fn push_round_part(out: &mut Vec<u8>, round: u8, advance: Advance) -> Result<(), NoMemory>
    ensures { OnOk result (out.new.items ≡ out.old.items ++ round_part round advance) }
{
    match advance {
        Advance::Final => out.extend_from_slice(b"Final"),
        Advance::Top(_) | Advance::Percent(_) => {
            out.extend_from_slice(b"Round ")?;
            push_decimal(out, u32::from(round))
        }
    }
}

/// Adds a round, as `3x3x3 Cube, Round 1`.
pub fn push_round_words(out: &mut Vec<u8>, id: RoundId, advance: Advance) -> Result<(), NoMemory>
    ensures { OnOk result (out.new.items ≡ out.old.items ++ round_words id advance) }
{
    out.extend_from_slice(event_words(id.event).as_bytes())?;
    out.extend_from_slice(b", ")?;
    push_round_part(out, id.round, advance)
}
