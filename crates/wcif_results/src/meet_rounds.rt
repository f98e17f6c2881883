//! The rounds of a meet, with their ids in a competition's file.

ghost use Rattle.std.specs.Prelude.{◌≡◌, ◌++◌, map, option_map, IfOk, OnOk};
ghost use Rattle.wcif_results.specs.MeetRounds.{round_at, event_rounds, meet_rounds, round_named};
ghost use Rattle.wcif_results.specs.model.Opened.{round_view};

use attempts::NoMemory;
use commands::Meet;
use formats::{Event, Format};
use rounds::RoundTable;
use std::alloc::Global;
use wcif::round_id;

/// The numbers that a round may have (WCA Regulations, article 9m).
const ROUND_NUMBERS: [u8; 4] = [1, 2, 3, 4];

/// A round of a meet, with its id in a file.
#[derive(Drop)]
pub(crate) struct MeetRound<'m> {
    pub(crate) event: Event,
    pub(crate) number: u8,
    pub(crate) id: Vec<u8>,
    pub(crate) format: Format,
    pub(crate) table: &'m RoundTable,
}

/// Adds the round of an event with this number, where it was opened.
fn push_round<'m>(
    alloc: Global,
    rounds: &mut Vec<MeetRound<'m>>,
    meet: &'m Meet,
    event: Event,
    number: u8,
) -> Result<(), NoMemory>
    ensures { OnOk result (map round_view rounds.new.items
        ≡ map round_view rounds.old.items ++ round_at meet.now.accepted event number) }
{
    let Some(table) = meet.round(event, number) else {
        return Ok(());
    };
    let Some(settings) = meet.settings(event, number) else {
        return Ok(());
    };
    let id = round_id(alloc, event, number)?;
    rounds.push(MeetRound {
        event,
        number,
        id,
        format: settings.format,
        table,
    })?;
    Ok(())
}

/// Adds the rounds of an event.
fn push_event_rounds<'m>(
    alloc: Global,
    rounds: &mut Vec<MeetRound<'m>>,
    meet: &'m Meet,
    event: Event,
) -> Result<(), NoMemory>
    ensures { OnOk result (map round_view rounds.new.items
        ≡ map round_view rounds.old.items ++ event_rounds meet.now.accepted event) }
{
    for number in &ROUND_NUMBERS {
        push_round(alloc, rounds, meet, event, *number)?;
    }
    Ok(())
}

/// All rounds that were opened, in the order of the events' numbers.
#[tactic(auto, unfolding(crate::specs::MeetRounds::meet_rounds))]
pub(crate) fn meet_rounds(alloc: Global, meet: &Meet) -> Result<Vec<MeetRound<'_>>, NoMemory>
    ensures { IfOk result (λ rounds. map round_view rounds.items ≡ meet_rounds meet.now.accepted) }
{
    let mut rounds = Vec::new(alloc);
    for event in &Event::ALL {
        push_event_rounds(alloc, &mut rounds, meet, *event)?;
    }
    Ok(rounds)
}

/// The round with an id.
pub(crate) fn round_named<'r, 'm>(
    rounds: &'r [MeetRound<'m>],
    id: &[u8],
) -> Option<&'r MeetRound<'m>>
    ensures { option_map (λ r. round_view r.now) result
        ≡ round_named (map round_view rounds.now) id.now }
{
    for round in rounds {
        if round.id.as_slice() == id {
            return Some(round);
        }
    }
    None
}
