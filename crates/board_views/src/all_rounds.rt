//! All rounds of a competition.

ghost use Rattle.std.specs.Prelude.{◌≡◌, ◌++◌, OnOk, IfOk, flat_map};
ghost use Rattle.board_rounds.specs.Rounds.{link, section};
ghost use Rattle.board_views.specs.{Rounds.all_rounds, Rounds.rounds_of, Views.podiums};

use acceptor::NoMemory;
use board_rounds::{push_link, push_podium, push_round};
use commands::Meet;
use formats::Event;
use std::alloc::Global;
use texts::RoundId;

/// Adds the rounds that an event may have.
fn push_rounds_of(rounds: &mut Vec<RoundId>, event: Event) -> Result<(), NoMemory>
    ensures { OnOk result (rounds.new.items ≡ rounds.old.items ++ rounds_of event) }
{
    rounds.extend_from_slice(&[
        RoundId { event, round: 1 },
        RoundId { event, round: 2 },
        RoundId { event, round: 3 },
        RoundId { event, round: 4 },
    ])
}

/// Adds the rounds that these events may have.
fn push_rounds_of_each(rounds: &mut Vec<RoundId>, events: &[Event]) -> Result<(), NoMemory>
    ensures { OnOk result (rounds.new.items ≡ rounds.old.items ++ flat_map rounds_of events.now) }
{
    for event in events {
        push_rounds_of(rounds, *event)?;
    }
    Ok(())
}

/// All rounds that may be, in the order of events.
pub(crate) fn all_rounds(alloc: Global) -> Result<Vec<RoundId>, NoMemory>
    ensures { IfOk result (λ rounds. rounds.items ≡ all_rounds) }
{
    let mut rounds = Vec::new(alloc);
    push_rounds_of_each(&mut rounds, &Event::ALL)?;
    Ok(rounds)
}

/// Links to those of these rounds that were opened.
pub(crate) fn links_of(alloc: Global, meet: &Meet, rounds: &[RoundId]) -> Result<Vec<u8>, NoMemory>
    ensures { IfOk result (λ text. text.items ≡ flat_map (link meet.now.accepted) rounds.now) }
{
    let mut text = Vec::new(alloc);
    for id in rounds {
        push_link(&mut text, meet, *id)?;
    }
    Ok(text)
}

/// Those of these rounds that were opened, as they are after this many commands.
pub(crate) fn sections_of(
    alloc: Global,
    meet: &Meet,
    position: u32,
    rounds: &[RoundId],
) -> Result<Vec<u8>, NoMemory>
    ensures { IfOk result
        (λ text. text.items ≡ flat_map (section meet.now.accepted position) rounds.now) }
{
    let mut text = Vec::new(alloc);
    for id in rounds {
        push_round(&mut text, meet, position, *id)?;
    }
    Ok(text)
}

/// The podiums of the finals among these rounds, as they are after this many commands, and a line
/// that says this number.
#[tactic(auto, unfolding(crate::specs::Views::podiums))]
pub(crate) fn podiums_of(
    alloc: Global,
    meet: &Meet,
    position: u32,
    rounds: &[RoundId],
) -> Result<Vec<u8>, NoMemory>
    ensures { IfOk result (λ text. text.items ≡ podiums meet.now.accepted position rounds.now) }
{
    let line = b"<p class=\"told\">The first three of each final.</p>\n";
    let mut text = Vec::from_slice(alloc, line)?;
    for id in rounds {
        push_podium(&mut text, meet, position, *id)?;
    }
    Ok(text)
}
