//! What was entered last for the attempts of a competitor.

ghost use Rattle.std.specs.Prelude.{◌≡◌, ◌<◌, ◌≤◌, IfOk, is_some, map, slice_get, take, unwrap_or};
ghost use Rattle.std.specs.{Prelude.None as Nothing, List.list_all, Option.option_copied};
ghost use Rattle.texts.specs.Reading.{command_of};
ghost use Rattle.last_change.specs.Entering.{AreLastEntering, all_last, entered_at, entered_by};
ghost use Rattle.last_change.specs.Entering.{entered_on, entered_told, enters_in, last_of, places};

use crate::origins::is_accepted;
use mirror::Mirror;
use std::alloc::{AllocError, Global};
use texts::{AttemptEntry, CardEntry, Command, CommandFault, Entered, RoundId, read};

/// What a command of one attempt enters for the attempt at a place, counted from 0, of the
/// competitor in the round.
fn entered_by<'a>(
    round: RoundId,
    number: u16,
    place: usize,
    entry: &'a AttemptEntry,
) -> Option<&'a Entered>
    requires { place < 5 }
    ensures { option_copied result ≡ entered_by round number place entry.now }
{
    if entry.id == round && entry.number == number && usize::from(entry.attempt) == place + 1 {
        Some(&entry.outcome)
    } else {
        None
    }
}

/// What the outcomes of a card enter at a place.
fn outcome_at(now: &[Option<Entered>], place: usize) -> Option<&Entered>
    ensures { option_copied result ≡ unwrap_or (slice_get now.now place) Nothing }
{
    match now.get(place) {
        Some(outcome) => outcome.as_ref(),
        None => None,
    }
}

/// What a card enters for the attempt at a place, counted from 0, of the competitor in the round.
fn entered_on<'a>(
    round: RoundId,
    number: u16,
    place: usize,
    card: &'a CardEntry,
) -> Option<&'a Entered>
    ensures { option_copied result ≡ entered_on round number place card.entry.now }
{
    if card.id == round && card.number == number {
        outcome_at(card.now.as_slice(), place)
    } else {
        None
    }
}

/// What a command enters for the attempt at a place, counted from 0, of the competitor in the
/// round; none where it leaves what counts.
pub fn entered_at<'a>(
    round: RoundId,
    number: u16,
    place: usize,
    command: &'a Command,
) -> Option<&'a Entered>
    requires { place < 5 }
    ensures { option_copied result ≡ entered_at round number place command.now }
{
    match command {
        Command::Attempt(entry) => entered_by(round, number, place, entry),
        Command::Correct(entry) => entered_by(round, number, place, entry),
        Command::Card(card) => entered_on(round, number, place, card),
        Command::Fix(card) => entered_on(round, number, place, card),
        _ => None,
    }
}

/// Whether a command enters something for each of the five attempts.
fn entering(round: RoundId, number: u16, command: &Command) -> [bool; 5]
    ensures { result ≡ map (λ place. is_some (entered_at round number place command.now)) places }
{
    [
        entered_at(round, number, 0, command).is_some(),
        entered_at(round, number, 1, command).is_some(),
        entered_at(round, number, 2, command).is_some(),
        entered_at(round, number, 3, command).is_some(),
        entered_at(round, number, 4, command).is_some(),
    ]
}

/// Whether a text spells a command that does.
fn reads_entering(
    alloc: Global,
    round: RoundId,
    number: u16,
    text: &[u8],
) -> Result<[bool; 5], AllocError>
    ensures { IfOk result (λ are. are
        ≡ map (λ place. is_some (entered_told round number place (command_of text.now))) places) }
{
    match read(alloc, text) {
        Ok(told) => Ok(entering(round, number, &told.command)),
        Err(CommandFault::NoMemory) => Err(AllocError),
        Err(CommandFault::TooLong | CommandFault::NotACommand | CommandFault::BadField { .. }) =>
            Ok([false; 5]),
    }
}

/// Whether the entry at a position was accepted and does.
fn enters_in(
    alloc: Global,
    mirror: &Mirror,
    round: RoundId,
    number: u16,
    position: u32,
) -> Result<[bool; 5], AllocError>
    ensures { IfOk result (λ are. are
        ≡ map (λ place. enters_in mirror.now round number place position) places) }
{
    if !is_accepted(mirror, position) {
        return Ok([false; 5]);
    }
    match mirror.log().entry(position) {
        Some(entry) => reads_entering(alloc, round, number, entry.text()),
        None => Ok([false; 5]),
    }
}

/// The last position at which something was entered for an attempt: one that was found later in
/// the log, or else this one, if something was.
fn last_of(later: Option<u32>, enters: bool, position: u32) -> Option<u32>
    ensures { result ≡ last_of later enters position }
{
    match later {
        Some(later) => Some(later),
        None if enters => Some(position),
        None => None,
    }
}

/// The last positions for the five attempts, after those that follow this one were looked at.
fn all_last(later: [Option<u32>; 5], enters: [bool; 5], position: u32) -> [Option<u32>; 5]
    ensures { result ≡ all_last later enters position }
{
    [
        last_of(later[0], enters[0], position),
        last_of(later[1], enters[1], position),
        last_of(later[2], enters[2], position),
        last_of(later[3], enters[3], position),
        last_of(later[4], enters[4], position),
    ]
}

/// Whether a position was found for each of the first attempts, this many.
fn are_found(last: &[Option<u32>; 5], stands: usize) -> bool
    ensures { result ≡ list_all is_some (take stands last.now) }
{
    last.iter().take(stands).all(|found| found.is_some())
}

/// For each of the first attempts of a competitor in a round, this many: the position of the last
/// entry that was accepted and entered something for it, by `ATT`, `COR`, `CARD` or `FIX`; none
/// where there is no such entry. `=` in a card enters nothing.
///
/// They are looked for in one pass from the end of the log, which ends where all are found: the
/// work is that of the entries after the first of them. Memory is taken while a text is read, for
/// what one command has. AllocError where it was refused.
pub fn last_entering(
    alloc: Global,
    mirror: &Mirror,
    round: RoundId,
    number: u16,
    stands: usize,
) -> Result<[Option<u32>; 5], AllocError>
    requires { stands ≤ 5 }
    ensures { IfOk result (λ found. AreLastEntering mirror.now round number stands found) }
{
    let count = mirror.len();
    let mut last = [None, None, None, None, None];
    for later in 0..count {
        if are_found(&last, stands) {
            return Ok(last);
        }
        let position = count - 1 - later;
        let enters = enters_in(alloc, mirror, round, number, position)?;
        last = all_last(last, enters, position);
    }
    Ok(last)
}
