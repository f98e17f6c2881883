//! The last entry that changed a competitor's attempts.

ghost use Rattle.std.specs.Prelude.{◌≡◌, IfOk};
ghost use Rattle.texts.specs.Reading.{command_of};
ghost use Rattle.last_change.specs.Changes.{changes, is_accepted, is_change, IsLastChange};
ghost use Rattle.last_change.specs.Changes.{reads_change, reads_change_at};

use learner::log::Log;
use mirror::Mirror;
use std::alloc::{AllocError, Global};
use texts::{Answer, Command, CommandFault, RoundId, read};

/// Whether a command enters, corrects or strikes an attempt of the competitor in the round, or is a
/// card of the competitor.
fn changes(round: RoundId, number: u16, command: &Command) -> bool
    ensures { result ≡ changes round number command.now }
{
    match command {
        Command::Attempt(entry) => entry.id == round && entry.number == number,
        Command::Correct(entry) => entry.id == round && entry.number == number,
        Command::Strike { id, number: struck } => *id == round && *struck == number,
        Command::Card(card) => card.id == round && card.number == number,
        Command::Fix(card) => card.id == round && card.number == number,
        _ => false,
    }
}

/// Whether a text spells such a command.
pub fn reads_change(
    alloc: Global,
    round: RoundId,
    number: u16,
    text: &[u8],
) -> Result<bool, AllocError>
    ensures { IfOk result (λ is. is ≡ reads_change round number (command_of text.now)) }
{
    match read(alloc, text) {
        Ok(told) => Ok(changes(round, number, &told.command)),
        Err(CommandFault::NoMemory) => Err(AllocError),
        Err(CommandFault::TooLong | CommandFault::NotACommand | CommandFault::BadField { .. }) =>
            Ok(false),
    }
}

/// Whether the text of an entry of a log spells such a command.
fn reads_change_at(
    alloc: Global,
    log: &Log,
    round: RoundId,
    number: u16,
    position: u32,
) -> Result<bool, AllocError>
    ensures { IfOk result
        (λ is. is ≡ reads_change_at log.now.entries round number position) }
{
    match log.entry(position) {
        Some(entry) => reads_change(alloc, round, number, entry.text()),
        None => Ok(false),
    }
}

/// Whether the entry at a position was accepted.
pub(crate) fn is_accepted(mirror: &Mirror, position: u32) -> bool
    ensures { result ≡ is_accepted mirror.now position }
{
    match mirror.answer(position) {
        Some(Answer::Done) => true,
        Some(Answer::Refused(_)) | None => false,
    }
}

/// Whether the entry at a position was accepted and entered, corrected or struck an attempt of the
/// competitor in the round, or was a card of the competitor.
pub fn is_change(
    alloc: Global,
    mirror: &Mirror,
    round: RoundId,
    number: u16,
    position: u32,
) -> Result<bool, AllocError>
    ensures { IfOk result (λ is. is ≡ is_change mirror.now round number position) }
{
    if is_accepted(mirror, position) {
        reads_change_at(alloc, mirror.log(), round, number, position)
    } else {
        Ok(false)
    }
}

/// The position of the last entry that was accepted and entered, corrected or struck an attempt of
/// the competitor in the round, or was a card of the competitor; none where there is no such entry.
/// It is looked for from the end of the log, so the work is that of the entries after it.
///
/// Memory is taken while a text is read, for what one command has. AllocError where it was refused.
pub fn last_change(
    alloc: Global,
    mirror: &Mirror,
    round: RoundId,
    number: u16,
) -> Result<Option<u32>, AllocError>
    ensures { IfOk result (λ found. IsLastChange mirror.now round number found) }
{
    let count = mirror.len();
    for later in 0..count {
        let position = count - 1 - later;
        if is_change(alloc, mirror, round, number, position)? {
            return Ok(Some(position));
        }
    }
    Ok(None)
}
