//! What comments in a list of commands propose for later rounds.

ghost use Rattle.std.specs.Prelude.{◌≡◌, ◌<◌, IfOk, length, option_map};
ghost use Rattle.texts.specs.Reading.{command_of};
ghost use Rattle.table_round_views.specs.Comments.{begins_line, comment_of, line_of, settings_told};
ghost use Rattle.table_round_views.specs.Comments.{first_of, proposed_at, proposed_in, settings_of};

use acceptor::NoMemory;
use std::alloc::{AllocError, Global};
use texts::{Command, CommandFault, RoundId, Settings, cut, read};

/// The settings with which a command opens the round.
fn settings_of(id: RoundId, command: &Command) -> Option<Settings>
    ensures { result ≡ settings_of id command.now }
{
    match command {
        Command::Open {
            id: opened,
            settings,
        } if *opened == id => Some(*settings),
        _ => None,
    }
}

/// The settings with which the command that a text spells opens the round.
fn settings_told(alloc: Global, id: RoundId, text: &[u8]) -> Result<Option<Settings>, NoMemory>
    ensures { IfOk result (λ found. found ≡ settings_told id (command_of text.now)) }
{
    match read(alloc, text) {
        Ok(told) => Ok(settings_of(id, &told.command)),
        Err(CommandFault::NoMemory) => Err(AllocError),
        Err(CommandFault::TooLong | CommandFault::NotACommand | CommandFault::BadField { .. }) =>
            Ok(None),
    }
}

/// Whether a line begins at this place of a text.
fn begins_line(text: &[u8], place: usize) -> bool
    requires { place < length text.now }
    ensures { result ≡ begins_line text.now place }
{
    place == 0 || text[place - 1] == b'\n'
}

/// What is before the first line feed or carriage return.
fn line_of(bytes: &[u8]) -> &[u8]
    ensures { result.now ≡ line_of bytes.now }
{
    let (line, _) = cut(bytes, b'\n');
    let (line, _) = cut(line, b'\r');
    line
}

/// What a line says that is a comment.
fn comment_of(line: &[u8]) -> Option<&[u8]>
    ensures { option_map (λ comment. comment.now) result ≡ comment_of line.now }
{
    line.strip_prefix(b"# ".as_slice())
}

/// What the line that begins at this place proposes for the round; nothing where none begins there.
fn proposed_at(
    alloc: Global,
    id: RoundId,
    text: &[u8],
    place: usize,
) -> Result<Option<Settings>, NoMemory>
    requires { place < length text.now }
    ensures { IfOk result (λ found. found ≡ proposed_at id text.now place) }
{
    if !begins_line(text, place) {
        return Ok(None);
    }
    match comment_of(line_of(&text[place..])) {
        Some(comment) => settings_told(alloc, id, comment),
        None => Ok(None),
    }
}

/// The settings that were found first.
fn first_of(found: Option<Settings>, next: Option<Settings>) -> Option<Settings>
    ensures { result ≡ first_of found next }
{
    match found {
        Some(_) => found,
        None => next,
    }
}

/// What the comments of a list of commands propose for the round: the settings of the first of them
/// that is an `OPEN` of the round. None where there is no such comment.
pub(crate) fn proposed_in(
    alloc: Global,
    id: RoundId,
    text: &[u8],
) -> Result<Option<Settings>, NoMemory>
    ensures { IfOk result (λ found. found ≡ proposed_in id text.now) }
{
    let mut found = None;
    for place in 0..text.len() {
        let next = proposed_at(alloc, id, text, place)?;
        found = first_of(found, next);
    }
    Ok(found)
}
