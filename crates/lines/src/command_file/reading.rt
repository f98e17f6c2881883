//! The commands of an input, read whole.

ghost use Rattle.std.specs.Prelude.{◌≡◌, ◌++◌, ◌≤◌, IfOk, IfErr, OnOk, length};
ghost use Rattle.lines.specs.command_file.Commands.{ReadsCommands, StopsReading, command_in};
ghost use Rattle.lines.specs.command_file.Commands.{is_left_out, text_of, unmarked, unreturned};

use crate::command_file::command_text::InputCommand;
use crate::{LineReader, RunFault};
use std::alloc::{AllocError, Global};
use std::io::Read;

/// The byte-order mark in UTF-8.
const MARK: [u8; 3] = [239, 187, 191];

/// A line without the mark at its front.
fn unmarked(line: &[u8]) -> &[u8]
    ensures { result.now ≡ unmarked line.now }
{
    if line.starts_with(&MARK) {
        &line[3..]
    } else {
        line
    }
}

/// A line without the carriage return at its end.
fn unreturned(line: &[u8]) -> &[u8]
    ensures { result.now ≡ unreturned line.now }
{
    if line.ends_with(b"\r") {
        &line[..line.len() - 1]
    } else {
        line
    }
}

/// What a line with this number says.
fn text_of(number: u32, line: &[u8]) -> &[u8]
    ensures { result.now ≡ text_of number line.now }
{
    if number == 1 {
        unreturned(unmarked(line))
    } else {
        unreturned(line)
    }
}

/// Whether a text is empty, or a comment.
fn is_left_out(text: &[u8]) -> bool
    ensures { result ≡ is_left_out text.now }
{
    match text.first() {
        Some(byte) => *byte == b'#',
        None => true,
    }
}

/// Adds the command of a line, where it has one.
fn push_command(
    alloc: Global,
    commands: &mut Vec<InputCommand>,
    number: u32,
    line: &[u8],
) -> Result<(), AllocError>
    ensures { OnOk result (commands.new.items
        ≡ commands.old.items ++ command_in number (text_of number line.now)) }
{
    let text = text_of(number, line);
    if is_left_out(text) {
        return Ok(());
    }
    let text = Vec::from_slice(alloc, text)?;
    commands.push(InputCommand::new(number, text))?;
    Ok(())
}

/// Reads an input to its end, and gives its commands in order. Of the first line a byte-order mark
/// at the front is dropped, of each line a carriage return at the end; lines that are empty then,
/// and those that begin with `#`, are left out. Lines are parted by line feeds; a last line without
/// one counts where it is not empty.
///
/// # Errors
///
/// Those of [`LineReader::read_line`]: `InputTooLong` above a limit, `Read` where a read fails, and
/// `NoMemory`.
pub fn read_commands<R: Read>(alloc: Global, reader: &mut R) -> Result<Vec<InputCommand>, RunFault>
    ensures ok { IfOk result (λ commands. ReadsCommands commands.items
        (R.remaining reader.old) (R.remaining reader.new)) }
    ensures few { IfOk result (λ commands. length commands.items ≤ 65536) }
    ensures err { IfErr result (λ f. StopsReading f
        (R.remaining reader.old) (R.remaining reader.new)) }
{
    let mut lines = LineReader::new();
    let mut line = Vec::new(alloc);
    let mut commands = Vec::new(alloc);
    while lines.read_line(reader, &mut line)? {
        let number = lines.count();
        push_command(alloc, &mut commands, number, &line)?;
    }
    Ok(commands)
}
