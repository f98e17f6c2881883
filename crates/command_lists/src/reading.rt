//! Commands from lines.

ghost use Rattle.std.specs.Prelude.{◌≡◌, [], IfOk};
ghost use Rattle.std.specs.Option.{option_map};
ghost use Rattle.command_lists.specs.Lists.{IsReadFrom, fit, shorts};

use card_forms::{CommandText, CommandTexts};
use lines::RunFault;
use lines::command_file::read_commands;
use std::alloc::{AllocError, Global};

/// The texts of these commands. None where one has more than 600 bytes.
fn shorts(
    alloc: Global,
    commands: &[lines::command_file::InputCommand],
) -> Result<Option<Vec<CommandText>>, AllocError>
    ensures { IfOk result (λ texts. option_map (λ t. t.items) texts ≡ shorts [] commands.now) }
{
    let mut texts = Vec::new(alloc);
    for command in commands {
        let text = Vec::from_slice(alloc, command.text())?;
        match CommandText::new(text) {
            Some(text) => texts.push(text)?,
            None => return Ok(None),
        }
    }
    Ok(Some(texts))
}

/// The texts, where there are 1 to 16,384.
fn fit(texts: Option<Vec<CommandText>>) -> Option<CommandTexts>
    ensures { result ≡ fit (option_map (λ t. t.items) texts) }
{
    let texts = texts?;
    if texts.is_empty() {
        return None;
    }
    CommandTexts::new(texts)
}

/// The commands of lines: their texts without white space at a line's end that a browser adds, and
/// without lines that are empty and comments. There are 1 to 16,384 of them, each of at most 600
/// bytes. None where the lines have no such commands, or are above the limits of an input.
#[tactic(auto, using(crate::proofs::WholeInput::fit_from, crate::proofs::WholeInput::too_long))]
pub fn texts_in(alloc: Global, lines: &[u8]) -> Result<Option<CommandTexts>, AllocError>
    ensures { IfOk result (IsReadFrom lines.now) }
{
    let mut reader = lines;
    let commands = match read_commands(alloc, &mut reader) {
        Ok(commands) => commands,
        Err(RunFault::InputTooLong) => return Ok(None),
        // No read of bytes that are there fails.
        Err(_) => return Err(AllocError),
    };
    let texts = shorts(alloc, &commands)?;
    Ok(fit(texts))
}
