//! Commands as lines.

ghost use Rattle.std.specs.Prelude.{◌≡◌, ◌++◌, flat_map, IfOk, OnOk};
ghost use Rattle.wcif.specs.{Later.later_lines, Lines.line, Lines.lines};

use crate::importing::ImportedCompetition;
use crate::later::print_later;
use attempts::NoMemory;
use std::alloc::Global;
use texts::{Command, print};

/// Adds the line of a command.
fn push_line(alloc: Global, out: &mut Vec<u8>, command: &Command) -> Result<(), NoMemory>
    ensures { OnOk result (out.new.items ≡ out.old.items ++ line command.now) }
{
    let text = print(alloc, command)?;
    out.extend_from_slice(&text)?;
    out.extend_from_slice(b"\n")
}

/// The commands as lines, each with a line feed at its end, as `desk replay` and `desk enter-lines`
/// read them.
pub fn print_lines(alloc: Global, commands: &[Command]) -> Result<Vec<u8>, NoMemory>
    ensures { IfOk result (λ text. text.items ≡ lines commands.now) }
{
    let mut out = Vec::new(alloc);
    for command in commands {
        push_line(alloc, &mut out, command)?;
    }
    Ok(out)
}

/// The commands of an import as lines, and after them what is to be known of rounds that they do
/// not open, each a comment, which `desk enter-lines` passes over.
pub fn print_imported(alloc: Global, made: &ImportedCompetition) -> Result<Vec<u8>, NoMemory>
    ensures { IfOk result (λ text. text.items
        ≡ lines made.now.commands.items ++ later_lines made.now.later.items) }
{
    let mut out = print_lines(alloc, &made.commands)?;
    let said = print_later(alloc, &made.later)?;
    out.extend_from_slice(&said)?;
    Ok(out)
}
