//! Commands from a competition's file.

ghost use Rattle.std.specs.Prelude.{◌≡◌, IfOk};
ghost use Rattle.command_lists.specs.Files.{IsOfFile};

use std::alloc::{AllocError, Global};
use wcif::{CompetitionFault, FileFault, Options, import_file, print_lines};

/// What a competition's file comes to.
#[derive(Drop)]
pub enum FileLines {
    /// These lines, each a command, set the competition up.
    Lines(Vec<u8>),
    /// It gives no commands: why, in words, a line for each thing that a desk cannot hold.
    Refused { fault: FileFault, words: Vec<u8> },
}

/// Adds a line for each fault.
fn push_faults(
    alloc: Global,
    words: &mut Vec<u8>,
    faults: &[CompetitionFault],
) -> Result<(), AllocError> {
    for fault in faults {
        let line = format!(in alloc; "{fault}\n")?;
        words.extend_from_slice(line.as_bytes())?;
    }
    Ok(())
}

/// Why a file gives no commands, in words.
fn words_of(alloc: Global, fault: &FileFault) -> Result<Vec<u8>, AllocError> {
    let mut words = Vec::new(alloc);
    match fault {
        FileFault::Refused(found) => push_faults(alloc, &mut words, found)?,
        FileFault::NotJson(error) => {
            let line = format!(in alloc; "no JSON: {error}\n")?;
            words.extend_from_slice(line.as_bytes())?;
        }
        FileFault::TooDeep => {
            words.extend_from_slice(b"lists and objects nest more than 64 deep\n")?;
        }
        FileFault::TooLong => words.extend_from_slice(b"the file has more than 64 MiB\n")?,
        FileFault::NoMemory => words.extend_from_slice(b"no memory\n")?,
    }
    Ok(words)
}

/// The lines of the commands that set up the competition of a file in the WCA Competition
/// Interchange Format, as `desk import` prints them; or why there are none, as it says it.
pub fn lines_of_file(alloc: Global, bytes: &[u8], options: Options) -> Result<FileLines, AllocError>
    ensures { IfOk result (IsOfFile options bytes.now) }
{
    match import_file(alloc, bytes, options) {
        Ok(made) => {
            let lines = print_lines(alloc, &made.commands)?;
            Ok(FileLines::Lines(lines))
        }
        Err(FileFault::NoMemory) => Err(AllocError),
        Err(fault) => {
            let words = words_of(alloc, &fault)?;
            Ok(FileLines::Refused { fault, words })
        }
    }
}
