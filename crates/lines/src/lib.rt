//! An input read line by line within limits, a text written to a writer, and why a run over lines
//! ends early.
#![tactic(auto)]

pub mod command_file;
mod fault;
mod line_reader;
mod writing;

ghost use Rattle.std.specs.Prelude.{ℕ, List};
ghost use Rattle.lines.specs.Lines.{AreParts, whole_lines, rest_of};

pub use fault::RunFault;
pub use line_reader::LineReader;
pub use writing::{WriteFailed, write_long, write_out, write_text};

/// The lines of an input are parted by line feeds: a law.
pub fn lines_are_parted()
    ensures { (input : List ℕ) → AreParts input (whole_lines input) (rest_of input) }
{}
