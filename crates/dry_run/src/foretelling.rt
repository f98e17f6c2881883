//! The answers that entries would get.

ghost use Rattle.std.specs.Prelude.{◌≡◌, IfOk};
ghost use Rattle.answers.specs.Transcripts.{answers_after};

use acceptor::entry::Entry;
use answers::Transcript;
use learner::log::Log;
use std::alloc::{AllocError, Global};
use texts::Answer;

/// What the rules would answer to each of these entries, in order, if they followed the entries of
/// this log with no other between them. An entry whose id the log has, or an entry before it, is
/// answered `Repeat`.
///
/// The log is read once, into a transcript of its own, and no sheet is made. AllocError where
/// memory was refused.
pub fn foretell(alloc: Global, log: &Log, entries: &[Entry]) -> Result<Vec<Answer>, AllocError>
    ensures { IfOk result
        (λ answers. answers.items ≡ answers_after log.now.entries entries.now) }
{
    let mut transcript = Transcript::of_first(alloc, log, log.len())?;
    let mut answers = Vec::new(alloc);
    for entry in entries {
        answers.push(transcript.take(entry)?)?;
    }
    Ok(answers)
}
