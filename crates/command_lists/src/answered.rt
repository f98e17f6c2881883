//! What commands would be answered.

ghost use Rattle.std.specs.Prelude.{◌≡◌, IfOk, string_bytes};
ghost use Rattle.std.specs.List.{list_all};
ghost use Rattle.card_forms.specs.Entries.{command_entries};
ghost use Rattle.command_lists.specs.Answered.{first_refusal, is_done, refusal};
ghost use Rattle.command_lists.specs.Answered.{refused_from, shown};
ghost use Rattle.answers.specs.Transcripts.{answers_after};

use card_forms::{CommandText, CommandTexts, FormId, command_entries};
use dry_run::foretell;
use itoa::Buffer;
use learner::log::Log;
use std::alloc::{AllocError, Global};
use texts::meanings::meaning_of;
use texts::{Answer, Code};

/// What each of these commands would be answered after a log, where they are entered one after the
/// other and the first has this id.
pub fn answers_to(
    alloc: Global,
    log: &Log,
    id: FormId,
    texts: &CommandTexts,
) -> Result<Vec<Answer>, AllocError>
    ensures { IfOk result (λ answers. answers.items
        ≡ answers_after log.now.entries (command_entries id texts.now)) }
{
    let entries = command_entries(alloc, id, texts)?;
    foretell(alloc, log, &entries)
}

/// Whether a command is accepted.
fn is_done(answer: &Answer) -> bool
    ensures { result ≡ is_done answer.now }
{
    match answer {
        Answer::Done => true,
        Answer::Refused(_) => false,
    }
}

/// Whether all commands are accepted.
pub fn all_done(answers: &[Answer]) -> bool
    ensures { result ≡ list_all is_done answers.now }
{
    answers.iter().all(|answer| is_done(answer))
}

/// The first answer that is a refusal: its place from 0, and why.
fn first_refused(answers: &[Answer]) -> Option<(usize, Code)>
    ensures { result ≡ refused_from 0 answers.now }
{
    for (place, answer) in answers.iter().enumerate() {
        if let Answer::Refused(code) = answer {
            return Some((place, *code));
        }
    }
    None
}

/// A text, or a question mark for one that is no UTF-8.
fn shown(text: &[u8]) -> &str
    ensures { result.now ≡ shown text.now }
{
    match str::from_utf8(text) {
        Ok(text) => text,
        Err(_) => "?",
    }
}

/// What is said of a command that is refused: its number, its text and why, as in `2: ENT 333 17:
/// the round is closed`.
fn refusal(alloc: Global, number: u64, text: &[u8], code: Code) -> Result<String, AllocError>
    ensures { IfOk result (λ line. string_bytes line ≡ refusal number text.now code) }
{
    let mut line = String::new(alloc);
    line.push_str(Buffer::new().format(number))?;
    line.push_str(": ")?;
    line.push_str(shown(text))?;
    line.push_str(": ")?;
    line.push_str(meaning_of(code))?;
    Ok(line)
}

/// Which command is refused first, counted from 1, and why, in a line for people: `2: ENT 333 17:
/// the round is closed`. Nothing where none is.
pub fn first_refusal(
    alloc: Global,
    texts: &[CommandText],
    answers: &[Answer],
) -> Result<String, AllocError>
    ensures { IfOk result (λ line. string_bytes line
        ≡ first_refusal texts.now answers.now) }
{
    let Some((place, code)) = first_refused(answers) else {
        return Ok(String::new(alloc));
    };
    let Some(text) = texts.get(place) else {
        return Ok(String::new(alloc));
    };
    refusal(alloc, place as u64 + 1, text.as_bytes(), code)
}
