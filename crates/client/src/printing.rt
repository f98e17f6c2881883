//! Answers as the program prints them.

ghost use Rattle.std.specs.Prelude.{◌≡◌, ◌++◌, IfOk, OnOk, decimal};
ghost use Rattle.client.specs.Printing.{answer_name, reply_text, state_text};

use itoa::Buffer;
use std::alloc::{AllocError, Global};
use texts::Answer;
use wire::{CommandState, FrameBody};

/// Adds a number in decimal.
fn push_number(out: &mut Vec<u8>, number: u64) -> Result<(), AllocError>
    ensures { OnOk result (out.new.items ≡ out.old.items ++ decimal number) }
{
    let mut buffer = Buffer::new();
    out.extend_from_slice(buffer.format(number).as_bytes())
}

/// The name of what a command was answered: `Done`, or that of the refusal's code.
fn answer_name(answer: Answer) -> &'static str
    ensures { result.now ≡ answer_name answer }
{
    match answer {
        Answer::Done => "Done",
        Answer::Refused(code) => code.name(),
    }
}

/// Adds what became of the command with an id, and a line feed.
fn push_state(out: &mut Vec<u8>, id: u64, state: CommandState) -> Result<(), AllocError>
    ensures { OnOk result (out.new.items ≡ out.old.items ++ state_text id state) }
{
    match state {
        CommandState::Unknown => {
            out.extend_from_slice(b"unknown ")?;
            push_number(out, id)?;
        }
        CommandState::Pending => {
            out.extend_from_slice(b"pending ")?;
            push_number(out, id)?;
        }
        CommandState::Done { pos, answer } => {
            out.extend_from_slice(b"done ")?;
            push_number(out, id)?;
            out.extend_from_slice(b" ")?;
            push_number(out, u64::from(pos))?;
            out.extend_from_slice(b" ")?;
            out.extend_from_slice(answer_name(answer).as_bytes())?;
        }
    }
    out.extend_from_slice(b"\n")
}

/// What is printed of an answer: a line for Taken, Told and Fine, and for the text of a sheet the
/// text itself. Nothing for a kind that is no answer.
pub fn reply_text(alloc: Global, answer: FrameBody) -> Result<Vec<u8>, AllocError>
    ensures { IfOk result (λ text. text.items ≡ reply_text answer) }
{
    match answer {
        FrameBody::SheetText { text } => Ok(text.into_vec()),
        FrameBody::Taken { id } => {
            let mut out = Vec::new(alloc);
            out.extend_from_slice(b"taken ")?;
            push_number(&mut out, id)?;
            out.extend_from_slice(b"\n")?;
            Ok(out)
        }
        FrameBody::Told { id, state } => {
            let mut out = Vec::new(alloc);
            push_state(&mut out, id, state)?;
            Ok(out)
        }
        FrameBody::Fine => Vec::from_slice(alloc, b"ok\n"),
        _ => Ok(Vec::new(alloc)),
    }
}
