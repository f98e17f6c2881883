//! Commands as texts.

ghost use Rattle.std.specs.Prelude.{◌≡◌, ◌++◌, IfOk, OnOk, map};
ghost use Rattle.cube.specs.notation.Notation.{spelling as moves_text};
ghost use Rattle.texts.specs.{Parts.lent, declared.command.Entered.TheVariants.Time as TimeOf};
ghost use Rattle.texts.specs.Spelling.{cutoff_text, limit_text, advance_text, entered_text};
ghost use Rattle.texts.specs.Spelling.{counted_text, was_text, stays_or_text, now_text, spelling};
ghost use Rattle.texts.specs.Spelling.{told_spelling, value_text, values_text};
ghost use Rattle.texts.specs.Table.{row_of, word_in};
ghost use Rattle.texts.specs.declared.command.Entered.TheVariants.{Solution as SolutionOf};
ghost use Rattle.texts.specs.declared.command.Entered.TheVariants.{Multi as MultiOf};

use crate::command::{Command, Entered, RemarkedCommand};
use crate::parts::parts;
use crate::table::{Tag, row_of};
use crate::value::LentValue;
use attempts::{NoMemory, Value, push_decimal};
use cube::Move;
use formats::Advance;
use std::alloc::Global;

fn push_cutoff(out: &mut Vec<u8>, cutoff: Option<(u8, u32)>) -> Result<(), NoMemory>
    ensures { OnOk result (out.new.items ≡ out.old.items ++ cutoff_text cutoff) }
{
    match cutoff {
        Some((attempts, below)) => {
            push_decimal(out, u32::from(attempts))?;
            out.extend_from_slice(b":")?;
            push_decimal(out, below)
        }
        None => out.extend_from_slice(b"-"),
    }
}

fn push_limit(out: &mut Vec<u8>, limit: Option<u32>) -> Result<(), NoMemory>
    ensures { OnOk result (out.new.items ≡ out.old.items ++ limit_text limit) }
{
    match limit {
        Some(limit) => push_decimal(out, limit),
        None => out.extend_from_slice(b"-"),
    }
}

fn push_advance(out: &mut Vec<u8>, advance: Advance) -> Result<(), NoMemory>
    ensures { OnOk result (out.new.items ≡ out.old.items ++ advance_text advance) }
{
    match advance {
        Advance::Final => out.extend_from_slice(b"final"),
        Advance::Top(number) => {
            out.extend_from_slice(b"top:")?;
            push_decimal(out, u32::from(number))
        }
        Advance::Percent(percent) => {
            out.extend_from_slice(b"pct:")?;
            push_decimal(out, u32::from(percent))
        }
    }
}

/// A cutoff as commands and sheets have it: the attempts, a colon and what one of them has to be
/// below, in hundredths of a second or moves; `-` where there is none.
pub fn print_cutoff(alloc: Global, cutoff: Option<(u8, u32)>) -> Result<Vec<u8>, NoMemory>
    ensures { IfOk result (λ text. text.items ≡ cutoff_text cutoff) }
{
    let mut text = Vec::new(alloc);
    push_cutoff(&mut text, cutoff)?;
    Ok(text)
}

/// A time limit as commands and sheets have it: hundredths of a second; `-` where there is none.
pub fn print_limit(alloc: Global, limit: Option<u32>) -> Result<Vec<u8>, NoMemory>
    ensures { IfOk result (λ text. text.items ≡ limit_text limit) }
{
    let mut text = Vec::new(alloc);
    push_limit(&mut text, limit)?;
    Ok(text)
}

/// Who advances, as commands and sheets have it.
pub fn print_advance(alloc: Global, advance: Advance) -> Result<Vec<u8>, NoMemory>
    ensures { IfOk result (λ text. text.items ≡ advance_text advance) }
{
    let mut text = Vec::new(alloc);
    push_advance(&mut text, advance)?;
    Ok(text)
}

fn push_moves(alloc: Global, out: &mut Vec<u8>, moves: &[Move]) -> Result<(), NoMemory>
    ensures { OnOk result (out.new.items ≡ out.old.items ++ moves_text moves.now) }
{
    let text = cube::notation::print(alloc, moves)?;
    out.extend_from_slice(&text)
}

fn push_time(out: &mut Vec<u8>, hundredths: u32, penalties: u8) -> Result<(), NoMemory>
    ensures { OnOk result
        (out.new.items ≡ out.old.items ++ entered_text (TimeOf hundredths penalties)) }
{
    out.extend_from_slice(b"T:")?;
    push_decimal(out, hundredths)?;
    out.extend_from_slice(b":")?;
    push_decimal(out, u32::from(penalties))
}

fn push_solution(alloc: Global, out: &mut Vec<u8>, moves: &[Move]) -> Result<(), NoMemory>
    ensures { OnOk result (out.new.items ≡ out.old.items ++ entered_text (SolutionOf moves.now)) }
{
    out.extend_from_slice(b"S:")?;
    push_moves(alloc, out, moves)
}

fn push_multi(out: &mut Vec<u8>, solved: u8, attempted: u8, seconds: u16) -> Result<(), NoMemory>
    ensures { OnOk result
        (out.new.items ≡ out.old.items ++ entered_text (MultiOf solved attempted seconds)) }
{
    out.extend_from_slice(b"M:")?;
    push_decimal(out, u32::from(solved))?;
    out.extend_from_slice(b":")?;
    push_decimal(out, u32::from(attempted))?;
    out.extend_from_slice(b":")?;
    push_decimal(out, u32::from(seconds))
}

fn push_entered(alloc: Global, out: &mut Vec<u8>, outcome: &Entered) -> Result<(), NoMemory>
    ensures { OnOk result (out.new.items ≡ out.old.items ++ entered_text outcome.now) }
{
    match outcome {
        Entered::Time {
            hundredths,
            penalties,
        } => push_time(out, *hundredths, *penalties),
        Entered::Solution { moves } => push_solution(alloc, out, moves.as_slice()),
        Entered::Multi {
            solved,
            attempted,
            seconds,
        } => push_multi(out, *solved, *attempted, *seconds),
        Entered::Dnf => out.extend_from_slice(b"DNF"),
        Entered::Dns => out.extend_from_slice(b"DNS"),
    }
}

/// What an attempt counts.
fn push_counted(out: &mut Vec<u8>, value: Value) -> Result<(), NoMemory>
    ensures { OnOk result (out.new.items ≡ out.old.items ++ counted_text value) }
{
    match value {
        Value::Number(number) => push_decimal(out, number),
        Value::Dnf => out.extend_from_slice(b"DNF"),
        Value::Dns => out.extend_from_slice(b"DNS"),
    }
}

/// Adds what the attempts of an entrant count, as the field `was` of `CARD` spells it: with a comma
/// between two of them, or `-` for none. It is `NoMemory` only where a growth was refused.
pub fn push_was(out: &mut Vec<u8>, was: &[Value]) -> Result<(), NoMemory>
    ensures { OnOk result (out.new.items ≡ out.old.items ++ was_text was.now) }
{
    let Some((first, later)) = was.split_first() else {
        return out.extend_from_slice(b"-");
    };
    push_counted(out, *first)?;
    for value in later {
        out.extend_from_slice(b",")?;
        push_counted(out, *value)?;
    }
    Ok(())
}

/// What is to count for an attempt.
fn push_stays_or(
    alloc: Global,
    out: &mut Vec<u8>,
    outcome: &Option<Entered>,
) -> Result<(), NoMemory>
    ensures { OnOk result (out.new.items ≡ out.old.items ++ stays_or_text outcome.now) }
{
    match outcome {
        Some(outcome) => push_entered(alloc, out, outcome),
        None => out.extend_from_slice(b"="),
    }
}

/// The attempts that are to count, with a slash between two of them.
fn push_now(alloc: Global, out: &mut Vec<u8>, now: &[Option<Entered>]) -> Result<(), NoMemory>
    ensures { OnOk result (out.new.items ≡ out.old.items ++ now_text now.now) }
{
    let Some((first, later)) = now.split_first() else {
        return out.extend_from_slice(b"-");
    };
    push_stays_or(alloc, out, first)?;
    for outcome in later {
        out.extend_from_slice(b"/")?;
        push_stays_or(alloc, out, outcome)?;
    }
    Ok(())
}

/// Adds how a value is spelled.
fn push_value(alloc: Global, out: &mut Vec<u8>, value: &LentValue) -> Result<(), NoMemory>
    ensures { OnOk result (out.new.items ≡ out.old.items ++ value_text (lent value.now)) }
{
    match value {
        LentValue::Number(number) => push_decimal(out, u32::from(*number)),
        LentValue::Name(name) => out.extend_from_slice(name.as_bytes()),
        LentValue::Event(event) => out.extend_from_slice(event.name().as_bytes()),
        LentValue::Round(round) => push_decimal(out, u32::from(*round)),
        LentValue::Format(format) => out.extend_from_slice(format.name().as_bytes()),
        LentValue::Cutoff(cutoff) => push_cutoff(out, *cutoff),
        LentValue::Limit(limit) => push_limit(out, *limit),
        LentValue::Advance(advance) => push_advance(out, *advance),
        LentValue::Attempt(attempt) => push_decimal(out, u32::from(*attempt)),
        LentValue::Moves(moves) => push_moves(alloc, out, moves.as_slice()),
        LentValue::Outcome(outcome) => push_entered(alloc, out, outcome),
        LentValue::Edition(edition) => push_decimal(out, u32::from(*edition)),
        LentValue::Was(was) => push_was(out, was.as_slice()),
        LentValue::Now(now) => push_now(alloc, out, now.as_slice()),
    }
}

/// Adds values, with a space in front of each.
fn push_values(alloc: Global, out: &mut Vec<u8>, values: &[LentValue]) -> Result<(), NoMemory>
    ensures { OnOk result (out.new.items ≡ out.old.items ++ values_text (map lent values.now)) }
{
    for value in values {
        out.extend_from_slice(b" ")?;
        push_value(alloc, out, value)?;
    }
    Ok(())
}

/// The word of a tag.
fn word_of(tag: Tag) -> &'static [u8]
    ensures { result.now ≡ word_in (row_of tag) }
{
    match row_of(tag) {
        Some(row) => row.word,
        None => b"",
    }
}

/// The spelling of a command. `read` accepts it where the fields are in their ranges and it has at
/// most 600 bytes, which only moves can make it exceed. It is `NoMemory` only where a growth was
/// refused.
#[tactic(auto, using(crate::proofs::Rows::text_is))]
pub fn print(alloc: Global, command: &Command) -> Result<Vec<u8>, NoMemory>
    ensures { IfOk result (λ text. text.items ≡ spelling command.now) }
{
    let (tag, values) = parts(command);
    let mut text = Vec::from_slice(alloc, word_of(tag))?;
    push_values(alloc, &mut text, values.as_slice())?;
    Ok(text)
}

/// The spelling of a command with its remark. `read` accepts it where the fields are in their
/// ranges, the command may have this remark, and the text has at most 600 bytes. It is `NoMemory`
/// only where a growth was refused.
pub fn print_remarked(alloc: Global, told: &RemarkedCommand) -> Result<Vec<u8>, NoMemory>
    ensures { IfOk result (λ text. text.items ≡ told_spelling told.now) }
{
    let mut text = print(alloc, &told.command)?;
    if let Some(remark) = &told.remark {
        text.extend_from_slice(b" # ")?;
        text.extend_from_slice(remark.as_bytes())?;
    }
    Ok(text)
}
