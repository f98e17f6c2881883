//! Commands from their texts.

ghost use Rattle.std.specs.Prelude.{◌≡◌, ◌<◌, ◌≤◌, ◌↔◌, ◌+◌, true, false, Some, None, IfOk, OnErr};
ghost use Rattle.std.specs.{Prelude.nat_lt, Prelude.length, Prelude.Option, Option.option_copied};
ghost use Rattle.texts.specs.Spelling.{IsFitTold, standing, told_spelling};
ghost use Rattle.texts.specs.{Fields.cut, Reading.SpellsShort};
ghost use Rattle.texts.specs.Table.{is_rest_last, is_word, row_named};
ghost use Rattle.texts.specs.Reading.{Gives, kept_field, ReadsAs, value_of, field_of, next_of};
ghost use Rattle.texts.specs.Reading.{values_of, before_remark, with_remark, by_row, command_of};
ghost use Rattle.texts.specs.Reading.{ReadsWhatIsSpelled, SpellsWhatIsRead, SpellsOneCommand};
ghost use Rattle.texts.specs.model.Returned.{GivesNext, GivesRemark, GivesValues, TakesForValue};
ghost use Rattle.texts.specs.declared.command.RemarkedCommand.{RemarkedCommand as Told};
ghost use Rattle.texts.specs.declared.reading.CommandFault.TheVariants.{NoMemory as OutOfMemory};
ghost use Rattle.texts.specs.declared.value.FieldValue.TheVariants.{Name as NameOf};

use crate::command::{Command, Name, RemarkedCommand};
use crate::fields::{
    LAST_ATTEMPT, LAST_EDITION, LAST_NUMBER, advance_of, cut, cut_remark, cutoff_of, entered_of,
    limit_of, moves_of, now_of, was_of,
};
use crate::names::{is_clear_name, is_name, is_remark};
use crate::numbers::{u8_between, u16_between};
use crate::table::{FieldKind, row_named};
use crate::typed::command_of_values;
use crate::value::{FieldValue, Values};
use arrayvec::ArrayVec;
use cube::notation::NoMemory;
use formats::{Event, Format, LAST_ROUND};
use std::alloc::{AllocError, Global};

/// The most bytes of a command's text.
const MOST_TEXT: usize = 600;

/// Why a text is no command.
#[derive(Clone, Copy)]
pub enum CommandFault {
    /// The text has more than 600 bytes.
    TooLong,
    /// What is before the first space is no word of a command.
    NotACommand,
    /// The first field, from the left, that is missing or misspelt; or, where all are right, the
    /// one too many, or the remark, as the field after the last one.
    BadField { index: u8 },
    /// Memory ran out.
    NoMemory,
}

impl From<AllocError> for CommandFault {
    ghost from_gives = { λ _ e. e ≡ OutOfMemory };

    fn from(_e: AllocError) -> CommandFault {
        CommandFault::NoMemory
    }
}

/// A name of these bytes.
fn copied(alloc: Global, bytes: &[u8]) -> Result<FieldValue, NoMemory>
    ensures { IfOk result (λ v. v ≡ NameOf bytes.now) }
{
    let name = Vec::from_slice(alloc, bytes)?;
    Ok(FieldValue::Name(Name::new(name)))
}

#[tactic(auto, using(crate::proofs::Memory::name_takes), unfolding(crate::specs::Fields::name_of))]
fn name_value(alloc: Global, bytes: &[u8]) -> Result<Option<FieldValue>, NoMemory>
    ensures value { IfOk result (λ v. v ≡ value_of 0 FieldKind.Name bytes.now) }
    ensures memory { OnErr result
        (TakesForValue FieldKind.Name (value_of 0 FieldKind.Name bytes.now)) }
{
    if is_name(bytes) {
        Ok(Some(copied(alloc, bytes)?))
    } else {
        Ok(None)
    }
}

#[tactic(auto, using(crate::proofs::Memory::new_name_takes), unfolding(crate::specs::Fields::new_name_of))]
fn new_name_value(alloc: Global, bytes: &[u8]) -> Result<Option<FieldValue>, NoMemory>
    ensures value { IfOk result (λ v. v ≡ value_of 0 FieldKind.NewName bytes.now) }
    ensures memory { OnErr result
        (TakesForValue FieldKind.NewName (value_of 0 FieldKind.NewName bytes.now)) }
{
    if is_clear_name(bytes) {
        Ok(Some(copied(alloc, bytes)?))
    } else {
        Ok(None)
    }
}

#[tactic(auto, using(crate::proofs::Memory::moves_take))]
fn moves_value(alloc: Global, bytes: &[u8]) -> Result<Option<FieldValue>, NoMemory>
    ensures value { IfOk result (λ v. v ≡ value_of 0 FieldKind.Moves bytes.now) }
    ensures memory { OnErr result
        (TakesForValue FieldKind.Moves (value_of 0 FieldKind.Moves bytes.now)) }
{
    match moves_of(alloc, bytes)? {
        Some(moves) => Ok(Some(FieldValue::Moves(moves))),
        None => Ok(None),
    }
}

#[tactic(auto, using(crate::proofs::Memory::outcome_takes))]
fn outcome_value(alloc: Global, bytes: &[u8]) -> Result<Option<FieldValue>, NoMemory>
    ensures value { IfOk result (λ v. v ≡ value_of 0 FieldKind.Outcome bytes.now) }
    ensures memory { OnErr result
        (TakesForValue FieldKind.Outcome (value_of 0 FieldKind.Outcome bytes.now)) }
{
    match entered_of(alloc, bytes)? {
        Some(outcome) => Ok(Some(FieldValue::Outcome(outcome))),
        None => Ok(None),
    }
}

#[tactic(auto, using(crate::proofs::Memory::was_takes))]
fn was_value(alloc: Global, bytes: &[u8]) -> Result<Option<FieldValue>, NoMemory>
    ensures value { IfOk result (λ v. v ≡ value_of 0 FieldKind.Was bytes.now) }
    ensures memory { OnErr result
        (TakesForValue FieldKind.Was (value_of 0 FieldKind.Was bytes.now)) }
{
    match was_of(alloc, bytes)? {
        Some(was) => Ok(Some(FieldValue::Was(was))),
        None => Ok(None),
    }
}

#[tactic(auto, using(crate::proofs::Memory::now_takes))]
fn now_value(alloc: Global, stands: usize, bytes: &[u8]) -> Result<Option<FieldValue>, NoMemory>
    ensures value { IfOk result (λ v. v ≡ value_of stands FieldKind.Now bytes.now) }
    ensures memory { OnErr result
        (TakesForValue FieldKind.Now (value_of stands FieldKind.Now bytes.now)) }
{
    match now_of(alloc, stands, bytes)? {
        Some(now) => Ok(Some(FieldValue::Now(now))),
        None => Ok(None),
    }
}

/// The value that bytes spell, where they spell one of a kind, and this many attempts count.
fn value_of(
    alloc: Global,
    stands: usize,
    kind: FieldKind,
    bytes: &[u8],
) -> Result<Option<FieldValue>, NoMemory>
    ensures value { IfOk result (λ v. v ≡ value_of stands kind bytes.now) }
    ensures memory { OnErr result (TakesForValue kind (value_of stands kind bytes.now)) }
{
    match kind {
        FieldKind::Number => match u16_between(1, LAST_NUMBER, bytes) {
            Some(number) => Ok(Some(FieldValue::Number(number))),
            None => Ok(None),
        },
        FieldKind::Name => name_value(alloc, bytes),
        FieldKind::NewName => new_name_value(alloc, bytes),
        FieldKind::Event => match Event::from_name(bytes) {
            Some(event) => Ok(Some(FieldValue::Event(event))),
            None => Ok(None),
        },
        FieldKind::Round => match u8_between(1, LAST_ROUND, bytes) {
            Some(round) => Ok(Some(FieldValue::Round(round))),
            None => Ok(None),
        },
        FieldKind::Format => match Format::from_name(bytes) {
            Some(format) => Ok(Some(FieldValue::Format(format))),
            None => Ok(None),
        },
        FieldKind::Cutoff => match cutoff_of(bytes) {
            Some(cutoff) => Ok(Some(FieldValue::Cutoff(cutoff))),
            None => Ok(None),
        },
        FieldKind::Limit => match limit_of(bytes) {
            Some(limit) => Ok(Some(FieldValue::Limit(limit))),
            None => Ok(None),
        },
        FieldKind::Advance => match advance_of(bytes) {
            Some(advance) => Ok(Some(FieldValue::Advance(advance))),
            None => Ok(None),
        },
        FieldKind::Attempt => match u8_between(1, LAST_ATTEMPT, bytes) {
            Some(attempt) => Ok(Some(FieldValue::Attempt(attempt))),
            None => Ok(None),
        },
        FieldKind::Moves => moves_value(alloc, bytes),
        FieldKind::Outcome => outcome_value(alloc, bytes),
        FieldKind::Edition => match u8_between(2, LAST_EDITION, bytes) {
            Some(edition) => Ok(Some(FieldValue::Edition(edition))),
            None => Ok(None),
        },
        FieldKind::Was => was_value(alloc, bytes),
        FieldKind::Now => now_value(alloc, stands, bytes),
    }
}

/// The bytes of a field that is in front, and what is left after it.
fn field_of(kind: FieldKind, bytes: &[u8]) -> (&[u8], Option<&[u8]>)
    ensures { (result.0.now, option_copied result.1) ≡ field_of kind bytes.now }
{
    if kind.is_rest() {
        (bytes, None)
    } else {
        cut(bytes, b' ')
    }
}

/// The next field, and what is left after it.
#[tactic(auto, using(crate::proofs::Memory::next_takes))]
fn next_of(
    alloc: Global,
    stands: usize,
    kind: FieldKind,
    index: u8,
    left: Option<&[u8]>,
) -> Result<(FieldValue, Option<&[u8]>), CommandFault>
    ensures { GivesNext kind index result (next_of stands kind index (option_copied left.entry)) }
{
    let bytes = left.ok_or(CommandFault::BadField { index })?;
    let (bytes, left) = field_of(kind, bytes);
    let value = value_of(alloc, stands, kind, bytes)?.ok_or(CommandFault::BadField { index })?;
    Ok((value, left))
}

/// How many attempts count by a value that says what they count, or else as many as were said
/// before.
fn standing(stands: usize, value: &FieldValue) -> usize
    ensures { result ≡ standing stands value.now }
{
    match value {
        FieldValue::Was(was) => was.as_slice().len(),
        _ => stands,
    }
}

/// The values of fields of these kinds; or the first fault from the left.
fn values_of(
    alloc: Global,
    kinds: &[FieldKind],
    left: Option<&[u8]>,
) -> Result<Values, CommandFault>
    requires few { length kinds.now ≤ 6 }
    requires last { is_rest_last kinds.now ≡ true }
    ensures { GivesValues (λ vs. vs.items) kinds.now result
        (values_of 0 kinds.now 1 (option_copied left.entry)) }
{
    let mut values = ArrayVec::new();
    let mut stands = 0;
    let mut ahead = left;
    let mut index = 1;
    for kind in kinds {
        let next = next_of(alloc, stands, *kind, index, ahead)?;
        let (value, rest) = next;
        stands = standing(stands, &value);
        values.push(value);
        ahead = rest;
        index += 1;
    }
    match ahead {
        Some(_) => Err(CommandFault::BadField { index }),
        None => Ok(values),
    }
}

/// What is left of a text before its remark, and the remark, where the text may have one.
fn before_remark(takes_remark: bool, left: Option<&[u8]>) -> (Option<&[u8]>, Option<&[u8]>)
    ensures { (option_copied result.0, option_copied result.1)
        ≡ before_remark takes_remark (option_copied left.entry) }
{
    match left {
        Some(bytes) if takes_remark => {
            let (front, remark) = cut_remark(bytes);
            (Some(front), remark)
        }
        _ => (left, None),
    }
}

/// The index of the field after these.
fn index_after(kinds: &[FieldKind]) -> u8
    requires few { length kinds.now ≤ 6 }
    ensures { result ≡ length kinds.now + 1 }
{
    kinds.len() as u8 + 1
}

/// A command with its remark, which is the field with this index.
fn with_remark(
    alloc: Global,
    index: u8,
    remark: Option<&[u8]>,
    command: Command,
) -> Result<RemarkedCommand, CommandFault>
    ensures { GivesRemark result (with_remark index (option_copied remark.entry) command) }
{
    let remark = match remark {
        None => None,
        Some(bytes) => {
            if !is_remark(bytes) {
                return Err(CommandFault::BadField { index });
            }
            Some(Name::new(Vec::from_slice(alloc, bytes)?))
        }
    };
    Ok(RemarkedCommand { command, remark })
}

/// The command of a word and what is left after it.
fn command_of_word(
    alloc: Global,
    word: &[u8],
    left: Option<&[u8]>,
) -> Result<RemarkedCommand, CommandFault>
    ensures { Gives (kept_field word.now) result
        (by_row (row_named word.now) (option_copied left.entry)) }
{
    let row = row_named(word).ok_or(CommandFault::NotACommand)?;
    let (front, remark) = before_remark(row.takes_remark, left);
    let values = values_of(alloc, row.fields, front)?;
    let index = index_after(row.fields);
    match command_of_values(row.tag, values) {
        Some(command) => with_remark(alloc, index, remark, command),
        None => Err(CommandFault::NotACommand),
    }
}

/// Whether a text has more than 600 bytes.
fn is_too_long(text: &[u8]) -> bool
    ensures { result ≡ nat_lt 600 (length text.now) }
{
    text.len() > MOST_TEXT
}

/// The command that a text spells, with its remark: a word and its fields, parted by one space
/// each, and a remark after ` # `, where the command may have one; of at most 600 bytes in all. The
/// spellings are those of all editions, and [`is_spelled_in`](crate::is_spelled_in) says which
/// edition has which of them. The faults are in the order of `CommandFault`; that of a remark is
/// the field after the last one. Memory is taken for a name, for moves, for a scorecard and for a
/// remark.
pub fn read(alloc: Global, text: &[u8]) -> Result<RemarkedCommand, CommandFault>
    ensures value { Gives (kept_field (cut 32 text.now).0) result (command_of text.now) }

    ensures too_long { (result ≡ Err CommandFault.TooLong) ↔ (600 < length text.now) }
    ensures not_a_command { (result ≡ Err CommandFault.NotACommand)
        ↔ ((length text.now ≤ 600) × (is_word (cut 32 text.now).0 ≡ false)) }

    // Exactly the spellings of commands whose fields are in their ranges are read.
    ensures found { (c : Told) → IsFitTold c → text.now ≡ told_spelling c → ReadsAs result c }
    ensures only { IfOk result (λ c. IsFitTold c × (text.now ≡ told_spelling c)) }
{
    if is_too_long(text) {
        return Err(CommandFault::TooLong);
    }
    let (word, left) = cut(text, b' ');
    command_of_word(alloc, word, left)
}

/// The laws of reading and spelling: a command in its ranges, with a remark where it may have one,
/// is read from its spelling; what is read from a text is such a command, whose spelling is that
/// text; a text spells at most one command; and the spelling of a command in its ranges has at most
/// 600 bytes.
pub fn one_spelling()
    ensures found { ReadsWhatIsSpelled }
    ensures only { SpellsWhatIsRead }
    ensures once { SpellsOneCommand }
    ensures short { SpellsShort }
{}
