//! The editions of the commands.

ghost use Rattle.std.specs.Prelude.{◌≡◌, fold, map};
ghost use Rattle.std.specs.List.{list_all};
ghost use Rattle.texts.specs.Editions.{entered_edition, is_named_in, is_spelled_in, later_by};
ghost use Rattle.texts.specs.{Editions.remark_edition, Parts.lent, WorkedTexts.ReadsWorkedTexts};
ghost use Rattle.texts.specs.Table.{row_of, since_in};

use crate::command::{Entered, RemarkedCommand};
use crate::names::is_name_in;
use crate::parts::parts;
use crate::table::{Tag, row_of};
use crate::value::LentValue;

/// The first edition that has an outcome.
fn entered_edition(outcome: &Entered) -> u8
    ensures { result ≡ entered_edition outcome.now }
{
    match outcome {
        Entered::Multi { .. } => 2,
        Entered::Time { .. } | Entered::Solution { .. } | Entered::Dnf | Entered::Dns => 1,
    }
}

/// The later one of an edition and the first that has a value, but for names.
fn later_by(edition: u8, value: &LentValue) -> u8
    ensures { result ≡ later_by edition (lent value.now) }
{
    match value {
        LentValue::Event(event) => edition.max(event.edition()),
        LentValue::Outcome(outcome) => edition.max(entered_edition(outcome)),
        _ => edition,
    }
}

/// The greatest of an edition and the first ones that have values, but for names.
fn latest_of(edition: u8, values: &[LentValue]) -> u8
    ensures { result ≡ fold later_by edition (map lent values.now) }
{
    let mut latest = edition;
    for value in values {
        latest = later_by(latest, value);
    }
    latest
}

/// The edition since which a command is.
fn since_of(tag: Tag) -> u8
    ensures { result ≡ since_in (row_of tag) }
{
    match row_of(tag) {
        Some(row) => row.since,
        None => 0,
    }
}

/// Whether an edition spells a value, where it is a name.
fn is_named_in(edition: u8, value: &LentValue) -> bool
    ensures { result ≡ is_named_in edition (lent value.now) }
{
    match value {
        LentValue::Name(name) => is_name_in(edition, name.as_bytes()),
        _ => true,
    }
}

/// Whether an edition spells the names among values.
fn are_named_in(edition: u8, values: &[LentValue]) -> bool
    ensures { result ≡ list_all (is_named_in edition) (map lent values.now) }
{
    for value in values {
        if !is_named_in(edition, value) {
            return false;
        }
    }
    true
}

/// The first edition that has a command with a remark, or with none.
fn remark_edition(has_remark: bool) -> u8
    ensures { result ≡ remark_edition has_remark }
{
    if has_remark { 4 } else { 1 }
}

/// Whether an edition has a spelling of a command with its remark. Each command came with the
/// edition of its row, the event `333mbf` and the outcome `M:` with edition 2, remarks with edition
/// 4. A name of more than 80 bytes is spelled from edition 3 on; one with a double quote, or with a
/// character that is not seen, in editions 1 and 2 alone. `EDITION 2` to `EDITION 4` are spelled in
/// each.
pub fn is_spelled_in(edition: u8, told: &RemarkedCommand) -> bool
    ensures { result ≡ is_spelled_in edition told.now }
{
    let (tag, values) = parts(&told.command);
    let values = values.as_slice();
    are_named_in(edition, values)
        && latest_of(since_of(tag), values) <= edition
        && remark_edition(told.remark.is_some()) <= edition
}

/// A law: worked texts, with one of each kind of field at least, are read and spelled as they are
/// by hand, and came with the edition that they should; some are no commands, and have the fault
/// that they should have.
pub fn worked_texts()
    ensures { ReadsWorkedTexts }
{}
