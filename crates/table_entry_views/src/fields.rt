//! The fields of a card's form.

ghost use Rattle.std.specs.Prelude.{◌≡◌, ◌++◌, OnOk, flat_map};
ghost use Rattle.table_entry_views.specs.Fields.{beside_field, carried, competitor_of, field};
ghost use Rattle.table_entry_views.specs.Fields.{field_start, filled, inside, inside_by, name_if};
ghost use Rattle.table_entry_views.specs.Fields.{notes_of, number_field, number_text, own_text};
ghost use Rattle.table_entry_views.specs.Fields.{standing_of, typed_filled, who};

use crate::draft::Draft;
use crate::notes::{CardNote, push_field_end, push_said};
use acceptor::NoMemory;
use attempts::{Unit, Value, push_decimal};
use card_forms::{CardForm, TypedText, is_untouched, text_at};
use commands::Meet;
use markup::Piece::{Number, Text};
use markup::board_page::push_escaped;
use markup::fill;
use rounds::RoundTable;
use table_views::{number_of, push_name, push_shown, values_of};

const NUMBER_START: &[u8] = b"\
<div class=\"field\"><label for=\"number\">Competitor</label>\
<input id=\"number\" name=\"number\" autofocus value=\"";

/// The notes of a draft.
pub(crate) fn notes_of<'a>(draft: Draft<'a>) -> &'a [CardNote]
    ensures { result.now ≡ notes_of draft.entry }
{
    match draft {
        Draft::Empty | Draft::Number(_) => &[],
        Draft::Typed { notes, .. } => notes,
    }
}

/// The number of the competitor whose card it is, where it is one.
pub(crate) fn competitor_of(draft: Draft<'_>) -> Option<u16>
    ensures { result ≡ competitor_of draft.entry }
{
    match draft {
        Draft::Empty => None,
        Draft::Number(number) => Some(number),
        Draft::Typed { form, .. } => number_of(form.number.as_bytes()),
    }
}

/// The values that count of the competitor of a draft.
pub(crate) fn standing_of<'a>(table: &'a RoundTable, draft: Draft<'_>) -> &'a [Value]
    ensures { result.now ≡ standing_of table.now draft.entry }
{
    match competitor_of(draft) {
        Some(number) => values_of(table, number),
        None => &[],
    }
}

fn push_number_text(out: &mut Vec<u8>, draft: Draft<'_>) -> Result<(), NoMemory>
    ensures { OnOk result (out.new.items ≡ out.old.items ++ number_text draft.entry) }
{
    match draft {
        Draft::Empty => Ok(()),
        Draft::Number(number) => push_decimal(out, u32::from(number)),
        Draft::Typed { form, .. } => push_escaped(out, form.number.as_bytes()),
    }
}

/// The text of the field at a place, counted from 0: what was entered for its attempt, where that
/// counts and is known; empty elsewhere.
fn own_text<'a>(values: &[Value], texts: &'a [TypedText], place: usize) -> &'a [u8]
    ensures { result.now ≡ own_text values.now texts.now place }
{
    if place < values.len() {
        text_at(texts, place)
    } else {
        &[]
    }
}

/// Adds what fills a field in: its own text, where it has one, and else what counts.
fn push_inside_by(
    out: &mut Vec<u8>,
    values: &[Value],
    place: usize,
    unit: Unit,
    text: &[u8],
) -> Result<(), NoMemory>
    ensures { OnOk result (out.new.items
        ≡ out.old.items ++ inside_by unit values.now place text.now) }
{
    if text.is_empty() {
        push_shown(out, unit, values, place)
    } else {
        push_escaped(out, text)
    }
}

/// Adds what fills the field at a place in, counted from 0.
fn push_inside(
    out: &mut Vec<u8>,
    values: &[Value],
    texts: &[TypedText],
    place: usize,
    unit: Unit,
) -> Result<(), NoMemory>
    ensures { OnOk result (out.new.items
        ≡ out.old.items ++ inside unit values.now texts.now place) }
{
    push_inside_by(out, values, place, unit, own_text(values, texts, place))
}

/// Adds what was typed into the field at a place, counted from 0; what fills it in now, where the
/// field is as its page filled it in.
fn push_typed(
    out: &mut Vec<u8>,
    form: &CardForm,
    values: &[Value],
    texts: &[TypedText],
    place: usize,
    unit: Unit,
) -> Result<(), NoMemory>
    ensures { OnOk result (out.new.items
        ≡ out.old.items ++ typed_filled form.now unit values.now texts.now place) }
{
    let Some(text) = form.attempts.as_slice().get(place) else {
        return Ok(());
    };
    let alloc = *out.allocator();
    let before = form.filled.as_slice();
    if is_untouched(
        alloc,
        unit,
        form.was.as_slice(),
        before,
        place,
        text.as_bytes(),
    )? {
        push_inside(out, values, texts, place, unit)
    } else {
        push_escaped(out, text.as_bytes())
    }
}

/// Adds what an attempt's field is filled in with.
fn push_filled(
    out: &mut Vec<u8>,
    draft: Draft<'_>,
    values: &[Value],
    texts: &[TypedText],
    place: usize,
    unit: Unit,
) -> Result<(), NoMemory>
    ensures { OnOk result (out.new.items
        ≡ out.old.items ++ filled draft.entry unit values.now texts.now place) }
{
    match draft {
        Draft::Empty => Ok(()),
        Draft::Number(_) => push_inside(out, values, texts, place, unit),
        Draft::Typed { form, .. } => push_typed(out, form, values, texts, place, unit),
    }
}

const CARRIED: &[u8] = b"<input type=\"hidden\" name=\"f$\" value=\"$\">";

/// Adds the text that fills a field in, unseen, where it has its own.
fn push_carried(out: &mut Vec<u8>, attempt: u8, text: &[u8]) -> Result<(), NoMemory>
    ensures { OnOk result (out.new.items ≡ out.old.items ++ carried attempt text.now) }
{
    if text.is_empty() {
        return Ok(());
    }
    fill(out, CARRIED, &[Number(attempt as u64), Text(text)])
}

const FIELD_START: &[u8] = b"\
<p class=\"field\"><label for=\"a$\">$</label><input id=\"a$\" name=\"a$\" value=\"";

fn push_field_start(out: &mut Vec<u8>, attempt: u8) -> Result<(), NoMemory>
    ensures { OnOk result (out.new.items ≡ out.old.items ++ field_start attempt) }
{
    fill(
        out,
        FIELD_START,
        &[
            Number(attempt as u64),
            Number(attempt as u64),
            Number(attempt as u64),
            Number(attempt as u64),
        ],
    )
}

/// Adds what is beside the field of an attempt, 1 to 5, and what is said of it.
fn push_beside(
    out: &mut Vec<u8>,
    draft: Draft<'_>,
    values: &[Value],
    attempt: u8,
    unit: Unit,
) -> Result<(), NoMemory>
    ensures { OnOk result (out.new.items
        ≡ out.old.items ++ beside_field draft.entry unit values.now attempt) }
{
    let place = usize::from(attempt).saturating_sub(1);
    out.extend_from_slice(b"<output></output><span class=\"stands\">")?;
    push_shown(out, unit, values, place)?;
    out.extend_from_slice(b"</span>")?;
    push_said(out, attempt, notes_of(draft))?;
    out.extend_from_slice(b"</p>\n")?;
    Ok(())
}

/// Adds the field of an attempt, 1 to 5: what is filled in, what is beside it, and what is said of
/// it.
#[tactic(auto, unfolding(crate::specs::Fields::field))]
fn push_field(
    out: &mut Vec<u8>,
    draft: Draft<'_>,
    values: &[Value],
    texts: &[TypedText],
    attempt: u8,
    unit: Unit,
) -> Result<(), NoMemory>
    ensures { OnOk result (out.new.items
        ≡ out.old.items ++ field draft.entry unit values.now texts.now attempt) }
{
    let place = usize::from(attempt).saturating_sub(1);
    push_field_start(out, attempt)?;
    push_filled(out, draft, values, texts, place, unit)?;
    push_field_end(out, attempt, notes_of(draft))?;
    push_carried(out, attempt, own_text(values, texts, place))?;
    push_beside(out, draft, values, attempt, unit)?;
    Ok(())
}

/// Adds a field for each of these attempts.
pub(crate) fn push_fields(
    out: &mut Vec<u8>,
    draft: Draft<'_>,
    values: &[Value],
    texts: &[TypedText],
    attempts: &[u8],
    unit: Unit,
) -> Result<(), NoMemory>
    ensures { OnOk result (out.new.items ≡ out.old.items
        ++ flat_map (field draft.entry unit values.now texts.now) attempts.now) }
{
    for attempt in attempts {
        push_field(out, draft, values, texts, *attempt, unit)?;
    }
    Ok(())
}

/// Adds the name of a competitor, if there is one.
fn push_name_if(out: &mut Vec<u8>, meet: &Meet, number: Option<u16>) -> Result<(), NoMemory>
    ensures { OnOk result (out.new.items
        ≡ out.old.items ++ name_if meet.now.accepted number) }
{
    match number {
        Some(number) => push_name(out, meet, number),
        None => Ok(()),
    }
}

/// Adds the competitor's name, and where names that are found are listed.
fn push_who(out: &mut Vec<u8>, meet: &Meet, number: Option<u16>) -> Result<(), NoMemory>
    ensures { OnOk result (out.new.items ≡ out.old.items ++ who meet.now.accepted number) }
{
    out.extend_from_slice(b"<output id=\"who\"><bdi>")?;
    push_name_if(out, meet, number)?;
    out.extend_from_slice(b"</bdi></output><ul id=\"found\"></ul>")?;
    Ok(())
}

/// Adds the competitor's field.
pub(crate) fn push_number_field(
    out: &mut Vec<u8>,
    meet: &Meet,
    draft: Draft<'_>,
) -> Result<(), NoMemory>
    ensures { OnOk result (out.new.items
        ≡ out.old.items ++ number_field meet.now.accepted draft.entry) }
{
    out.extend_from_slice(NUMBER_START)?;
    push_number_text(out, draft)?;
    push_field_end(out, 0, notes_of(draft))?;
    push_who(out, meet, competitor_of(draft))?;
    push_said(out, 0, notes_of(draft))?;
    out.extend_from_slice(b"</div>\n")?;
    Ok(())
}
