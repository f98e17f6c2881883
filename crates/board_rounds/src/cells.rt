//! What counts of an entrant, cell by cell.

ghost use Rattle.std.specs.Prelude.{◌≡◌, ◌++◌, IfOk, OnOk, decimal};
ghost use Rattle.formats.specs.Results.{best_of};
ghost use Rattle.sheets.specs.Sheet.{best_text};
ghost use Rattle.board_rounds.specs.Rows.{attempt_cells, attempt_words, cell, in_parentheses};
ghost use Rattle.board_rounds.specs.Rows.{line_start, mark_end, mark_words, name_cell};
ghost use Rattle.board_rounds.specs.Rows.{person_cells, place_words, result_cells};

use crate::counting::is_left_out;
use attempts::{NoMemory, Unit, Value, print_value, push_decimal};
use formats::{Advance, Averaged, Format, print_average};
use markup::Piece::{Number, Text};
use markup::fill;
use std::alloc::Global;

/// Adds a cell with a text that HTML reads as it is.
#[tactic(auto, unfolding(crate::specs::Rows::cell))]
pub fn push_cell(out: &mut Vec<u8>, text: &[u8]) -> Result<(), NoMemory>
    ensures { OnOk result (out.new.items ≡ out.old.items ++ cell text.now) }
{
    out.extend_from_slice(b"<td>")?;
    out.extend_from_slice(text)?;
    out.extend_from_slice(b"</td>")
}

/// A place, where there is an attempt.
pub(crate) fn place_text(alloc: Global, place: u16, values: &[Value]) -> Result<Vec<u8>, NoMemory>
    ensures { IfOk result (λ text. text.items ≡ place_words place values.now) }
{
    let mut text = Vec::new(alloc);
    if values.is_empty() {
        return Ok(text);
    }
    push_decimal(&mut text, u32::from(place))?;
    Ok(text)
}

/// The best value, or `-` where there is no attempt.
pub fn best_text(
    alloc: Global,
    values: &[Value],
    best: Value,
    unit: Unit,
) -> Result<Vec<u8>, NoMemory>
    requires { best ≡ best_of values.now }
    ensures { IfOk result (λ text. text.items ≡ best_text unit values.now) }
{
    if values.is_empty() {
        Vec::from_slice(alloc, b"-")
    } else {
        print_value(alloc, best, unit)
    }
}

/// A text, or the same in parentheses.
fn in_parentheses(alloc: Global, left_out: bool, text: Vec<u8>) -> Result<Vec<u8>, NoMemory>
    ensures { IfOk result (λ made. made.items ≡ in_parentheses left_out text.items) }
{
    if !left_out {
        return Ok(text);
    }
    let mut made = Vec::from_slice(alloc, b"(")?;
    made.extend_from_slice(&text)?;
    made.extend_from_slice(b")")?;
    Ok(made)
}

/// The attempt at a place, counted from 0, or `-` where it is not there.
pub(crate) fn attempt_text(
    alloc: Global,
    format: Format,
    values: &[Value],
    place: usize,
    unit: Unit,
) -> Result<Vec<u8>, NoMemory>
    ensures { IfOk result (λ text. text.items ≡ attempt_words unit format values.now place) }
{
    match values.get(place) {
        Some(value) => {
            let text = print_value(alloc, *value, unit)?;
            in_parentheses(alloc, is_left_out(format, values, place, *value), text)
        }
        None => Vec::from_slice(alloc, b"-"),
    }
}

/// What is said of whether an entrant advances.
fn mark_words(through: bool, advance: Advance, closed: bool) -> &'static str
    ensures { result.now ≡ mark_words through advance closed }
{
    match (through, closed) {
        (true, true) => "yes",
        (true, false) => "would advance",
        (false, false) => "",
        (false, true) => match advance {
            Advance::Final => "",
            Advance::Top(_) | Advance::Percent(_) => "no",
        },
    }
}

/// Adds the beginning of a line.
pub(crate) fn push_line_start(
    out: &mut Vec<u8>,
    through: bool,
    closed: bool,
) -> Result<(), NoMemory>
    ensures { OnOk result (out.new.items ≡ out.old.items ++ line_start through closed) }
{
    match (through, closed) {
        (true, true) => out.extend_from_slice(b"<tr class=\"yes\">"),
        (true, false) => out.extend_from_slice(b"<tr class=\"would\">"),
        (false, _) => out.extend_from_slice(b"<tr class=\"no\">"),
    }
}

const NAME: &[u8] = b"<th scope=\"row\" dir=\"auto\"><a href=\"/person/$\">$</a></th>";

#[tactic(auto, unfolding(crate::specs::Rows::name_cell))]
pub(crate) fn push_name(out: &mut Vec<u8>, number: u16, name: &[u8]) -> Result<(), NoMemory>
    ensures { OnOk result (out.new.items ≡ out.old.items ++ name_cell number name.now) }
{
    fill(out, NAME, &[Number(number as u64), Text(name)])
}

/// Adds a cell with a number, in decimal.
#[tactic(auto, unfolding(crate::specs::Rows::cell))]
pub fn push_number(out: &mut Vec<u8>, number: u16) -> Result<(), NoMemory>
    ensures { OnOk result (out.new.items ≡ out.old.items ++ cell (decimal number)) }
{
    out.extend_from_slice(b"<td>")?;
    push_decimal(out, u32::from(number))?;
    out.extend_from_slice(b"</td>")
}

/// Adds the place, the number and the name of an entrant.
pub(crate) fn push_person_cells(
    out: &mut Vec<u8>,
    place: u16,
    number: u16,
    name: &[u8],
    values: &[Value],
) -> Result<(), NoMemory>
    ensures { OnOk result (out.new.items ≡ out.old.items
        ++ person_cells place number name.now values.now) }
{
    let place = place_text(*out.allocator(), place, values)?;
    push_cell(out, &place)?;
    push_number(out, number)?;
    push_name(out, number, name)
}

/// Adds the average and the best of an entrant, as the sheet has them.
pub fn push_results(
    out: &mut Vec<u8>,
    average: Averaged,
    best: Value,
    values: &[Value],
    unit: Unit,
) -> Result<(), NoMemory>
    requires { best ≡ best_of values.now }
    ensures { OnOk result (out.new.items ≡ out.old.items
        ++ result_cells unit average values.now) }
{
    let average = print_average(*out.allocator(), average, unit)?;
    let best = best_text(*out.allocator(), values, best, unit)?;
    push_cell(out, &average)?;
    push_cell(out, &best)
}

/// Adds a cell for each attempt of the format.
pub(crate) fn push_attempts(
    out: &mut Vec<u8>,
    format: Format,
    values: &[Value],
    count: u8,
    unit: Unit,
) -> Result<(), NoMemory>
    ensures { OnOk result (out.new.items ≡ out.old.items
        ++ attempt_cells unit format values.now count) }
{
    for place in 0..count {
        let text = attempt_text(*out.allocator(), format, values, place as usize, unit)?;
        push_cell(out, &text)?;
    }
    Ok(())
}

/// Adds whether an entrant advances, and ends the line.
pub(crate) fn push_mark(
    out: &mut Vec<u8>,
    through: bool,
    advance: Advance,
    closed: bool,
) -> Result<(), NoMemory>
    ensures { OnOk result (out.new.items ≡ out.old.items
        ++ mark_end through advance closed) }
{
    push_cell(out, mark_words(through, advance, closed).as_bytes())?;
    out.extend_from_slice(b"</tr>\n")
}
