//! Competitors, and the rounds that one of them is in, in HTML.

ghost use Rattle.std.specs.Prelude.{◌≡◌, ◌<◌, ◌≤◌, ◌++◌, OnOk, IfOk, flat_map};
ghost use Rattle.board_rounds.specs.Persons.{attempts_words, competitor, round_cell, state_end};
ghost use Rattle.board_rounds.specs.{Persons.competitors, Persons.entry, model.Shown.entry_shown};
ghost use Rattle.board_rounds.specs.Persons.{people, next_competitor, person_of, person_start};
ghost use Rattle.round_words.specs.Words.{round_name, round_words};

use crate::cells::{attempt_text, place_text, push_cell, push_name, push_number, push_results};
use crate::rounds_shown::push_below;
use crate::shown::{BoardRound, shown_round};
use attempts::{NoMemory, Unit, Value};
use commands::Meet;
use formats::{Advance, Format, attempts_of, unit_of};
use markup::Piece::{Number, Text};
use markup::fill;
use round_words::{push_round_name, push_round_words, state_words};
use std::alloc::Global;
use texts::RoundId;

/// The greatest number of a competitor.
const LAST_NUMBER: u16 = 9_999;

/// What is above the lines of all competitors.
const PEOPLE: &[u8] = b"\
<section class=\"people\"><table><caption><h2>Competitors</h2></caption>
<thead><tr><th scope=\"col\">number</th><th scope=\"col\">name</th></tr></thead><tbody>
";

fn push_round_cell(out: &mut Vec<u8>, id: RoundId, advance: Advance) -> Result<(), NoMemory>
    ensures { OnOk result (out.new.items ≡ out.old.items
        ++ round_cell (round_name id) (round_words id advance)) }
{
    out.extend_from_slice(b"<tr><th scope=\"row\"><a href=\"/")?;
    push_round_name(out, id)?;
    out.extend_from_slice(b"\">")?;
    push_round_words(out, id, advance)?;
    out.extend_from_slice(b"</a></th>")?;
    Ok(())
}

/// The attempts of an entrant, one after the other.
fn attempts_text(
    alloc: Global,
    format: Format,
    values: &[Value],
    count: u8,
    unit: Unit,
) -> Result<Vec<u8>, NoMemory>
    ensures { IfOk result (λ text. text.items ≡ attempts_words unit format values.now count) }
{
    let mut text = Vec::new(alloc);
    for place in 0..count {
        let attempt = attempt_text(alloc, format, values, place as usize, unit)?;
        text.extend_from_slice(b" ")?;
        text.extend_from_slice(&attempt)?;
    }
    Ok(text)
}

fn push_state(out: &mut Vec<u8>, closed: bool, advance: Advance) -> Result<(), NoMemory>
    ensures { OnOk result (out.new.items ≡ out.old.items
        ++ state_end closed advance) }
{
    push_cell(out, state_words(closed, advance).as_bytes())?;
    out.extend_from_slice(b"</tr>\n")
}

/// Adds a round that a competitor is in.
fn push_shown_entry(out: &mut Vec<u8>, shown: BoardRound<'_>, number: u16) -> Result<(), NoMemory>
    ensures { OnOk result (out.new.items ≡ out.old.items ++ entry_shown shown.entry number) }
{
    let Some(row) = shown.table.row(number) else {
        return Ok(());
    };
    let alloc = *out.allocator();
    let format = shown.settings.format;
    let unit = unit_of(shown.id.event);
    let count = attempts_of(format);
    let place = place_text(alloc, row.place, row.values)?;
    let attempts = attempts_text(alloc, format, row.values, count, unit)?;
    let closed = shown.table.is_closed();
    push_round_cell(out, shown.id, shown.settings.advance)?;
    push_cell(out, &place)?;
    push_results(out, row.average, row.best, row.values, unit)?;
    push_cell(out, &attempts)?;
    push_state(out, closed, shown.settings.advance)?;
    Ok(())
}

fn push_entry(out: &mut Vec<u8>, meet: &Meet, number: u16, id: RoundId) -> Result<(), NoMemory>
    ensures { OnOk result (out.new.items ≡ out.old.items ++ entry meet.now.accepted number id) }
{
    let Some(shown) = shown_round(meet, id) else {
        return Ok(());
    };
    push_shown_entry(out, shown, number)
}

fn push_entries(
    out: &mut Vec<u8>,
    meet: &Meet,
    number: u16,
    ids: &[RoundId],
) -> Result<(), NoMemory>
    ensures { OnOk result (out.new.items ≡ out.old.items
        ++ flat_map (entry meet.now.accepted number) ids.now) }
{
    for id in ids {
        push_entry(out, meet, number, *id)?;
    }
    Ok(())
}

const START: &[u8] = b"\
<section class=\"person\"><table><caption><h2><bdi>$</bdi>, number $</h2></caption>
<thead><tr><th scope=\"col\">round</th><th scope=\"col\">place</th><th scope=\"col\">average</th>\
<th scope=\"col\">best</th><th scope=\"col\">attempts</th><th scope=\"col\">state</th></tr></thead>\
<tbody>
";

#[tactic(auto, unfolding(crate::specs::Persons::person_start))]
fn push_start(out: &mut Vec<u8>, number: u16, name: &[u8]) -> Result<(), NoMemory>
    ensures { OnOk result (out.new.items ≡ out.old.items ++ person_start number name.now) }
{
    fill(out, START, &[Text(name), Number(number as u64)])
}

/// Adds a competitor of a meet in HTML, as it is after this many commands: name and number, and
/// each of these rounds that the competitor is in, with the place, the results and how far the
/// round is. It adds nothing where the number is not registered.
///
/// # Errors
///
/// Where memory runs out. A front part may have been added then.
#[tactic(auto, unfolding(crate::specs::Persons::person))]
pub fn push_person(
    out: &mut Vec<u8>,
    meet: &Meet,
    position: u32,
    number: u16,
    ids: &[RoundId],
) -> Result<(), NoMemory>
    ensures { OnOk result (out.new.items ≡ out.old.items
        ++ person_of meet.now.accepted position number ids.now) }
{
    let Some(name) = meet.name(number) else {
        return Ok(());
    };
    push_start(out, number, name)?;
    push_entries(out, meet, number, ids)?;
    push_below(out, position)
}

fn push_competitor(out: &mut Vec<u8>, number: u16, name: &[u8]) -> Result<(), NoMemory>
    ensures { OnOk result (out.new.items ≡ out.old.items ++ competitor number name.now) }
{
    out.extend_from_slice(b"<tr>")?;
    push_number(out, number)?;
    push_name(out, number, name)?;
    out.extend_from_slice(b"</tr>\n")
}

/// Adds the competitor of the number after this one, where it is registered.
fn push_next_competitor(out: &mut Vec<u8>, meet: &Meet, number: u16) -> Result<(), NoMemory>
    requires { number < 9999 }
    ensures { OnOk result (out.new.items
        ≡ out.old.items ++ next_competitor meet.now.accepted number) }
{
    match meet.name(number + 1) {
        Some(name) => push_competitor(out, number + 1, name),
        None => Ok(()),
    }
}

/// Adds the competitors whose numbers are up to this one.
#[tactic(auto, unfolding(crate::specs::Persons::competitors))]
fn push_competitors(out: &mut Vec<u8>, meet: &Meet, last: u16) -> Result<(), NoMemory>
    requires { last ≤ 9999 }
    ensures { OnOk result (out.new.items
        ≡ out.old.items ++ competitors meet.now.accepted last) }
{
    for number in 0..last {
        push_next_competitor(out, meet, number)?;
    }
    Ok(())
}

/// Adds all competitors of a meet in HTML, as it is after this many commands, in order of their
/// numbers: each number and name, which is a link to the competitor's own page, `/person/17`.
///
/// # Errors
///
/// Where memory runs out. A front part may have been added then.
#[tactic(auto, unfolding(crate::specs::Persons::people))]
pub fn push_people(out: &mut Vec<u8>, meet: &Meet, position: u32) -> Result<(), NoMemory>
    ensures { OnOk result (out.new.items ≡ out.old.items ++ people meet.now.accepted position) }
{
    out.extend_from_slice(PEOPLE)?;
    push_competitors(out, meet, LAST_NUMBER)?;
    push_below(out, position)
}
