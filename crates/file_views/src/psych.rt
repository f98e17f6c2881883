//! Who is registered for an event, in order of their bests, as a section of a page.

ghost use Rattle.std.specs.Prelude.{◌≡◌, ◌++◌, map, option_map, slice_get, IfOk, OnOk};
ghost use Rattle.std.specs.List.Sorted.{IsSortedByKey};
ghost use Rattle.std.specs.Ordering.{nat_cmp};
ghost use Rattle.serde_json.specs.View.{view};
ghost use Rattle.markup.specs.Pieces.{piece_text};
ghost use Rattle.competition_file.specs.Files.{data_of};
ghost use Rattle.file_views.specs.Psych.{PushesPsych, best_in, best_words, inside, key, line};
ghost use Rattle.file_views.specs.Psych.{line_of, lines, main_kind, number_words, psych_section};
ghost use Rattle.file_views.specs.Psych.{rank_words};

use crate::psych_rows::{PsychRow, best, main_kind, other_kind, rank, ranked_rows};
use attempts::{NoMemory, Value as Attempt, print_value};
use competition_file::{CompetitionFile, ResultKind, kind_name};
use formats::{Averaged, Event, print_average, unit_of};
use markup::{Piece, fill};
use round_words::event_words;
use serde_json::Value;
use std::alloc::Global;
use wcif::{given_name, text_under};

/// The section: the event, the two kinds of bests, and the lines.
const SECTION: &[u8] = b"\
<section class=\"people\"><table><caption><h2>$</h2>by the competition's file</caption>
<thead><tr><th scope=\"col\">rank</th><th scope=\"col\">country</th><th scope=\"col\">name</th>\
<th scope=\"col\">$</th><th scope=\"col\">$</th><th scope=\"col\">WCA ID</th></tr></thead><tbody>
$</tbody></table></section>
";

/// A line: rank, country, name, both bests, and WCA ID.
const LINE: &[u8] = b"\
<tr><td>$</td><td>$</td><th scope=\"row\" dir=\"auto\">$</th><td>$</td><td>$</td><td>$</td></tr>
";

const NOBODY: &[u8] = b"<tr><td colspan=\"6\">Nobody is registered.</td></tr>\n";

/// A number of a kind as a sheet has it.
fn number_words(
    alloc: Global,
    event: Event,
    kind: ResultKind,
    number: u32,
) -> Result<Vec<u8>, NoMemory>
    ensures { IfOk result (λ text. text.items ≡ number_words event kind number) }
{
    match kind {
        ResultKind::Single => print_value(alloc, Attempt::Number(number), unit_of(event)),
        ResultKind::Average => print_average(alloc, Averaged::Number(number), unit_of(event)),
    }
}

/// A best as a sheet has it; nothing where there is none.
fn best_words(
    alloc: Global,
    event: Event,
    kind: ResultKind,
    best: Option<u32>,
) -> Result<Vec<u8>, NoMemory>
    ensures { IfOk result (λ text. text.items ≡ best_words event kind best) }
{
    match best {
        Some(number) => number_words(alloc, event, kind, number),
        None => Ok(Vec::new(alloc)),
    }
}

fn rank_piece(rank: Option<u64>) -> Piece<'static>
    ensures { piece_text result ≡ rank_words rank }
{
    match rank {
        Some(number) => Piece::Number(number),
        None => Piece::Html(b""),
    }
}

/// The person at a place, counted from 0.
fn person_at(persons: &[Value], place: usize) -> Option<&Value>
    ensures { option_map (λ person. person.now) result ≡ slice_get persons.now place }
{
    persons.get(place)
}

/// Adds the line of a person of this rank with these bests.
fn push_line<'a>(
    out: &mut Vec<u8>,
    rank: Option<u64>,
    person: &'a Value,
    main: &'a [u8],
    other: &'a [u8],
) -> Result<(), NoMemory>
    ensures { OnOk result (out.new.items
        ≡ out.old.items ++ line rank (view person.now) main.now other.now) }
{
    let country = Piece::Text(text_under(person, "countryIso2").as_bytes());
    let name = Piece::Text(given_name(person).as_bytes());
    let id = Piece::Text(text_under(person, "wcaId").as_bytes());
    let pieces = [
        rank_piece(rank),
        country,
        name,
        Piece::Html(main),
        Piece::Html(other),
        id,
    ];
    fill(out, LINE, &pieces)
}

/// The best of a kind of a row as a sheet has it.
fn best_in(
    alloc: Global,
    event: Event,
    kind: ResultKind,
    row: PsychRow,
) -> Result<Vec<u8>, NoMemory>
    ensures { IfOk result (λ text. text.items ≡ best_in event kind row) }
{
    best_words(alloc, event, kind, best(kind, row))
}

/// Adds the line of a row among these.
#[tactic(auto, using(crate::proofs::Viewed::viewed_at))]
fn push_row(
    out: &mut Vec<u8>,
    event: Event,
    persons: &[Value],
    rows: &[PsychRow],
    row: PsychRow,
) -> Result<(), NoMemory>
    requires { IsSortedByKey (key (main_kind event)) nat_cmp rows.now }
    ensures { OnOk result (out.new.items
        ≡ out.old.items ++ line_of event (map view persons.now) rows.now row) }
{
    let Some(person) = person_at(persons, row.place) else {
        return Ok(());
    };
    let alloc = *out.allocator();
    let kind = main_kind(event);
    let main = best_in(alloc, event, kind, row)?;
    let other = best_in(alloc, event, other_kind(kind), row)?;
    push_line(out, rank(kind, rows, row), person, &main, &other)
}

/// The lines of all rows.
fn lines(
    alloc: Global,
    event: Event,
    persons: &[Value],
    rows: &[PsychRow],
) -> Result<Vec<u8>, NoMemory>
    requires { IsSortedByKey (key (main_kind event)) nat_cmp rows.now }
    ensures { IfOk result (λ text. text.items ≡ lines event (map view persons.now) rows.now) }
{
    let mut text = Vec::new(alloc);
    for row in rows {
        push_row(&mut text, event, persons, rows, *row)?;
    }
    Ok(text)
}

/// The lines, or that there is none.
#[tactic(auto, unfolding(crate::specs::Psych::inside))]
fn inside(shown: &[u8]) -> &[u8]
    ensures { result.now ≡ inside shown.now }
{
    if shown.is_empty() {
        return NOBODY;
    }
    shown
}

/// Adds the section of an event with these lines.
fn push_section(out: &mut Vec<u8>, event: Event, shown: &[u8]) -> Result<(), NoMemory>
    ensures { OnOk result (out.new.items ≡ out.old.items ++ psych_section event shown.now) }
{
    let kind = main_kind(event);
    let pieces = [
        Piece::Html(event_words(event).as_bytes()),
        Piece::Html(kind_name(kind).as_bytes()),
        Piece::Html(kind_name(other_kind(kind)).as_bytes()),
        Piece::Html(inside(shown)),
    ];
    fill(out, SECTION, &pieces)
}

/// Adds the section of an event.
pub(crate) fn push_psych(
    out: &mut Vec<u8>,
    file: &CompetitionFile,
    event: Event,
) -> Result<(), NoMemory>
    ensures { OnOk result (PushesPsych (data_of file.now) event out.old.items out.new.items) }
{
    let alloc = *out.allocator();
    let persons = file.persons();
    let ranked = ranked_rows(alloc, persons, event)?;
    let shown = lines(alloc, event, persons, &ranked)?;
    push_section(out, event, &shown)?;
    Ok(())
}
