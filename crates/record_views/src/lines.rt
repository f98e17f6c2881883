//! The line of an entrant, with what is a personal record.

ghost use Rattle.std.specs.Prelude.{◌≡◌, ◌++◌, OnOk, option_map};
ghost use Rattle.serde_json.specs.View.{view};
ghost use Rattle.formats.specs.Results.{averaged_number, best_of as least_of, number_of};
ghost use Rattle.record_views.specs.Records.{country, is_record, line, mark};

use attempts::{NoMemory, Value as Attempt};
use board_rounds::best_text;
use competition_file::{ResultKind, best_of};
use formats::{Averaged, Event, print_average, unit_of};
use markup::Piece::{Html, Number, Text};
use markup::fill;
use rounds::EntrantRow;
use serde_json::Value;
use wcif::text_under;

/// A line: the number twice, country, name, and a mark and a result of each kind.
const LINE: &[u8] = b"\
<tr data-number=\"$\"><td>$</td><td>$</td><th scope=\"row\" dir=\"auto\">$</th>\
<td$>$</td><td$>$</td></tr>
";

/// Whether a result of a kind in an event is as good as the best that the file has of a person, or
/// the first one: neither where the file does not have the person, nor where there is no result.
fn is_record(event: Event, kind: ResultKind, person: Option<&Value>, number: Option<u32>) -> bool
    ensures { result ≡ is_record event kind (option_map (λ p. view p.now) person.entry) number }
{
    let (Some(person), Some(number)) = (person, number) else {
        return false;
    };
    match best_of(person, event, kind) {
        Some(best) => number <= best,
        None => true,
    }
}

/// The class of a cell, by which the style and scripts know a personal record.
fn mark(is_record: bool) -> &'static [u8]
    ensures { result.now ≡ mark is_record }
{
    if is_record { b" class=\"pr\"" } else { b"" }
}

/// The number of a value that is one.
fn number_of(value: Attempt) -> Option<u32>
    ensures { result ≡ number_of value }
{
    match value {
        Attempt::Number(number) => Some(number),
        Attempt::Dnf | Attempt::Dns => None,
    }
}

/// The number of an average that is one.
fn averaged_number(average: Averaged) -> Option<u32>
    ensures { result ≡ averaged_number average }
{
    match average {
        Averaged::Number(number) => Some(number),
        Averaged::Dnf | Averaged::Missing => None,
    }
}

/// The letters of a person's country; the empty text where there is no person.
fn country(person: Option<&Value>) -> &[u8]
    ensures { result.now ≡ country (option_map (λ p. view p.now) person.entry) }
{
    match person {
        Some(person) => text_under(person, "countryIso2").as_bytes(),
        None => b"",
    }
}

/// Adds the line of an entrant: number, the country of the person in the file, the name in the
/// list, and the best single and the average so far, as a sheet has them.
pub(crate) fn push_line<'a>(
    out: &mut Vec<u8>,
    event: Event,
    number: u16,
    name: &'a [u8],
    person: Option<&'a Value>,
    row: EntrantRow<'a>,
) -> Result<(), NoMemory>
    requires { row.best ≡ least_of row.values.now }
    ensures { OnOk result (out.new.items
        ≡ out.old.items ++ line event number name.now (option_map (λ p. view p.now) person.entry)
        row.entry.average row.entry.values.now) }
{
    let alloc = *out.allocator();
    let unit = unit_of(event);
    let single = best_text(alloc, row.values, row.best, unit)?;
    let average = print_average(alloc, row.average, unit)?;
    let is_best = is_record(event, ResultKind::Single, person, number_of(row.best));
    let is_best_average = is_record(
        event,
        ResultKind::Average,
        person,
        averaged_number(row.average),
    );
    let pieces = [
        Number(number as u64),
        Number(number as u64),
        Text(country(person)),
        Text(name),
        Html(mark(is_best)),
        Html(&single),
        Html(mark(is_best_average)),
        Html(&average),
    ];
    fill(out, LINE, &pieces)
}
