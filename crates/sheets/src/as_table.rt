//! The sheet as a table of comma-separated values.

ghost use Rattle.std.specs.Prelude.{◌≡◌, ◌∷◌, [], IfOk, OnOk, IfErr, Some, map, decimal, flat_map};
ghost use Rattle.std.specs.List.{range_with_len};
ghost use Rattle.csv.specs.Writing.{row_text, default_writer};
ghost use Rattle.csv.specs.Records.{fields_of, partial_of};
ghost use Rattle.formats.specs.Results.{best_of};
ghost use Rattle.sheets.specs.Sheet.{attempt_text, yes_or_no, header, result_fields, table_sheet};
ghost use Rattle.sheets.specs.{Faults.NoSheet, model.Shown.table_shown};
ghost use Rattle.sheets.specs.model.Output.{AddsFields, IsReady, Adds, held};
ghost use Rattle.sheets.specs.model.Shown.{IsOpened, TellsShown, fields_shown, record_shown};

use crate::shown::{
    SheetRound, attempt_text, best_text, decimal_text, is_marked, name_text, shown_round,
};
use crate::{AdvancingEntrants, SheetFault};
use attempts::{NoMemory, Unit, Value};
use commands::Meet;
use csv::{ByteRecord, Writer};
use formats::{Event, attempts_of, print_average, unit_of};
use rounds::EntrantRow;
use std::alloc::Global;

/// Adds a field.
fn push_field(fields: &mut ByteRecord, text: &[u8]) -> Result<(), NoMemory>
    requires { partial_of fields.old ≡ [] }
    ensures { OnOk result (AddsFields fields.old fields.new (text.now ∷ [])) }
{
    fields.push_field(text)
}

/// Adds the names of the attempts' columns: 1, 2, and so on.
fn push_attempt_names(fields: &mut ByteRecord, alloc: Global, count: u8) -> Result<(), NoMemory>
    requires { partial_of fields.old ≡ [] }
    ensures { OnOk result
        (AddsFields fields.old fields.new (map decimal (range_with_len 1 count))) }
{
    for place in 0..count {
        let digits = decimal_text(alloc, u32::from(place) + 1)?;
        push_field(fields, &digits)?;
    }
    Ok(())
}

/// The names of the columns.
fn header(alloc: Global, count: u8) -> Result<ByteRecord, NoMemory>
    ensures { IfOk result (λ fields. fields_of fields ≡ header count) }
{
    let mut fields = ByteRecord::new(alloc);
    push_field(&mut fields, b"place")?;
    push_field(&mut fields, b"number")?;
    push_field(&mut fields, b"name")?;
    push_field(&mut fields, b"average")?;
    push_field(&mut fields, b"best")?;
    push_attempt_names(&mut fields, alloc, count)?;
    push_field(&mut fields, b"advances")?;
    Ok(fields)
}

/// Adds the attempts, a field for each of the format.
fn push_attempts(
    fields: &mut ByteRecord,
    alloc: Global,
    values: &[Value],
    count: u8,
    unit: Unit,
) -> Result<(), NoMemory>
    requires { partial_of fields.old ≡ [] }
    ensures { OnOk result (AddsFields fields.old fields.new
        (map (attempt_text unit values.now) (range_with_len 0 count))) }
{
    for place in 0..count {
        let text = attempt_text(alloc, values, place as usize, unit)?;
        push_field(fields, &text)?;
    }
    Ok(())
}

/// Adds whether an entrant advances.
fn push_advances(fields: &mut ByteRecord, marked: bool) -> Result<(), NoMemory>
    requires { partial_of fields.old ≡ [] }
    ensures { OnOk result (AddsFields fields.old fields.new (yes_or_no marked ∷ [])) }
{
    if marked {
        push_field(fields, b"yes")
    } else {
        push_field(fields, b"no")
    }
}

/// Adds the place, the number and the name of an entrant.
fn push_person(
    fields: &mut ByteRecord,
    alloc: Global,
    place: u16,
    number: u16,
    name: &[u8],
) -> Result<(), NoMemory>
    requires { partial_of fields.old ≡ [] }
    ensures { OnOk result
        (AddsFields fields.old fields.new (decimal place ∷ decimal number ∷ name.now ∷ [])) }
{
    let place = decimal_text(alloc, u32::from(place))?;
    push_field(fields, &place)?;
    let digits = decimal_text(alloc, u32::from(number))?;
    push_field(fields, &digits)?;
    push_field(fields, name)
}

/// Adds the average and the best of an entrant.
fn push_results(
    fields: &mut ByteRecord,
    alloc: Global,
    row: EntrantRow<'_>,
    unit: Unit,
) -> Result<(), NoMemory>
    requires best { row.best ≡ best_of row.values.now }
    requires whole { partial_of fields.old ≡ [] }
    ensures { OnOk result (AddsFields fields.old fields.new
        (result_fields unit row.entry.average row.entry.values.now)) }
{
    let average = print_average(alloc, row.average, unit)?;
    push_field(fields, &average)?;
    let best = best_text(alloc, row.values, row.best, unit)?;
    push_field(fields, &best)
}

/// The fields of an entrant.
fn entrant_fields(
    alloc: Global,
    shown: SheetRound<'_>,
    row: EntrantRow<'_>,
    number: u16,
    marked: bool,
) -> Result<ByteRecord, NoMemory>
    requires { row.best ≡ best_of row.values.now }
    ensures { IfOk result
        (λ fields. fields_of fields ≡ fields_shown shown.entry row.entry number marked) }
{
    let unit = unit_of(shown.event);
    let count = attempts_of(shown.settings.format);
    let mut fields = ByteRecord::new(alloc);
    push_person(
        &mut fields,
        alloc,
        row.place,
        number,
        name_text(shown.meet, number),
    )?;
    push_results(&mut fields, alloc, row, unit)?;
    push_attempts(&mut fields, alloc, row.values, count, unit)?;
    push_advances(&mut fields, marked)?;
    Ok(fields)
}

/// Why a table is not written: memory ran out. The writer writes to memory, so that it fails only
/// where a growth is refused. `csv` has other faults, of lengths, texts and values. None of them
/// comes, since records of bytes are written, each of as many fields as the header; no clause of
/// `csv` says so.
fn cause_of(_any: csv::Error) -> NoMemory {
    NoMemory
}

/// Writes a record.
fn write_record(writer: &mut Writer<Vec<u8>>, fields: &ByteRecord) -> Result<(), NoMemory>
    requires { IsReady writer.old }
    ensures { OnOk result (Adds writer.old writer.new
        (row_text default_writer (fields_of fields.now))) }
{
    match writer.write_byte_record(fields) {
        Ok(()) => Ok(()),
        Err(error) => Err(cause_of(error)),
    }
}

/// Writes the record of the entrant with a number.
fn write_entrant(
    writer: &mut Writer<Vec<u8>>,
    alloc: Global,
    shown: SheetRound<'_>,
    going_on: &AdvancingEntrants,
    number: u16,
) -> Result<(), NoMemory>
    requires ready { IsReady writer.old }
    requires who { TellsShown shown going_on.now }
    ensures { OnOk result (Adds writer.old writer.new (record_shown shown.entry number)) }
{
    let Some(row) = shown.table.row(number) else {
        return Ok(());
    };
    let marked = is_marked(shown, going_on, number, row);
    let fields = entrant_fields(alloc, shown, row, number, marked)?;
    write_record(writer, &fields)
}

/// Writes a record for each of these numbers.
fn write_entrants(
    writer: &mut Writer<Vec<u8>>,
    alloc: Global,
    shown: SheetRound<'_>,
    going_on: &AdvancingEntrants,
    numbers: &[u16],
) -> Result<(), NoMemory>
    requires ready { IsReady writer.old }
    requires who { TellsShown shown going_on.now }
    ensures { OnOk result
        (Adds writer.old writer.new (flat_map (record_shown shown.entry) numbers.now)) }
{
    for number in numbers {
        write_entrant(writer, alloc, shown, going_on, *number)?;
    }
    Ok(())
}

/// The text that a writer over memory holds.
fn text_held(writer: Writer<Vec<u8>>) -> Result<Vec<u8>, NoMemory>
    ensures { IfOk result (λ text. text.items ≡ held writer) }
{
    match writer.into_inner() {
        Ok(text) => Ok(text),
        Err(failed) => Err(cause_of(failed.into_error())),
    }
}

/// The table of a round.
fn table_of(alloc: Global, shown: SheetRound<'_>) -> Result<Vec<u8>, NoMemory>
    requires { IsOpened shown }
    ensures { IfOk result (λ text. text.items ≡ table_shown shown.entry) }
{
    let numbers = shown.table.standings()?;
    let going_on = AdvancingEntrants::from_round(alloc, shown.meet, shown.event, shown.round)?;
    let names = header(alloc, attempts_of(shown.settings.format))?;
    let mut writer = Writer::from_writer(Vec::new(alloc));
    write_record(&mut writer, &names)?;
    write_entrants(&mut writer, alloc, shown, &going_on, &numbers)?;
    text_held(writer)
}

/// The result sheet of a round as comma-separated values, a line feed after each record.
///
/// The header names the columns: place, number, name, average, best, one for each attempt of the
/// format, and advances. Then each entrant has a record, in order of place, and at one place in
/// order of entry, with the texts of the sheet that [`text`](crate::text) gives, without their
/// padding; advances is `yes` once the round is closed and the competitor advances, else `no`. A
/// name with a comma or a double quote is in double quotes, its own ones doubled. The position is
/// not shown.
///
/// # Errors
///
/// - `NoSuchRound` where no accepted command opened the round.
/// - `NoMemory` where memory ran out.
pub fn table(
    alloc: Global,
    meet: &Meet,
    event: Event,
    round: u8,
    _position: u32,
) -> Result<Vec<u8>, SheetFault>
    ensures sheet { IfOk result (λ text. table_sheet meet.now.accepted event round
        ≡ Some text.items) }
    ensures none { IfErr result (λ e. NoSheet e (table_sheet meet.now.accepted event round)) }
{
    let Some(shown) = shown_round(meet, event, round) else {
        return Err(SheetFault::NoSuchRound);
    };
    match table_of(alloc, shown) {
        Ok(text) => Ok(text),
        Err(NoMemory) => Err(SheetFault::NoMemory),
    }
}
