//! How far all entrants have come.

ghost use Rattle.std.specs.Prelude.{◌≡◌, count_by, filter, length, IfOk};
ghost use Rattle.rounds.specs.Tables.{standings};
ghost use Rattle.round_counts.specs.Counts.{counts, has_progress};

use crate::progress::{Progress, progress_of};
use attempts::NoMemory;
use formats::Format;
use rounds::RoundTable;
use std::alloc::Global;

/// How many entrants a round has, and how many of them have come how far.
#[derive(Clone, Copy, Debug, PartialEq, Eq)]
pub struct Counts {
    pub entrants: usize,
    pub absent: usize,
    pub begun: usize,
    pub done: usize,
}

/// How many of these have come so far.
fn count_with(table: &RoundTable, format: Format, progress: Progress, numbers: &[u16]) -> usize
    ensures { result ≡ count_by (has_progress format table.now progress) numbers.now }
{
    numbers
        .iter()
        .filter(|number| progress_of(table, format, **number) == progress)
        .count()
}

/// The counts of a round of this format.
pub fn counts_of(table: &RoundTable, format: Format) -> Result<Counts, NoMemory>
    ensures { IfOk result (λ counted. counted ≡ counts format table.now) }
{
    let numbers = table.standings()?;
    Ok(Counts {
        entrants: numbers.len(),
        absent: count_with(table, format, Progress::Absent, &numbers),
        begun: count_with(table, format, Progress::Begun, &numbers),
        done: count_with(table, format, Progress::Done, &numbers),
    })
}

/// The numbers of the entrants who have come so far, in order of place.
pub fn numbers_with(
    alloc: Global,
    table: &RoundTable,
    format: Format,
    progress: Progress,
) -> Result<Vec<u16>, NoMemory>
    ensures { IfOk result (λ numbers.
        numbers.items ≡ filter (has_progress format table.now progress) (standings table.now)) }
{
    let numbers = table.standings()?;
    numbers
        .iter()
        .copied()
        .filter(|number| progress_of(table, format, *number) == progress)
        .collect(alloc)
}
