//! How far an entrant has come.

ghost use Rattle.std.specs.Prelude.{◌≡◌};
ghost use Rattle.rounds.specs.Tables.{allotted, is_below, meets};
ghost use Rattle.round_counts.specs.Counts.{progress_in, progress_with};

use attempts::Value;
use formats::{Format, attempts_of};
use rounds::RoundTable;

/// How far an entrant has come.
#[derive(Clone, Copy, Debug, PartialEq, Eq)]
pub enum Progress {
    /// No attempt is done.
    Absent,
    /// Some of the allotted attempts are done, and not all.
    Begun,
    /// All allotted attempts are done.
    Done,
}

/// Whether a value is a number below a border.
fn is_below(border: u32, value: Value) -> bool
    ensures { result ≡ is_below border value }
{
    match value {
        Value::Number(number) => number < border,
        Value::Dnf | Value::Dns => false,
    }
}

/// Whether one of the first values is below a border.
fn meets(values: &[Value], attempts: u8, border: u32) -> bool
    ensures { result ≡ meets (attempts, border) values.now }
{
    values
        .iter()
        .take(usize::from(attempts))
        .any(|value| is_below(border, *value))
}

/// How many attempts an entrant with these values is allotted: under a cutoff that is not met as
/// many as the cutoff says, and else all of the format (WCA Regulations, article 9g).
pub fn allotted(format: Format, cutoff: Option<(u8, u32)>, values: &[Value]) -> u8
    ensures { result ≡ allotted format cutoff values.now }
{
    match cutoff {
        Some((attempts, border)) => {
            if meets(values, attempts, border) {
                attempts_of(format)
            } else {
                attempts
            }
        }
        None => attempts_of(format),
    }
}

/// How far these values are.
fn progress_with(format: Format, cutoff: Option<(u8, u32)>, values: &[Value]) -> Progress
    ensures { result ≡ progress_with format cutoff values.now }
{
    if values.is_empty() {
        Progress::Absent
    } else if values.len() < usize::from(allotted(format, cutoff, values)) {
        Progress::Begun
    } else {
        Progress::Done
    }
}

/// How far an entrant of a round of this format has come; a number that is no entrant's is Absent.
pub fn progress_of(table: &RoundTable, format: Format, number: u16) -> Progress
    ensures { result ≡ progress_in format table.now number }
{
    match table.row(number) {
        Some(row) => progress_with(format, table.cutoff(), row.values),
        None => Progress::Absent,
    }
}
