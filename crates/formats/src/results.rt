//! What a competitor's values make: the best, the average, and the order by them.

ghost use Rattle.std.specs.Prelude.{◌≡◌, ◌≤◌, ◌↔◌, IsTrue, IfOk, All, length, sum};
ghost use Rattle.attempts.specs.Attempts.{IsInRangeOf};
ghost use Rattle.formats.specs.Results.{number_of, greatest, third_of, IsFormatOf, is_better};
ghost use Rattle.formats.specs.Results.{numbers, least, best_of, trimmed, mean_of, key_of, is_less};
ghost use Rattle.formats.specs.Results.{averaged_number, average_of, average_text, moves_text};

use crate::events::Format;
use attempts::{NoMemory, Unit, Value, print_value, push_decimal, push_two_digits};
use std::alloc::Global;

/// The average or the mean of a competitor's attempts.
#[derive(Clone, Copy, Debug, PartialEq, Eq)]
pub enum Averaged {
    /// Hundredths of a second, or hundredths of a move.
    Number(u32),
    /// Too many attempts are no number.
    Dnf,
    /// Not all attempts are there, or the format has none.
    Missing,
}

/// What a competitor is ranked by. None is worse than any number.
#[derive(Clone, Copy, Debug, PartialEq, Eq)]
pub struct RankKey {
    /// The average in the formats that have one, in hundredths of a second or of a move; otherwise
    /// the best, in what the event's `Unit` counts.
    pub main: Option<u32>,
    /// The best in the formats with an average, in what the event's `Unit` counts; otherwise None.
    pub tie: Option<u32>,
}

/// The number of a value that is one.
fn number_of(value: Value) -> Option<u32>
    ensures { result ≡ number_of value }
{
    match value {
        Value::Number(number) => Some(number),
        Value::Dnf | Value::Dns => None,
    }
}

/// The least of the numbers.
fn least(values: &[Value]) -> Option<u32>
    ensures { result ≡ least (numbers values.now) }
{
    values.iter().filter_map(|value| number_of(*value)).min()
}

/// The greatest of the numbers.
fn greatest(values: &[Value]) -> Option<u32>
    ensures { result ≡ greatest (numbers values.now) }
{
    values.iter().filter_map(|value| number_of(*value)).max()
}

/// How many of the values are numbers.
fn count(values: &[Value]) -> usize
    ensures { result ≡ length (numbers values.now) }
{
    values.iter().filter_map(|value| number_of(*value)).count()
}

/// The least number. Without one it is DNF where a DNF is there, else DNS.
pub fn best(values: &[Value]) -> Value
    ensures { result ≡ best_of values.now }
{
    match least(values) {
        Some(number) => Value::Number(number),
        None if values.contains(&Value::Dnf) => Value::Dnf,
        None => Value::Dns,
    }
}

/// Whether a is a number and b is a greater one or none.
fn is_less(a: Option<u32>, b: Option<u32>) -> bool
    ensures { result ≡ is_less a b }
{
    match (a, b) {
        (Some(a), Some(b)) => a < b,
        (Some(_), None) => true,
        (None, _) => false,
    }
}

/// Whether a competitor with the first key is ranked before one with the second (WCA Regulations,
/// article 9f): by the main number, and equal ones by the tie. Keys without a number are equal.
pub fn better(a: RankKey, b: RankKey) -> bool
    ensures { result ≡ is_better a b }
{
    is_less(a.main, b.main) || a.main == b.main && is_less(a.tie, b.tie)
}

/// A third of a sum of three: of times to the hundredth, above ten minutes to the second, of moves
/// to the hundredth of a move, each time a half up. In multi-blind nothing is averaged.
fn third_of(sum: u32, unit: Unit) -> u32
    requires { sum ≤ 10000000 }
    ensures { result ≡ third_of unit sum }
{
    match unit {
        Unit::Time if sum <= 180_000 => (2 * sum + 3) / 6,
        Unit::Time => (sum + 150) / 300 * 100,
        Unit::Moves => (200 * sum + 3) / 6,
        Unit::Multi => 0,
    }
}

/// The sum of the numbers.
fn sum(values: &[Value]) -> u32
    requires { sum (numbers values.now) ≤ 10000000 }
    ensures { result ≡ sum (numbers values.now) }
{
    let mut total = 0;
    for value in values {
        if let Some(number) = number_of(*value) {
            total += number;
        }
    }
    total
}

/// The average of five attempts: the mean of those without the best and the worst. One that is no
/// number counts as the worst; with more the average is DNF.
fn trimmed(values: &[Value], unit: Unit) -> Averaged
    requires { sum (numbers values.now) ≤ 10000000 }
    ensures value { result ≡ trimmed unit (numbers values.now) }
{
    let rest = sum(values).saturating_sub(least(values).unwrap_or(0));
    match count(values) {
        5 => {
            let middle = rest.saturating_sub(greatest(values).unwrap_or(0));
            Averaged::Number(third_of(middle, unit))
        }
        4 => Averaged::Number(third_of(rest, unit)),
        _ => Averaged::Dnf,
    }
}

/// The mean of three attempts. One that is no number makes it DNF.
fn mean(values: &[Value], unit: Unit) -> Averaged
    requires { sum (numbers values.now) ≤ 10000000 }
    ensures value { result ≡ mean_of unit (numbers values.now) }
{
    if count(values) == 3 {
        Averaged::Number(third_of(sum(values), unit))
    } else {
        Averaged::Dnf
    }
}

/// Whether a round of this unit may have the format: in multi-blind, where nothing is averaged, the
/// best-of formats alone.
pub fn is_format_of(unit: Unit, format: Format) -> bool
    ensures { IsTrue result ↔ IsFormatOf unit format }
{
    match (unit, format) {
        (Unit::Multi, Format::Ao5 | Format::Mo3) => false,
        (Unit::Multi, Format::Bo1 | Format::Bo2 | Format::Bo3) => true,
        (Unit::Time | Unit::Moves, _) => true,
    }
}

/// The average of an ao5, or the mean of an mo3 (WCA Regulations, article 9f).
///
/// It is Missing until all attempts of the format are there, and in the best-of formats, which are
/// those of multi-blind. Times are in hundredths of a second, above ten minutes in whole seconds;
/// moves are in hundredths of a move. The format has to be one of the unit (`is_format_of`), and
/// each value in the range of the unit (`attempts::in_range_of`).
pub fn average(format: Format, unit: Unit, values: &[Value]) -> Averaged
    requires format { IsFormatOf unit format }
    requires in_range { All (IsInRangeOf unit) values.now }
    ensures { result ≡ average_of format unit values.now }
{
    match format {
        Format::Ao5 if values.len() == 5 => trimmed(values, unit),
        Format::Mo3 if values.len() == 3 => mean(values, unit),
        _ => Averaged::Missing,
    }
}

/// What a competitor with these values is ranked by: in ao5 and mo3 the average and then the best,
/// otherwise the best alone. The format has to be one of the unit (`is_format_of`), and each value
/// in the range of the unit (`attempts::in_range_of`).
pub fn key(format: Format, unit: Unit, values: &[Value]) -> RankKey
    requires format { IsFormatOf unit format }
    requires in_range { All (IsInRangeOf unit) values.now }
    ensures { result ≡ key_of format unit values.now }
{
    match format {
        Format::Ao5 | Format::Mo3 => RankKey {
            main: averaged_number(average(format, unit, values)),
            tie: number_of(best(values)),
        },
        Format::Bo1 | Format::Bo2 | Format::Bo3 => RankKey {
            main: number_of(best(values)),
            tie: None,
        },
    }
}

/// The number of an average that is one.
fn averaged_number(average: Averaged) -> Option<u32>
    ensures { result ≡ averaged_number average }
{
    match average {
        Averaged::Number(number) => Some(number),
        Averaged::Dnf | Averaged::Missing => None,
    }
}

/// An average as a sheet has it, or `NoMemory` where its text finds none.
///
/// A time is printed as a value is, moves as whole moves, a point and two digits (`25.67`). The
/// others are `DNF`, and `-` where there is none, as always in multi-blind.
pub fn print_average(alloc: Global, average: Averaged, unit: Unit) -> Result<Vec<u8>, NoMemory>
    ensures { IfOk result (λ text. text.items ≡ average_text unit average) }
{
    match average {
        Averaged::Number(number) => match unit {
            Unit::Time | Unit::Multi => print_value(alloc, Value::Number(number), unit),
            Unit::Moves => print_hundredths(alloc, number),
        },
        Averaged::Dnf => Vec::from_slice(alloc, b"DNF"),
        Averaged::Missing => Vec::from_slice(alloc, b"-"),
    }
}

/// Hundredths of a move as whole moves, a point and two digits.
fn print_hundredths(alloc: Global, hundredths: u32) -> Result<Vec<u8>, NoMemory>
    ensures { IfOk result (λ text. text.items ≡ moves_text hundredths) }
{
    let mut text = Vec::new(alloc);
    push_decimal(&mut text, hundredths / 100)?;
    text.push(b'.')?;
    push_two_digits(&mut text, hundredths % 100)?;
    Ok(text)
}
