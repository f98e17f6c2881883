//! Which of five attempts do not count for their average.

ghost use Rattle.std.specs.Prelude.{◌≡◌, ◌<◌, length};
ghost use Rattle.std.specs.List.{list_all, list_any};
ghost use Rattle.board_rounds.specs.Counting.{beats, is_first_best, is_last_worst, is_left_out};

use attempts::Value;
use formats::Format;

/// Whether a value is a number that is less than another one, or beside one that is none.
fn beats(value: Value, other: Value) -> bool
    ensures { result ≡ beats value other }
{
    match (value, other) {
        (Value::Number(number), Value::Number(other)) => number < other,
        (Value::Number(_), Value::Dnf | Value::Dns) => true,
        (Value::Dnf | Value::Dns, _) => false,
    }
}

/// Whether one of these values beats another one.
fn is_beaten(values: &[Value], value: Value) -> bool
    ensures { result ≡ list_any (λ other. beats other value) values.now }
{
    values.iter().any(|other| beats(*other, value))
}

/// Whether a value beats one of these.
fn beats_any(values: &[Value], value: Value) -> bool
    ensures { result ≡ list_any (λ other. beats value other) values.now }
{
    values.iter().any(|other| beats(value, *other))
}

/// Whether a value beats all of these.
fn beats_all(values: &[Value], value: Value) -> bool
    ensures { result ≡ list_all (λ other. beats value other) values.now }
{
    values.iter().all(|other| beats(value, *other))
}

/// Whether all of these values beat another one.
fn is_beaten_by_all(values: &[Value], value: Value) -> bool
    ensures { result ≡ list_all (λ other. beats other value) values.now }
{
    values.iter().all(|other| beats(*other, value))
}

fn is_first_best(values: &[Value], place: usize, value: Value) -> bool
    requires { place < length values.now }
    ensures { result ≡ is_first_best values.now place value }
{
    !is_beaten(values, value) && beats_all(&values[..place], value)
}

fn is_last_worst(values: &[Value], place: usize, value: Value) -> bool
    requires { place < length values.now }
    ensures { result ≡ is_last_worst values.now place value }
{
    !beats_any(values, value) && is_beaten_by_all(&values[place + 1..], value)
}

/// Whether an attempt, counted from 0, does not count for the average (WCA Regulations, article
/// 9f8): of five attempts the best one, and the worst one.
pub(crate) fn is_left_out(format: Format, values: &[Value], place: usize, value: Value) -> bool
    requires { place < length values.now }
    ensures { result ≡ is_left_out format values.now place value }
{
    match format {
        Format::Ao5 => {
            values.len() == 5
                && (is_first_best(values, place, value) || is_last_worst(values, place, value))
        }
        Format::Mo3 | Format::Bo1 | Format::Bo2 | Format::Bo3 => false,
    }
}
