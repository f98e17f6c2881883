//! How many attempts an entrant may do (WCA Regulations, article 9g), and who has started.

ghost use Rattle.std.specs.Prelude.{◌≡◌, ◌≤◌};
ghost use Rattle.std.specs.List.{list_any};
ghost use Rattle.rounds.specs.Tables.{IsCutoff, meets, allotted, loses_cutoff, is_started_attempt};

use attempts::Value;
use formats::{Format, attempts_of};

/// Whether one of the first attempts is a number below the border.
fn meets(values: &[Value], attempts: u8, border: u32) -> bool
    ensures { result ≡ meets (attempts, border) values.now }
{
    values
        .iter()
        .take(usize::from(attempts))
        .any(|value| match *value {
            Value::Number(number) => number < border,
            Value::Dnf | Value::Dns => false,
        })
}

/// How many attempts an entrant with these values may do.
pub(crate) fn allotted(format: Format, cutoff: Option<(u8, u32)>, values: &[Value]) -> u8
    requires { IsCutoff format cutoff }
    ensures value { result ≡ allotted format cutoff values.now }
    ensures few { result ≤ 5 }
{
    match cutoff {
        Some((attempts, border)) if !meets(values, attempts, border) => attempts,
        _ => attempts_of(format),
    }
}

/// Whether more attempts count than the cutoff's, though these values don't meet it.
pub(crate) fn loses_cutoff(cutoff: Option<(u8, u32)>, values: &[Value]) -> bool
    ensures { result ≡ loses_cutoff cutoff values.now }
{
    match cutoff {
        Some((attempts, border)) => {
            values.len() > usize::from(attempts) && !meets(values, attempts, border)
        }
        None => false,
    }
}

/// Whether an attempt is not DNS.
pub(crate) fn has_started(values: &[Value]) -> bool
    ensures { result ≡ list_any is_started_attempt values.now }
{
    values.iter().any(|value| match value {
        Value::Number(_) | Value::Dnf => true,
        Value::Dns => false,
    })
}
