//! Values as a sheet has them.

ghost use Rattle.std.specs.Prelude.{◌≡◌, ◌+◌, ◌<◌, ◌++◌, IfOk, OnOk, OnErr, decimal, length};
ghost use Rattle.std.specs.Prelude.{vec_len, vec_capacity};
ghost use Rattle.attempts.specs.Texts.{time_text, two_digits, multi_text, solved_in, attempted_in};
ghost use Rattle.attempts.specs.Texts.{seconds_in, value_text};

use crate::{NoMemory, Unit, Value};
use itoa::Buffer;
use std::alloc::Global;

/// Adds a number in decimal. Where memory is wanting, the text stays as it was.
pub fn push_decimal(out: &mut Vec<u8>, number: u32) -> Result<(), NoMemory>
    ensures ok { OnOk result (out.new.items ≡ out.old.items ++ decimal number) }
    ensures err { OnErr result (out.new.items ≡ out.old.items) }
    ensures full { OnErr result (vec_capacity out.old < vec_len out.old + length (decimal number)) }
{
    let mut buffer = Buffer::new();
    out.extend_from_slice(buffer.format(number).as_bytes())
}

/// Adds the last two decimal digits of a number. Where memory is wanting, the text stays as it was.
pub fn push_two_digits(out: &mut Vec<u8>, number: u32) -> Result<(), NoMemory>
    ensures ok { OnOk result (out.new.items ≡ out.old.items ++ two_digits number) }
    ensures err { OnErr result (out.new.items ≡ out.old.items) }
    ensures full { OnErr result (vec_capacity out.old < vec_len out.old + 2) }
{
    let tens = b'0' + (number / 10 % 10) as u8;
    let ones = b'0' + (number % 10) as u8;
    out.extend_from_slice(&[tens, ones])
}

/// Adds hundredths as seconds, or from a minute on as minutes and seconds.
fn push_time(out: &mut Vec<u8>, hundredths: u32) -> Result<(), NoMemory>
    ensures { OnOk result (out.new.items ≡ out.old.items ++ time_text hundredths) }
{
    if hundredths < 6000 {
        push_decimal(out, hundredths / 100)?;
    } else {
        push_decimal(out, hundredths / 6000)?;
        out.push(b':')?;
        push_two_digits(out, hundredths / 100 % 60)?;
    }
    out.push(b'.')?;
    push_two_digits(out, hundredths % 100)
}

/// Adds a result of multi-blind: solved of attempted cubes, and the time in minutes and seconds.
fn push_multi(out: &mut Vec<u8>, number: u32) -> Result<(), NoMemory>
    ensures { OnOk result (out.new.items
        ≡ out.old.items
        ++ multi_text (solved_in number) (attempted_in number) (seconds_in number)) }
{
    let points = 99_u32.saturating_sub(number / 10_000_000);
    let unsolved = number % 10_000_000 % 100;
    let seconds = number % 10_000_000 / 100;
    push_decimal(out, points + unsolved)?;
    out.push(b'/')?;
    push_decimal(out, points + 2 * unsolved)?;
    out.push(b' ')?;
    push_decimal(out, seconds / 60)?;
    out.push(b':')?;
    push_two_digits(out, seconds % 60)
}

/// A value as a sheet has it, or `NoMemory` where its text finds none.
///
/// Moves are a number in decimal. A time below a minute is seconds, a point and two digits (`9.05`,
/// `0.07`); a longer one is minutes, a colon, two digits, a point and two digits (`1:00.00`,
/// `60:18.00`). A result of multi-blind is the solved cubes, a slash, those attempted, a space,
/// minutes, a colon and two digits of seconds (`11/13 58:20`). The others are `DNF` and `DNS`.
pub fn print_value(alloc: Global, value: Value, unit: Unit) -> Result<Vec<u8>, NoMemory>
    ensures { IfOk result (λ text. text.items ≡ value_text unit value) }
{
    match value {
        Value::Number(number) => {
            let mut text = Vec::new(alloc);
            match unit {
                Unit::Time => push_time(&mut text, number)?,
                Unit::Moves => push_decimal(&mut text, number)?,
                Unit::Multi => push_multi(&mut text, number)?,
            }
            Ok(text)
        }
        Value::Dnf => Vec::from_slice(alloc, b"DNF"),
        Value::Dns => Vec::from_slice(alloc, b"DNS"),
    }
}
