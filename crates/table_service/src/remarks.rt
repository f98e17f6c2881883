//! The remark of what a table enters: its name, and the time of the machine's clock.

ghost use Rattle.std.specs.Prelude.{◌≡◌, ◌++◌, IfOk, OnOk};
ghost use Rattle.table_service.specs.Remarks.{is_table_name, remark_of, time_of_day};

use attempts::push_two_digits;
use std::alloc::{AllocError, Global};
use texts::is_clear_name;

/// The most bytes of a table's name.
const MOST_NAME: usize = 60;

/// Whether a table can have this name: 1 to 60 bytes of text as of a competitor's name, so that it
/// is a remark together with the time.
pub fn is_table_name(bytes: &[u8]) -> bool
    ensures { result ≡ is_table_name bytes.now }
{
    bytes.len() <= MOST_NAME && is_clear_name(bytes)
}

/// Adds the time of the day, in UTC, of this many seconds since 1970.
fn push_time(text: &mut Vec<u8>, seconds: u64) -> Result<(), AllocError>
    ensures { OnOk result (text.new.items ≡ text.old.items ++ time_of_day seconds) }
{
    push_two_digits(text, (seconds / 3600 % 24) as u32)?;
    text.push(b':')?;
    push_two_digits(text, (seconds / 60 % 60) as u32)?;
    text.push(b':')?;
    push_two_digits(text, (seconds % 60) as u32)?;
    text.extend_from_slice(b" UTC")
}

/// The remark of what a table of this name enters, this many seconds after 1970: `A 14:05:33 UTC`.
/// It has no time where the clock gives none.
pub(crate) fn remark_of(
    alloc: Global,
    name: &[u8],
    clock: Option<u64>,
) -> Result<Vec<u8>, AllocError>
    ensures { IfOk result (λ text. text.items ≡ remark_of name.now clock) }
{
    let mut text = Vec::from_slice(alloc, name)?;
    if let Some(seconds) = clock {
        text.push(b' ')?;
        push_time(&mut text, seconds)?;
    }
    Ok(text)
}
