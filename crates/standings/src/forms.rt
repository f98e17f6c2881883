//! A report on a hall's desks, in either form.

ghost use Rattle.std.specs.Prelude.{◌≡◌, ◌≤◌, IfOk, length};
ghost use Rattle.standings.specs.Reports.{report};

use crate::as_json::json_line;
use crate::as_text::text_of;
use crate::polled::PolledDesk;
use std::alloc::{AllocError, Global};

/// How a report is printed.
#[derive(Clone, Copy, Debug, PartialEq, Eq)]
pub enum Form {
    /// As lines for people.
    Text,
    /// As one JSON object on a line.
    Json,
}

/// What is printed of the desks of a hall that were asked, at most five.
///
/// As text it is a line for each, and one that says what these mean; where a desk has another
/// number than it was asked for, a line in front of that one says so. As JSON it is [`json_line`].
pub fn report(
    alloc: Global,
    form: Form,
    hall: u32,
    polled: &[PolledDesk<'_>],
) -> Result<Vec<u8>, AllocError>
    requires { length polled.now ≤ 5 }
    ensures { IfOk result (λ text. text.items ≡ report form hall polled.now) }
{
    match form {
        Form::Text => text_of(alloc, polled),
        Form::Json => json_line(alloc, hall, polled),
    }
}
