//! What a browser writes reads back.

ghost use Rattle.form_data.specs.Written.{ReadsWritten};

/// A law: what a browser writes of at most 64 parts, with a boundary that is in none of their
/// contents, is read as these parts, their names and their contents, in order.
pub fn browsers_are_read()
    ensures { ReadsWritten }
{}
