//! A form that a browser writes.

ghost use Rattle.witnesses.specs.Forms.{WorksForm};

/// A browser can write a field and a file with a boundary of dashes and letters. So
/// `form_data::browsers_are_read` says something.
pub fn a_form_is_written()
    ensures { WorksForm }
{}
