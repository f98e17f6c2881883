//! A law of the order of lines.

ghost use Rattle.schedule_views.specs.Order.{TimesAreInOrder};

/// A law: the lines that are in order are all, each once, and in the order of their times; those of
/// one time are in the order of the file.
pub fn times_are_in_order()
    ensures { TimesAreInOrder }
{}
