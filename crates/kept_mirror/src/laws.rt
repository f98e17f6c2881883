//! What follows of the calls of a mirror that is kept up, whatever calls are made.

ghost use Rattle.kept_mirror.specs.Histories.{AsksWhereItEnds, HoldsWhatWasAnswered};

/// Whatever calls were made, in whatever order, and whatever bytes came: what is held was made by
/// taking runs of entries one after the other, as `mirror::Mirror::take` does, beginning with
/// none. Each run was in a frame that answers the question for a desk's log. That a
/// desk of the hall wrote the frame is no part of this: it came on a connection to its address.
pub fn holds_what_was_answered()
    ensures { HoldsWhatWasAnswered }
{}

/// Where no command is waited for, a question asks the desk that is followed for its log from the
/// last entry on that is held, so that another one there is noticed; from the beginning, where none
/// is held.
pub fn asks_where_it_ends()
    ensures { AsksWhereItEnds }
{}
