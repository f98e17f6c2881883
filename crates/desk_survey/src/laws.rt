//! What follows of the calls of a survey, whatever calls are made.

ghost use Rattle.desk_survey.specs.Histories.{TellsWhatWasAnswered};

/// Whatever calls were made, in whatever order, and whatever bytes came: what is said of how a desk
/// is comes from a frame that answers that question. That the desk wrote the frame is no part of
/// this: it came on a connection to its address.
pub fn tells_what_was_answered()
    ensures { TellsWhatWasAnswered }
{}
