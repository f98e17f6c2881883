//! What holds of every result that is exported.

ghost use Rattle.wcif_results.specs.Laws.{ResultsReadBack, OthersStay};
ghost use Rattle.wcif_results.specs.MultiBlind.{NumbersAreTheWcas, DigitsReadBack};

/// A law: every result of multi-blind that a judge may enter counts as the WCA's number of it, ten
/// digits 0DDTTTTTMM, where it is no DNF.
pub fn multi_blind_is_the_wcas()
    ensures { NumbersAreTheWcas }
{}

/// A law: the ten digits of a result of multi-blind that is no DNF, read as the WCA reads them, are
/// the cubes solved, those attempted and the seconds.
pub fn ten_digits_read_back()
    ensures { DigitsReadBack }
{}

/// A law: what an export writes of a round, read back, has the sheet's numbers, places, attempts,
/// bests and averages, in the sheet's order. It holds of every list of entries that a meet was
/// given, every file, and every round that was opened.
pub fn results_read_back()
    ensures { ResultsReadBack }
{}

/// A law: a file and what an export writes of it read as one value, but for the `results` of its
/// rounds. So every other member is in its place, and has its value: numbers are spelled as they
/// were, and members that come twice are both there.
pub fn others_stay()
    ensures { OthersStay }
{}
