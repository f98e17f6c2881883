//! Rounds that were worked out by hand.

ghost use Rattle.export_laws.specs.WorkedResults.{WorksResults};

/// What is in a competition's file of a round of times, of one of fewest moves and of one of
/// multi-blind: DNF and DNS, bests, averages, and entrants without an attempt.
pub fn worked_results()
    ensures { WorksResults }
{}
