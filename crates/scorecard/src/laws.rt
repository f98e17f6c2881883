//! What holds of all readings.

ghost use Rattle.scorecard.specs.Laws.{EnteredReadsBack, SheetReadsBack, SpellsNoMoves, SpellsOnce};

/// A law: a text spells one outcome of an event at most.
pub fn spelled_once()
    ensures { SpellsOnce }
{}

/// A law: what a sheet prints of an attempt, typed again, is an outcome that counts as the same
/// value. It holds of times up to 166:39.99, of results of multi-blind, of DNF and of DNS, in every
/// event, with whatever penalties and under whatever time limit.
#[tactic(auto, using(crate::proofs::Sheets::sheet_back))]
pub fn sheet_reads_back()
    ensures { SheetReadsBack }
{}

/// A law: what was entered for an attempt, as a page fills a field in with it, is read as just
/// that, so that it is worth the same: each time with its penalties, each solution, each result of
/// multi-blind, DNF and DNS.
#[tactic(auto, using(crate::proofs::Entered::entered_back))]
pub fn entered_reads_back()
    ensures { EnteredReadsBack }
{}

/// A law: a number of moves, as a sheet prints it, spells nothing, since it is no solution.
#[tactic(auto, using(crate::proofs::Sheets::number_spells_nothing))]
pub fn number_of_moves_is_no_solution()
    ensures { SpellsNoMoves }
{}
