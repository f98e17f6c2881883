//! What holds of every table.

ghost use Rattle.rounds.specs.CutoffLaw.{MetIsBetter};

/// A law: where only who met the cutoff has more values than the cutoff's attempts, who met it has
/// a better place than who did not.
pub fn who_met_the_cutoff_is_better()
    ensures { MetIsBetter }
{}
