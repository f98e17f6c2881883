//! A competition's file that is exported.

ghost use Rattle.witnesses.specs.Exported.{WorksExport};

/// A competition's file gets the result of its one round, byte for byte. So
/// `wcif_results::results_read_back` and `others_stay` say something.
#[tactic(auto, using(crate::proofs::OneResult::works))]
pub fn a_result_is_exported()
    ensures { WorksExport }
{}
