//! Laws of what is shown beside what counts.

ghost use Rattle.card_laws.specs.Telling.{NothingStandsOnRemarks, ReadsBack, RemarksAreTold};

/// A law: up to five values, each in the range of a field, are read back from the field of a card
/// that says that they count.
pub fn what_stands_reads_back()
    ensures { ReadsBack }
{}

/// A law: once edition 4 holds, two texts of one command, with whatever remarks, are answered alike
/// and lead to the same.
#[tactic(auto, using(crate::proofs::Remarks::remarks_are_told))]
pub fn remarks_are_told()
    ensures { RemarksAreTold }
{}

/// A law: once edition 4 holds, no answer and no sheet depends on remarks.
#[tactic(auto, using(crate::proofs::Remarks::nothing_stands_on_remarks))]
pub fn nothing_stands_on_remarks()
    ensures { NothingStandsOnRemarks }
{}
