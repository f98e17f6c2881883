//! Questions to a desk, and its answers.

ghost use Rattle.witnesses.specs.Dialogues.{WorksDialogues};

/// A desk is asked for its log by a mirror that is kept up, and how it is by a survey; both times a
/// connection is opened, the question is written, and the answer comes. So `kept_mirror::laws` and
/// `desk_survey::laws` say something.
#[tactic(auto, using(crate::proofs::Asked::works))]
pub fn desks_are_asked()
    ensures { WorksDialogues }
{}
