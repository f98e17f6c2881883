//! A sealed stream that does not come as it was sent.

ghost use Rattle.witnesses.specs.Streams.{WorksStreams};

/// The second record of a stream comes with another body, whose tag is not the one that came; and
/// the record of its body in the other direction has another tag. So `seal::stops_at_difference`,
/// `stops_at_changed_byte` and `stops_at_other_record` say something.
#[tactic(auto, using(crate::proofs::ChangedRecords::works))]
pub fn a_record_is_changed()
    ensures { WorksStreams }
{}
