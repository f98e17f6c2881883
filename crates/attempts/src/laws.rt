//! What holds of every result of multi-blind.

ghost use Rattle.attempts.specs.MultiLaws.{IsOrdered, ReadsBack};

/// A law: of two results that are no DNF, the one with the lesser value has more points, or as many
/// and the shorter time, or as many in the same time and fewer unsolved cubes.
pub fn multi_blind_is_ordered()
    ensures { IsOrdered }
{}

/// A law: the numbers in the text of a result, between its slash, space and colon, are the solved
/// and the attempted cubes, and the minutes and seconds of its time.
pub fn multi_blind_reads_back()
    ensures { ReadsBack }
{}
