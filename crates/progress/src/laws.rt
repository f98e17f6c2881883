//! The law that no desk is stuck. It is the contract of a function that does nothing: it holds
//! after every list of events, for every number of desks.

ghost use Rattle.progress.specs.Progress.{NoDeskIsStuck, NoQueueIsStuck};
ghost use Rattle.progress.specs.Turns.{NoServingDeskIsStuck};

/// Whatever has happened, every majority of the desks can still decide what a desk of it has first
/// in its queue, and all that it has queued, in the queue's order. It takes Ticks of that desk and
/// messages sent from then on among that majority alone, and no more of them than two for each
/// entry that a desk of the majority lacks of the longest log among them, and for each entry to be
/// decided 19 for each desk of the majority and 10.
///
/// The logs of the majority need room for two entries more, no desk of it may have promised one of
/// the last two numbers, and the desk that ticks may neither have tried nor have seen one of them;
/// for this many entries, this many times two.
pub fn no_desk_is_stuck()
    ensures first { NoDeskIsStuck }
    ensures queue { NoQueueIsStuck }
{}

/// So it is of desks that serve, which take no step alone: a desk whose log has grown, and in whose
/// queue entries wait, gives itself a Start. By such turns alone, Ticks of one desk and messages
/// sent from then on among the majority, all that it has queued is decided, in the queue's order,
/// and no more turns are needed than events above.
///
/// A desk that learns an entry may start, which costs it a number. So above the numbers of two for
/// each entry as many more have to be left as the desk that ticks lacks entries of a log that is
/// longer than the longest of theirs by two for each entry to be decided.
pub fn no_serving_desk_is_stuck()
    ensures { NoServingDeskIsStuck }
{}
