//! What is pushed while a request is served.

ghost use Rattle.hall_laws.specs.Pushing.{MessagesArePushed, RunsAreDue};
ghost use Rattle.hall_laws.specs.Pushing.{EventsComeFirst, OthersDoNothing};

/// What serving pushes is what the desk's calls hand out: each message that a call hands out, for
/// another desk or for the desk itself, is pushed, once, after that call, in the order in which the
/// calls handed them out, and nothing else is pushed.
///
/// There are three cases to know of. Where the desk goes down, what still waits is dropped: what
/// was pushed is a front part, and nothing is pushed after the call that was answered Down. Of a
/// frame of several Decided entries, only what is handed out from the last entry's delivery on is
/// pushed; what the deliveries of the earlier ones hand out is dropped. And a desk that says how
/// long its log is may be answered by one run of entries, in place of a Decided message for each:
/// the law counts the run as those messages, and says when it is pushed.
///
/// Which entries of a run the frame of a version holds is said where frames are (`messages_arrive`).
pub fn messages_are_pushed()
    ensures pushed { MessagesArePushed }
    ensures runs { RunsAreDue }
    // What is left out of a frame of several entries is counted by these calls.
    ensures first { EventsComeFirst }
    ensures nothing { OthersDoNothing }
{}
