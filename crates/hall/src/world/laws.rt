//! What holds of every hall of desks: the contract of a function that does nothing.

ghost use Rattle.hall.specs.world.Headline.{DesksAgree};

use learner::laws::{logs_agree, logs_are_submitted};

/// The headline. Over every list of submissions, starts, ticks, deliveries (also lost, repeated and
/// late ones) and restarts among the desks of a hall: of any two desks' logs at any two moments one
/// is a prefix of the other, and every entry was submitted. At a position that both logs have, the
/// sheet of a round is the same for both, byte for byte: it is the Regulations' sheet for the
/// accepted commands of the log up to there. The law speaks of definitions; the bytes that a desk
/// gives are these definitions' by `Node::sheet_at`. An entry that was answered Done is at its
/// position in every longer log.
pub fn headline()
    ensures { DesksAgree }
{
    logs_agree();
    logs_are_submitted();
}
