//! What is pushed to a desk, and what arrives there.

ghost use Rattle.hall_laws.specs.Arriving.{MessagesArrive, RunsArrive};

use wire::laws::one_spelling_each;

/// A message that a desk hands out for another one is framed and spelled; read at its receiver,
/// whatever comes after it on the connection, it is the delivery of exactly that message. A run of
/// decided entries is the delivery of a Decided for each of them.
///
/// This is of the bytes of one frame and of what comes after them, not of a connection: that the
/// bytes which a desk reads are those which another one wrote is trusted.
pub fn messages_arrive()
    ensures messages { MessagesArrive }
    ensures runs { RunsArrive }
{
    one_spelling_each();
}
