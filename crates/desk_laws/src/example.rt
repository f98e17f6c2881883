//! A message that comes.

ghost use Rattle.desk_laws.specs.Example.{LoopsWork, ServingWorks};

use store::keeper::Keeper;

/// A link of desk 1 writes a message over a connection under the hall's key, and desk 2, which
/// serves by the loop, reads it and is given it. So the laws on turns of connections, plain ones
/// and guarded ones, on clients of the loop, and on what comes under a key, say something. And
/// there are runs of desks that serve by the loop.
pub fn a_message_comes<K: Keeper>()
    ensures serving { ServingWorks K.Keeper }
    ensures loops { LoopsWork K.Keeper }
{}
