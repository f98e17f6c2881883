//! Whose key it was.

ghost use Rattle.desk_laws.specs.UnderKeys.{EachAsksUnderAKey};

/// At a desk with a key, each frame of a client by which a command is entered, a Tick or a Stop is
/// given, or a message of a desk is delivered, is in records that fit under a key of the desk, of
/// what the client gave: a law. For a Stop and for messages it is a key of the hall.
pub fn asks_under_a_key()
    ensures { EachAsksUnderAKey }
{}
