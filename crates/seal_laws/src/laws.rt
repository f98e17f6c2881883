//! The laws.

ghost use Rattle.seal_laws.specs.BothSides.{BothSidesHear, EntryIsConnected, SidesAreConnected};
ghost use Rattle.seal_laws.specs.Collisions.{BackIsElsewhere, KeysTell, MacsTell};
ghost use Rattle.seal_laws.specs.{Collisions.StopsUnlessTheyCollide, Keys.KeysAreOfBothSides};
ghost use Rattle.seal_laws.specs.{Tags.TagsAreOfRecords, WorkedHmac.WorksHmac};

/// Cases of HMAC-SHA-256 from RFC 4231, and what becomes of a key of one block.
pub fn worked_hmac()
    ensures { WorksHmac }
{}

/// A tag is the HMAC, under the key of its connection, of a text that tells the direction, the
/// number and the body of its record: a law. No two records have one text.
pub fn tags_are_of_records()
    ensures { TagsAreOfRecords }
{}

/// A connection's key is the HMAC, under the hall's key or the entry key, of a text that tells the
/// random bytes of the client and those of the server: a law.
pub fn keys_are_of_both_sides()
    ensures { KeysAreOfBothSides }
{}

/// Where a caller has a key of a desk, and all that either sent came to the other, each was handed
/// on just what the other was given to send, nothing is wrong, and the desk knows whose key it is:
/// a law. There is such a connection under the hall's key for whatever is asked and answered, and
/// under an entry key.
pub fn both_sides_hear()
    ensures hear { BothSidesHear }
    ensures example { SidesAreConnected }
    ensures entry_example { EntryIsConnected }
{}

/// What is sent again elsewhere ends a stream, or SHA-256 gives two texts one digest: a law. Under
/// keys of 32 bytes two HMACs are the same only for one key and one text, or two of the texts that
/// were hashed for them have one digest. So it is with the keys of two connections, and with a
/// record that comes over another connection, in the other direction or with another number.
pub fn replays_stop_or_collide()
    ensures macs { MacsTell }
    ensures keys { KeysTell }
    ensures records { StopsUnlessTheyCollide }
    ensures example { BackIsElsewhere }
{}
