//! A world that meets all premises of the laws.

ghost use Rattle.progress.specs.Tangle.{TangleIsDecided};

use crate::laws::{no_desk_is_stuck, no_serving_desk_is_stuck};

/// The premises of the two laws can be met where it is hardest: of three desks, desk 1 has
/// restarted with a ballot of its own promised, and lost its queue; its entry was submitted again.
/// Desk 2 has a higher ballot, and desk 3 has promised that one, an old vote for an entry that is
/// not decided, and still asks for votes. What they said to desk 1 is lost, and all that it said.
/// Desks 1 and 3 are a majority, with room. So they decide desk 1's entry, and in these seventeen
/// turns they do, the entry of the old vote before it.
pub fn a_tangle_is_decided()
    ensures { TangleIsDecided }
{
    no_desk_is_stuck();
    no_serving_desk_is_stuck();
}
