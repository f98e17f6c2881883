//! Desks that serve by the program's own loop, in one world.

ghost use Rattle.desk_laws.specs.LoopRuns.{LoopEntriesAreSubmitted, LoopLogsAgree, LoopsAreRuns};
ghost use Rattle.desk_laws.specs.LoopRuns.{ServingsAreDoings};

use hall_laws::{calls_are_happenings, stops_make_a_run};
use store::keeper::Keeper;

/// The desks of a hall serve at once, each by `multiplex::serve_each`: many clients with keys and
/// sealed streams, and Ticks of its own. What happens comes in any order; desks end, stop between
/// two calls or in a save, and are opened again. All their calls together are a run of the world,
/// step by step. So of any two desks' logs at any two moments one is a prefix of the other, and
/// every entry was submitted before, by a frame that came to a desk of the hall, which accepted it:
/// a law.
///
/// What such a desk does is known from its frames and its own Ticks, and `servings` says that a
/// serving is nothing else. Two premises are in `IsLoopRun`, each at its event: a message that a
/// frame brings was handed out before, by a call of a desk of the hall; and a store that is opened
/// again gives back what was written to it.
pub fn loops_are_runs<K: Keeper>()
    ensures run { LoopsAreRuns K.Keeper }
    ensures logs_agree { LoopLogsAgree K.Keeper }
    ensures submitted { LoopEntriesAreSubmitted K.Keeper }
    ensures servings { ServingsAreDoings K.Keeper }
{
    calls_are_happenings::<K>();
    stops_make_a_run();
}
