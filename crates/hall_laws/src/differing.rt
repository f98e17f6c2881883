//! That no desk of a hall says what would show that it differs.

ghost use Rattle.hall_laws.specs.Differing.{DifferencesAreFound, DifferencesAreHeard};
ghost use Rattle.hall_laws.specs.Differing.{HallDecidedsStand, HallLengthsGrow, HallNeverDiffers};
ghost use Rattle.hall_laws.specs.Differing.{HallRunsAgree, SmallRunComesInOrder};

use crate::stops::{calls_are_happenings, stops_make_a_run};
use learner::laws::{invariant, one_is_chosen, steps_stay_in_range};
use store::keeper::Keeper;

/// What is said of a desk that differs was heard: `differs_by` of `serving` finds a difference
/// where a desk of the hall reports another entry than is in the log, or a length below one that it
/// reported before, and nowhere else.
pub fn differences_are_heard()
    ensures heard { DifferencesAreHeard }
    ensures found { DifferencesAreFound }
{}

/// Within the premises of a hall's runs no desk hears of another one that it differs. What a desk
/// said was decided at a position is in every log that has the position, so a frame of entries that
/// a desk of the hall has sent has no other one than is in the log. And of two messages that one
/// desk sent, the later reports no shorter log.
///
/// One premise more is about connections: what a connection brings was sent in the same order, and
/// after what the desk had heard of the sender when it accepted the connection.
pub fn desks_never_differ<K: Keeper>()
    ensures decided { HallDecidedsStand K.Keeper }
    ensures runs { HallRunsAgree K.Keeper }
    ensures lengths { HallLengthsGrow K.Keeper }
    ensures never { HallNeverDiffers K.Keeper }
    // There are such connections.
    ensures example { SmallRunComesInOrder K.Keeper }
{
    calls_are_happenings::<K>();
    stops_make_a_run();
    invariant();
    one_is_chosen();
    steps_stay_in_range();
}
