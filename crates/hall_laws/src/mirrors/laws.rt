//! A mirror of a hall.

ghost use Rattle.hall_laws.specs.mirrors.HallMirrors.{HallMirrorsHoldFronts, HallMirrorsPrintAlike};

use crate::{copies_are_of_logs, halls_are_runs};
use mirror::mirrors_hold_fronts;
use store::keeper::Keeper;

/// A mirror that took what desks of a hall answered, from the empty one on, prints what they print.
/// It does not matter which desks answered, at which moments, from which positions they were asked,
/// and whether memory was refused.
///
/// A sheet here is `sheet_at` of `answers`: by its definition the Regulations' sheet of a round for
/// the accepted commands among the entries below a position. It is what `mirror::Mirror::sheet_at`
/// gives for the mirror's list, and what a desk gives for its log. So for each position that both
/// have, the mirror and the desk print the same bytes.
///
/// The runs of a hall, and the premises on messages and on stores, are those of `halls_are_runs`.
pub fn mirrors_print_what_desks_print<K: Keeper>()
    // None is reported as differing, and the mirror's list is empty or begins the log of one that
    // answered.
    ensures fronts { HallMirrorsHoldFronts K.Keeper }
    // Its sheet at a position is that of any desk's log, at any moment, that has the position.
    ensures alike { HallMirrorsPrintAlike K.Keeper }
{
    copies_are_of_logs::<K>();
    halls_are_runs::<K>();
    mirrors_hold_fronts();
}
