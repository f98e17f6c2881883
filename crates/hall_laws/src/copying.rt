//! Entries that desks of a hall answer, put one after the other.

ghost use Rattle.hall_laws.specs.Copied.{CopiesOneEntry};
ghost use Rattle.hall_laws.specs.Copying.{HallCopiesAreOfLogs, HallLogsGrow, HallCopiesBeginALog};
ghost use Rattle.hall_laws.specs.Copying.{HallCopiesBeginItsLog, HallCopiesAgree};

use crate::hall_runs::halls_are_runs;
use crate::stops::calls_are_happenings;
use store::keeper::Keeper;

/// Entries that desks of a hall answer are entries of their logs, and put one after the other they
/// never differ between desks.
///
/// An answer says how long the desk's log is at that moment, and the entries that the log has there
/// from the position asked for, 400 at most. A client that asks for entries from position 0 on, and
/// then each time from where the entries end that it holds already, collects the beginning of a
/// log. The answers may be of any desks of the hall, at any moments and in any order, and desks may
/// stop and be opened again between them. Of what two collect so, one is a prefix of the other.
///
/// The runs of a hall, and the premises on messages and on stores, are those of `halls_are_runs`.
pub fn copies_are_of_logs<K: Keeper>()
    // One answer is of the log of the desk that gave it, at that moment.
    ensures copies { HallCopiesAreOfLogs K.Keeper }
    ensures grow { HallLogsGrow K.Keeper }
    // Answers one after the other, of any desks and at any moments.
    ensures begin_one { HallCopiesBeginALog K.Keeper }
    // Answers of one desk.
    ensures begin_its { HallCopiesBeginItsLog K.Keeper }
    // Answers of two who asked.
    ensures agree { HallCopiesAgree K.Keeper }
{
    calls_are_happenings::<K>();
    halls_are_runs::<K>();
}

/// Two desks of three decide an entry, over keepers that never fail, and one of them answers it to
/// a mirror that has none. So the laws on copies, and those of `mirrors`, say something.
pub fn a_decided_entry_is_copied()
    ensures { CopiesOneEntry }
{}
