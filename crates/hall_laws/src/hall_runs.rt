//! Several desks that serve at once, in one world.

ghost use Rattle.hall_laws.specs.HallRuns.{HallsAreRuns, HallLogsAgree, HallEntriesAreSubmitted};
ghost use Rattle.hall_laws.specs.HallRuns.{HallMessagesAreNamed, HallSheetsAreOfLogs};
ghost use Rattle.hall_laws.specs.HallRuns.{HallAnswersWait, HallSheetsAgree, TurnsAreEvents};
ghost use Rattle.hall_laws.specs.HallRuns.{OwnTicksAreEvents, SettlingsAreEvents};
ghost use Rattle.hall_laws.specs.{HallExample.SmallRunIsARun, HallProgress.HallsAreNotStuck};
ghost use Rattle.hall_laws.specs.{Losses.LossesAreNothing, Lost.LostWorkIsNothing};

use crate::own_messages::own_messages_were_sent;
use crate::served::sheets_are_of_the_log;
use crate::stops::{calls_are_happenings, stops_make_a_run};
use progress::laws::no_desk_is_stuck;
use store::keeper::Keeper;

/// The desks of a hall serve at once, each of them many connections by turns, and may take Ticks of
/// their own between them, and settle what they have changed. All that comes in any order; desks
/// stop, between two turns or in the middle of a frame or of a Tick, and are opened again. All
/// their calls together are a run of the world, step by step.
///
/// If a desk stops before it has settled what it changed, and nothing of that has left it, the
/// change is lost: the run has the event no longer, and no other one in its place (`lost`).
///
/// So of any two desks' logs at any two moments one is a prefix of the other. Every entry was
/// submitted before, by a frame that came to a desk of the hall, which accepted it. The answer to a
/// frame waits on its connection for the client. Each sheet that a desk answers on one of its
/// connections is the Regulations' sheet for the accepted commands of its log, and no two that are
/// asked for alike differ.
///
/// `IsHallRun` of `specs/HallRuns` says what such a run is. Two premises are in it, each at its
/// event: a message that a frame brings was handed out before, by a call of a desk of the hall; and
/// a store that is opened again gives back what was written to it. What a desk says to itself comes
/// to it so too: in a frame, over a connection of its own.
pub fn halls_are_runs<K: Keeper>()
    ensures run { HallsAreRuns K.Keeper }
    ensures logs_agree { HallLogsAgree K.Keeper }
    ensures submitted { HallEntriesAreSubmitted K.Keeper }
    ensures answers { HallAnswersWait K.Keeper }
    ensures sheets { HallSheetsAreOfLogs K.Keeper }
    ensures sheets_agree { HallSheetsAgree K.Keeper }
    // Each message names the desk that sent it, as the premise on messages supposes.
    ensures named { HallMessagesAreNamed K.Keeper }
    // Nothing that a desk does by turns is left out.
    ensures turns { TurnsAreEvents K.Keeper }
    // Nor anything that it does where it ticks itself.
    ensures ticks { OwnTicksAreEvents K.Keeper }
    // And each settling.
    ensures settlings { SettlingsAreEvents K.Keeper }
    // If a desk stops before it has settled, then what it did might as well never have come.
    ensures lost { LostWorkIsNothing K.Keeper }
    // So is a hall in which desks stop so at any moments, and go on.
    ensures losses { LossesAreNothing K.Keeper }
    // There are such runs: this one, in full.
    ensures example { SmallRunIsARun K.Keeper }
{
    calls_are_happenings::<K>();
    own_messages_were_sent();
    sheets_are_of_the_log();
    stops_make_a_run();
}

/// At every moment of such a run, the desks are in a state from which every majority of them can
/// decide what a desk of it has queued, by Ticks of that desk and messages sent from then on among
/// that majority, where logs and ballot numbers have room.
///
/// The law is about steps of the protocol, each one event at a desk, and not about turns: while a
/// desk serves, it gives itself a Start where its log has grown. `majorities_decide` is the law
/// about turns.
pub fn halls_are_not_stuck<K: Keeper>()
    ensures { HallsAreNotStuck K.Keeper }
{
    calls_are_happenings::<K>();
    stops_make_a_run();
    no_desk_is_stuck();
}
