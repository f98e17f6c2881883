//! What is served, in the world.

ghost use Rattle.hall_laws.specs.Served.{CallsAreARun, SheetsAreOfTheLog};

use crate::stops::calls_are_happenings;
use store::keeper::Keeper;

/// The calls that serving makes of a desk happen in the world: whatever frames were served, there
/// are happenings after which the desk knows what the node knows, what was handed out was sent,
/// and nothing else has changed. What that needs is that each message that was delivered was sent
/// by the desk that it names. What such happenings come to, `stops_make_a_run` says.
pub fn calls_are_a_run<K: Keeper>()
    ensures { CallsAreARun K.Keeper }
{
    calls_are_happenings::<K>();
}

/// A sheet that a desk writes for a position is the Regulations' sheet for the accepted commands of
/// its log up to there.
pub fn sheets_are_of_the_log()
    ensures { SheetsAreOfTheLog }
{}
