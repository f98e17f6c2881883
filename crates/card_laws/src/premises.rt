//! What the laws ask of a round.

ghost use Rattle.commands.specs.Accepted.{round_of};
ghost use Rattle.card_laws.specs.Premises.{MeetsPremises};

use commands::Meet;
use formats::Event;

/// In every meet, of every round and number: the cutoff is one of the format, nobody has a number
/// twice, and what counts of a number is read back from the field of a card.
pub fn rounds_meet_premises(meet: &Meet, event: Event, round: u8, number: u16)
    ensures { MeetsPremises number (round_of meet.now.accepted event round) }
{
    if let Some(table) = meet.round(event, round) {
        let _ = table.cutoff();
        let _ = table.values(number);
    }
}
