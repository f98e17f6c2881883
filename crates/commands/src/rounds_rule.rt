//! How many rounds the competitors of an event allow (WCA Regulations, article 9m).

ghost use Rattle.std.specs.Prelude.{◌≡◌, ◌≤◌};
ghost use Rattle.std.specs.List.{list_any, range_with_len};
ghost use Rattle.commands.specs.Accepted.{has_too_few, breaks_rounds_rule, but_for};
ghost use Rattle.commands.specs.model.Kept.{kept_competitors};

use crate::kept_rounds::{KeptRounds, is_final};
use advancement::{Advance, later_rounds};
use formats::LAST_ROUND;
use texts::RoundId;

/// How many competitors a round of the event has, as the next one sees it, where this round has
/// this many.
fn competitors_with(rounds: &KeptRounds, id: RoundId, competitors: u16, earlier: u8) -> u16
    ensures { result ≡ but_for (kept_competitors id.event rounds.now.opened.items) id.round
        competitors earlier }
{
    if earlier == id.round {
        return competitors;
    }
    rounds.competitors(RoundId {
        event: id.event,
        round: earlier,
    })
}

/// Whether the competitors of the round numbered `earlier` do not allow the later rounds up to the
/// one after this round, which has this many.
fn has_too_few(rounds: &KeptRounds, id: RoundId, competitors: u16, earlier: u8) -> bool
    requires { id.round ≤ LAST_ROUND }
    ensures { result
        ≡ has_too_few (but_for (kept_competitors id.event rounds.now.opened.items) id.round
        competitors) id.round earlier }
{
    later_rounds(competitors_with(rounds, id, competitors, earlier))
        < (id.round + 1).saturating_sub(earlier)
}

/// Whether this many competitors of a round, or those of one before it, do not allow that one
/// follows.
fn allows_no_further(rounds: &KeptRounds, id: RoundId, competitors: u16) -> bool
    requires { id.round ≤ LAST_ROUND }
    ensures { result
        ≡ list_any (has_too_few (but_for (kept_competitors id.event rounds.now.opened.items)
        id.round competitors) id.round)
        (range_with_len 1 id.round) }
{
    for earlier in 1..id.round + 1 {
        if has_too_few(rounds, id, competitors, earlier) {
            return true;
        }
    }
    false
}

/// Whether another round shall follow this one, and its competitors, this many, or those of the
/// rounds before do not allow it.
pub(crate) fn breaks_rounds_rule(
    rounds: &KeptRounds,
    id: RoundId,
    competitors: u16,
    advance: Advance,
) -> bool
    requires { id.round ≤ LAST_ROUND }
    ensures { result
        ≡ breaks_rounds_rule (but_for (kept_competitors id.event rounds.now.opened.items) id.round
        competitors) id.round advance }
{
    !is_final(advance) && allows_no_further(rounds, id, competitors)
}
