//! What is proposed for a round that is to be opened.

ghost use Rattle.std.specs.Prelude.{◌≡◌, ◌≤◌, IfOk};
ghost use Rattle.commands.specs.Accepted.{competitors_seen, has_too_few};
ghost use Rattle.table_round_views.specs.Proposal.{first_proposal, is_last, proposed};
ghost use Rattle.table_round_views.specs.Proposal.{proposed_advance, proposed_for};

use crate::comments::proposed_in;
use acceptor::NoMemory;
use advancement::{advancing, later_rounds, quota};
use commands::Meet;
use formats::{Advance, Format};
use round_counts::round_opened;
use std::alloc::Global;
use texts::{RoundId, Settings};

/// As many come into a final at most, where more rounds are allowed.
const MOST_IN_FINAL: u16 = 16;

/// What is proposed for a round that is to be opened.
#[derive(Clone, Copy)]
pub(crate) struct Proposal {
    /// The format; none is the first one that the event allows.
    pub format: Option<Format>,
    /// After how many attempts a cutoff counts, and what one of them has to be below.
    pub cutoff: Option<(u8, u32)>,
    /// The time limit, in hundredths of a second; none is ten minutes.
    pub limit: Option<u32>,
    /// Who advances.
    pub advance: Advance,
    /// How many come into the round; none into an event's first, which is open to all.
    pub come: Option<u16>,
}

/// What is proposed for the first round of an event.
fn first_proposal() -> Proposal
    ensures { result ≡ first_proposal }
{
    Proposal {
        format: None,
        cutoff: None,
        limit: None,
        advance: Advance::Final,
        come: None,
    }
}

/// Whether the number of competitors of an earlier round does not allow the rounds up to the one
/// after this.
fn has_too_few(meet: &Meet, id: RoundId, earlier: u8) -> bool
    ensures { result ≡ has_too_few (competitors_seen meet.now.accepted id.event) id.round earlier }
{
    let later = later_rounds(meet.competitors(id.event, earlier));
    u16::from(later) < (u16::from(id.round) + 1).saturating_sub(u16::from(earlier))
}

/// Whether the competitors of a round before this one do not allow that another follows it.
fn is_last(meet: &Meet, id: RoundId) -> bool
    requires { 1 ≤ id.round }
    ensures { result ≡ is_last meet.now.accepted id }
{
    for earlier in 1..id.round {
        if has_too_few(meet, id, earlier) {
            return true;
        }
    }
    false
}

/// Who is proposed to advance from a round with this number of competitors.
fn proposed_advance(last: bool, come: u16) -> Advance
    ensures { result ≡ proposed_advance last come }
{
    if last || come <= MOST_IN_FINAL {
        Advance::Final
    } else {
        Advance::Top(quota(Advance::Top(MOST_IN_FINAL), come))
    }
}

/// What is proposed for a round with this number of competitors: what the file proposes for it, or
/// else what held in the round before.
fn proposed_for(last: bool, come: u16, before: Settings, told: Option<Settings>) -> Proposal
    ensures { result ≡ proposed_for last come before told }
{
    match told {
        Some(told) => Proposal {
            format: Some(told.format),
            cutoff: told.cutoff,
            limit: told.limit,
            advance: if last { Advance::Final } else { told.advance },
            come: Some(come),
        },
        None => Proposal {
            format: Some(before.format),
            cutoff: None,
            limit: before.limit,
            advance: proposed_advance(last, come),
            come: Some(come),
        },
    }
}

/// What is proposed for a round that is to be opened: for a first round the first format that the
/// event allows, ten minutes, and that it is the final; for a later one what a comment of the file
/// proposes for it, or else what held in the round before, and that it is the final where at most
/// 16 come into it. Where no other round may follow it, it is the final.
pub(crate) fn proposed(
    alloc: Global,
    meet: &Meet,
    file: &[u8],
    id: RoundId,
) -> Result<Proposal, NoMemory>
    ensures { IfOk result (λ proposal. proposal ≡ proposed meet.now.accepted file.now id) }
{
    if id.round <= 1 {
        return Ok(first_proposal());
    }
    let before = RoundId {
        event: id.event,
        round: id.round - 1,
    };
    let last = is_last(meet, id);
    let Some(round) = round_opened(meet, before) else {
        return Ok(first_proposal());
    };
    let told = proposed_in(alloc, id, file)?;
    let through = advancing(alloc, round.table, round.settings.advance)?;
    let come = through.len() as u16;
    Ok(proposed_for(last, come, round.settings, told))
}
