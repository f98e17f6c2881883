//! Who of a round has not done all attempts.

ghost use Rattle.std.specs.Prelude.{◌≡◌, ◌++◌, OnOk, flat_map};
ghost use Rattle.table_round_views.specs.Entrants.{entrant_line, list_of, unfinished};

use acceptor::NoMemory;
use commands::Meet;
use markup::Piece::Number;
use markup::fill;
use round_counts::{OpenedRound, Progress, numbers_with};
use round_words::push_round_name;
use table_views::push_name;
use texts::RoundId;

const ENTRANT: &[u8] = b"?number=$\"><b>$</b> <bdi>";

/// Adds an entrant, with a link to the entrant's card.
fn push_entrant(out: &mut Vec<u8>, meet: &Meet, id: RoundId, number: u16) -> Result<(), NoMemory>
    ensures { OnOk result (out.new.items
        ≡ out.old.items ++ entrant_line meet.now.accepted id number) }
{
    out.extend_from_slice(b"<li><a href=\"/card/")?;
    push_round_name(out, id)?;
    fill(
        out,
        ENTRANT,
        &[Number(number as u64), Number(number as u64)],
    )?;
    push_name(out, meet, number)?;
    out.extend_from_slice(b"</bdi></a></li>\n")
}

/// Adds entrants.
pub(crate) fn push_entrants(
    out: &mut Vec<u8>,
    meet: &Meet,
    id: RoundId,
    numbers: &[u16],
) -> Result<(), NoMemory>
    ensures { OnOk result (out.new.items
        ≡ out.old.items ++ flat_map (entrant_line meet.now.accepted id) numbers.now) }
{
    for number in numbers {
        push_entrant(out, meet, id, *number)?;
    }
    Ok(())
}

/// Adds a list of entrants under a heading, where there is somebody.
fn push_list(
    out: &mut Vec<u8>,
    meet: &Meet,
    id: RoundId,
    heading: &[u8],
    numbers: &[u16],
) -> Result<(), NoMemory>
    ensures { OnOk result (out.new.items
        ≡ out.old.items ++ list_of meet.now.accepted id heading.now numbers.now) }
{
    if numbers.is_empty() {
        return Ok(());
    }
    out.extend_from_slice(heading)?;
    push_entrants(out, meet, id, numbers)?;
    out.extend_from_slice(b"</ul>\n")
}

/// Adds who is in the middle of the attempts, and who has none.
#[tactic(auto, unfolding(crate::specs::Entrants::unfinished))]
pub(crate) fn push_unfinished(
    out: &mut Vec<u8>,
    meet: &Meet,
    id: RoundId,
    round: OpenedRound<'_>,
) -> Result<(), NoMemory>
    ensures { OnOk result (out.new.items ≡ out.old.items ++ unfinished meet.now.accepted id
        (round.entry.settings, round.entry.table.now)) }
{
    let alloc = *out.allocator();
    let format = round.settings.format;
    let begun = numbers_with(alloc, round.table, format, Progress::Begun)?;
    let absent = numbers_with(alloc, round.table, format, Progress::Absent)?;
    push_list(out, meet, id, b"<h2>In the middle</h2>\n<ul>\n", &begun)?;
    push_list(
        out,
        meet,
        id,
        b"<h2>Without an attempt</h2>\n<ul>\n",
        &absent,
    )
}
