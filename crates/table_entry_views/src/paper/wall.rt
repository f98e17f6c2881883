//! The sheet of a round for the wall.

ghost use Rattle.std.specs.Prelude.{◌≡◌, ◌++◌, IfOk, OnOk, option_map};
ghost use Rattle.commands.specs.Accepted.{round_by};
ghost use Rattle.table_entry_views.specs.paper.Wall.{accepted_in, hall_line, wall_page};
ghost use Rattle.table_entry_views.specs.paper.Wall.{IsWallSheet};

use crate::paper::frame::{push_bottom, push_top};
use attempts::NoMemory;
use board_rounds::push_round;
use markup::Piece::Text;
use markup::fill;
use mirror::Mirror;
use round_counts::round_opened;
use std::alloc::Global;
use texts::RoundId;

const SIGNATURE: &[u8] = b"\
<p class=\"signature\">Delegate: <span></span> Date: <span></span></p>
";

const HALL: &[u8] = b"<h1>$</h1>\n";

/// Adds the hall's title.
fn push_hall(out: &mut Vec<u8>, hall: &[u8]) -> Result<(), NoMemory>
    ensures { OnOk result (out.new.items ≡ out.old.items ++ hall_line hall.now) }
{
    fill(out, HALL, &[Text(hall)])
}

/// The sheet of a round that was opened.
#[tactic(auto, unfolding(crate::specs::paper::Wall::wall_page))]
fn page_of(alloc: Global, mirror: &Mirror, hall: &[u8], id: RoundId) -> Result<Vec<u8>, NoMemory>
    ensures { IfOk result (λ page. page.items ≡ wall_page hall.now mirror.now id) }
{
    let mut page = Vec::new(alloc);
    push_top(&mut page, b"wall", hall)?;
    push_hall(&mut page, hall)?;
    push_round(&mut page, mirror.meet(), mirror.len(), id)?;
    page.extend_from_slice(SIGNATURE)?;
    push_bottom(&mut page)?;
    Ok(page)
}

/// The sheet of a round for the wall, to be printed: the hall's title, the round as the board shows
/// it, and a line for the delegate's signature. None where the round was not opened.
pub fn wall_sheet(
    alloc: Global,
    mirror: &Mirror,
    hall: &[u8],
    id: RoundId,
) -> Result<Option<Vec<u8>>, NoMemory>
    ensures { IfOk result (λ page. IsWallSheet hall.now mirror.now id
        (round_by (accepted_in mirror.now) id) (option_map (λ text. text.items) page)) }
{
    let Some(_) = round_opened(mirror.meet(), id) else {
        return Ok(None);
    };
    let page = page_of(alloc, mirror, hall, id)?;
    Ok(Some(page))
}
