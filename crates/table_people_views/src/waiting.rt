//! The page of what was sent and is not decided yet.

ghost use Rattle.std.specs.Prelude.{◌≡◌, ◌++◌, IfOk, OnOk};
ghost use Rattle.table_people_views.specs.Waiting.{waiting_page, waiting_section};

use acceptor::NoMemory;
use round_words::push_round_name;
use std::alloc::Global;
use table_views::{PageContext, push_end, start_page};
use texts::RoundId;

const START: &[u8] = b"\
<section><meta http-equiv=\"refresh\" content=\"1\"><h1>Waiting</h1>
<p>What was sent is taken, and not decided yet. The next page follows by itself.</p>
<p><a href=\"/card/";

/// Adds what is said while the page waits.
#[tactic(auto, unfolding(crate::specs::Waiting::waiting_section))]
fn push_section(out: &mut Vec<u8>, round: RoundId) -> Result<(), NoMemory>
    ensures { OnOk result (out.new.items ≡ out.old.items ++ waiting_section round) }
{
    out.extend_from_slice(START)?;
    push_round_name(out, round)?;
    out.extend_from_slice(b"\">The next card</a></p></section>\n")
}

/// The page that, without scripts, is in the place of a round's card while what was sent is not
/// decided yet. It loads itself again after a second, and has no field whose content would be lost
/// then.
pub fn waiting_page(
    alloc: Global,
    around: &PageContext<'_>,
    round: RoundId,
) -> Result<Vec<u8>, NoMemory>
    ensures { IfOk result (λ page. page.items ≡ waiting_page around.entry.now round) }
{
    let mut page = start_page(alloc, around, b"Waiting")?;
    push_section(&mut page, round)?;
    push_end(&mut page, around)?;
    Ok(page)
}
