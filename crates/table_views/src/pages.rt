//! What each page begins and ends with.

ghost use Rattle.std.specs.Prelude.{◌≡◌, ◌++◌, IfOk, OnOk, codes};
ghost use Rattle.table_views.specs.{Frame.bottom, Frame.top, Recent.recent_section};

use crate::around::PageContext;
use crate::frame::{push_bottom, push_top};
use crate::recent::push_recent;
use acceptor::NoMemory;
use std::alloc::Global;

/// A page of this title, up to its sections.
///
/// # Errors
///
/// Where memory runs out.
pub fn start_page(
    alloc: Global,
    around: &PageContext<'_>,
    title: &[u8],
) -> Result<Vec<u8>, NoMemory>
    ensures { IfOk result (λ page. page.items
        ≡ top (codes "hall") title.now around.entry.now) }
{
    let mut page = Vec::new(alloc);
    push_top(&mut page, around, b"hall", title)?;
    Ok(page)
}

/// Adds the cards and commands of late, and the end of the page.
///
/// # Errors
///
/// Where memory runs out. A front part may have been added then.
pub fn push_end(page: &mut Vec<u8>, around: &PageContext<'_>) -> Result<(), NoMemory>
    ensures { OnOk result (page.new.items ≡ page.old.items
        ++ recent_section around.entry.now ++ bottom) }
{
    push_recent(page, around)?;
    push_bottom(page)
}
