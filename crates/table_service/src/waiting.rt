//! The page after a form.

ghost use Rattle.std.specs.Prelude.{◌≡◌, IfOk};
ghost use Rattle.std.specs.Option.{option_map};
ghost use Rattle.table_service.specs.Pages.{IsCardAfter, waits, waits_since};
ghost use Rattle.table_service.specs.Requests.{sent_before};

use crate::cards::card;
use crate::showing::query_of;
use bytes::Bytes;
use card_forms::Pairs;
use http::Request;
use mirror::Mirror;
use outbox::{ItemState, Outbox, state_of};
use std::alloc::{AllocError, Global};
use table_entry_views::Draft;
use table_people_views::waiting_page;
use table_views::PageContext;
use texts::{RoundId, number_between};

/// Milliseconds that what was sent is waited for at most.
const LONGEST: u64 = 2_000;

/// The greatest id of an entry, 2^63 - 1.
const MOST_ID: u64 = 9_223_372_036_854_775_807;

/// The id of what was sent before a request, as the address of the page after it says.
pub(crate) fn sent_before(
    alloc: Global,
    request: &Request<Bytes>,
) -> Result<Option<u64>, AllocError>
    ensures { IfOk result (λ id. id ≡ sent_before request.now) }
{
    let pairs = Pairs::read(alloc, query_of(request))?;
    Ok(number_between(1, MOST_ID, pairs.value("sent")))
}

/// Whether an item of which this became waits, since less than two seconds: it was taken this many
/// milliseconds ago.
fn waits_since(state: ItemState, ago: u64) -> bool
    ensures { result ≡ waits_since state ago }
{
    match state {
        ItemState::Waits => ago < LONGEST,
        _ => false,
    }
}

/// Whether what was sent under this id waits, since less than two seconds.
pub(crate) fn waits(outbox: &Outbox, mirror: &Mirror, now: u64, sent: Option<u64>) -> bool
    ensures { result ≡ waits outbox.now.list mirror.now now sent }
{
    let Some(sent) = sent else {
        return false;
    };
    let Some(item) = outbox.find(sent) else {
        return false;
    };
    waits_since(
        state_of(mirror, &item.entry),
        now.saturating_sub(item.since),
    )
}

/// The page of a card of a round, which may be after a form: while what was sent waits, up to two
/// seconds, the page that waits is in its place. None where the round was not opened.
pub(crate) fn card_after(
    alloc: Global,
    outbox: &Outbox,
    around: &PageContext<'_>,
    round: RoundId,
    draft: Draft<'_>,
) -> Result<Option<Vec<u8>>, AllocError>
    ensures { IfOk result (λ page. IsCardAfter around.entry.now.waits outbox.now.list
        around.entry.now round draft.entry (option_map (λ text. text.items) page)) }
{
    if around.waits {
        let page = waiting_page(alloc, around, round)?;
        return Ok(Some(page));
    }
    card(alloc, outbox, around, round, draft)
}
