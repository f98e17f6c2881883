//! What a scoretaker answers to items that were not saved.

ghost use Rattle.std.specs.Prelude.{◌≡◌, IfOk, length, option_map};
ghost use Rattle.std.specs.Option.{option_copied};
ghost use Rattle.outbox.specs.Outboxes.{may_answer};
ghost use Rattle.texts.specs.Fields.{enters_later};
ghost use Rattle.table_service.specs.Answering.{PlansAgain, PlansAgainItem, PlansAnswered};
ghost use Rattle.table_service.specs.Answering.{PlansLeaving, PlansOver, again_entry, item_of};
ghost use Rattle.table_service.specs.{Answering.place_of, Taking.has_room};

use crate::commanding::refuse;
use crate::entering::cards_place;
use crate::entries::{has_room, place_with};
use crate::plan::{Effect, Problem, RequestPlan};
use acceptor::entry::Entry;
use card_forms::{FormId, Pairs, card_entry, card_in};
use mirror::Mirror;
use outbox::{Item, ItemState, Outbox};
use std::alloc::{AllocError, Global};
use table_views::{PageContext, enters_later, id_at};
use texts::{CardEntry, RoundId, SeenValues, number_between, was_of};

/// The greatest id of an entry, 2^63 - 1.
const MOST_ID: u64 = 9_223_372_036_854_775_807;

/// What is said where less counts than a card lets stay.
const LESS: &[u8] = b"this card keeps more attempts than are on record: open the card and type it";

/// The item that a form names by its id, which comes first.
pub(crate) fn item_of<'a>(outbox: &'a Outbox, pairs: &Pairs) -> Option<(u64, &'a Item)>
    ensures { option_map (λ it. (it.0, it.1.now)) result ≡ item_of outbox.now.list pairs.now }
{
    let of = number_between(1, MOST_ID, pairs.value("id"))?;
    let item = outbox.find(of)?;
    Some((of, item))
}

/// Whether the log says what became of the item of an id, and no scoretaker has answered it.
fn may_answer(outbox: &Outbox, mirror: &Mirror, of: u64) -> bool
    ensures { result ≡ may_answer mirror.now outbox.now.list of }
{
    if outbox.is_answered(of) {
        return false;
    }
    match outbox.state(mirror, of) {
        None | Some(ItemState::Waits) => false,
        Some(_) => true,
    }
}

/// The page to move on to: the cards of the round, where the item is a card.
fn place_of(alloc: Global, card: Option<&CardEntry>) -> Result<Vec<u8>, AllocError>
    ensures { IfOk result (λ place. place.items ≡ place_of (option_copied card.entry)) }
{
    match card {
        Some(card) => cards_place(alloc, card.id),
        None => Vec::from_slice(alloc, b"/"),
    }
}

/// What is to be done for an item that stays as it is, with this effect.
pub(crate) fn plan_leaving(
    alloc: Global,
    item: &Item,
    effect: Effect,
) -> Result<RequestPlan, AllocError>
    ensures { IfOk result (PlansLeaving item.now effect) }
{
    let card = card_in(alloc, item.entry.text())?;
    let place = place_of(alloc, card.as_ref())?;
    Ok(RequestPlan::see(place, effect))
}

/// What is to be done for a card of this round that stands for an item; it says why, where the card
/// has no entry.
pub(crate) fn plan_over(
    alloc: Global,
    outbox: &Outbox,
    around: &PageContext<'_>,
    of: u64,
    id: RoundId,
    entry: Option<Entry>,
    why: &[u8],
) -> Result<RequestPlan, AllocError>
    ensures { IfOk result
        (PlansOver why.now (has_room outbox.now.list 1) around.entry.now of id entry) }
{
    let place = cards_place(alloc, id)?;
    let Some(entry) = entry else {
        return refuse(alloc, around, &place, why);
    };
    if !has_room(outbox, 1) {
        return Ok(RequestPlan::problem(Problem::Busy));
    }
    let after = place_with(alloc, &place, entry.id())?;
    Ok(RequestPlan::see(after, Effect::Again { entry, of }))
}

/// What is to be done for the form that leaves an item as it is.
pub(crate) fn plan_answered(
    alloc: Global,
    outbox: &Outbox,
    around: &PageContext<'_>,
    pairs: &Pairs,
) -> Result<RequestPlan, AllocError>
    ensures { IfOk result (PlansAnswered around.entry.now outbox.now.list pairs.now) }
{
    match item_of(outbox, pairs) {
        None => Ok(RequestPlan::problem(Problem::BadForm)),
        Some((of, item)) if may_answer(outbox, around.mirror, of) => {
            plan_leaving(alloc, item, Effect::Answer { of })
        }
        Some((_of, item)) => plan_leaving(alloc, item, Effect::Nothing),
    }
}

/// The entry of a card over these values, under an id, with a remark; none where the card leaves an
/// attempt as it is that has no value now.
fn again_entry(
    alloc: Global,
    id: FormId,
    card: CardEntry,
    remark: &[u8],
    was: SeenValues,
) -> Result<Option<Entry>, AllocError>
    ensures { IfOk result (λ entry. entry
        ≡ again_entry (enters_later (length was) card.now) id card remark.now was) }
{
    if !enters_later(was.as_slice().len(), card.now.as_slice()) {
        return Ok(None);
    }
    let CardEntry {
        id: round,
        number,
        now,
        ..
    } = card;
    let again = CardEntry {
        id: round,
        number,
        was,
        now,
    };
    card_entry(alloc, id, again, remark)
}

/// What is to be done for an item that may be answered, of which a card is to be entered over what
/// its page showed that counts now.
fn plan_again_item(
    alloc: Global,
    outbox: &Outbox,
    around: &PageContext<'_>,
    pairs: &Pairs,
    of: u64,
    item: &Item,
) -> Result<RequestPlan, AllocError>
    ensures { IfOk result (PlansAgainItem around.entry.now outbox.now.list pairs.now of item.now) }
{
    let Some(was) = was_of(alloc, pairs.value("was"))? else {
        return Ok(RequestPlan::problem(Problem::BadForm));
    };
    let Some(card) = card_in(alloc, item.entry.text())? else {
        return Ok(RequestPlan::problem(Problem::BadForm));
    };
    let round = card.id;
    let entry = again_entry(alloc, id_at(around.ids, 0), card, around.remark, was)?;
    plan_over(alloc, outbox, around, of, round, entry, LESS)
}

/// What is to be done for the form that enters what was typed over what counts now.
pub(crate) fn plan_again(
    alloc: Global,
    outbox: &Outbox,
    around: &PageContext<'_>,
    pairs: &Pairs,
) -> Result<RequestPlan, AllocError>
    ensures { IfOk result (PlansAgain around.entry.now outbox.now.list pairs.now) }
{
    match item_of(outbox, pairs) {
        None => Ok(RequestPlan::problem(Problem::BadForm)),
        Some((of, item)) if may_answer(outbox, around.mirror, of) => {
            plan_again_item(alloc, outbox, around, pairs, of, item)
        }
        Some((_of, item)) => plan_leaving(alloc, item, Effect::Nothing),
    }
}
