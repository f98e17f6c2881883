//! A card that is taken back.

ghost use Rattle.std.specs.Prelude.{◌≡◌, ◌++◌, ◌∷◌, [], IfOk, OnOk};
ghost use Rattle.table_service.specs.Taking.{IsFitCard};
ghost use Rattle.table_service.specs.Undoing.{PlansUndo, PlansUndoItem, back_at, back_of, may_undo};
ghost use Rattle.table_service.specs.Undoing.{time_for, typed_for, undone_entry};

use crate::answering::{item_of, plan_leaving, plan_over};
use crate::checks::is_left;
use crate::plan::{Effect, Problem, RequestPlan};
use crate::refusing::{value_at, values_left};
use acceptor::entry::Entry;
use attempts::{Unit, Value};
use card_forms::{FormId, Pairs, card_entry, card_in};
use commands::Meet;
use formats::unit_of;
use mirror::Mirror;
use outbox::{Item, ItemState, Outbox};
use std::alloc::{AllocError, Global};
use table_views::{PageContext, id_at};
use texts::{CardEntry, Entered, NewAttempts, SeenValues};

/// The longest time that is typed, in hundredths of a second.
const LONGEST: u32 = 999_999;

/// What is said where what counted before cannot be typed as a time or as no result.
const UNTYPED: &[u8] = b"what was there before cannot be entered: open the card and type it";

/// Whether the log says that the item of an id is saved, and no scoretaker has answered it.
fn may_undo(outbox: &Outbox, mirror: &Mirror, of: u64) -> bool
    ensures { result ≡ may_undo mirror.now outbox.now.list of }
{
    if outbox.is_answered(of) {
        return false;
    }
    match outbox.state(mirror, of) {
        Some(ItemState::Saved { .. }) => true,
        _ => false,
    }
}

/// A time without penalties, where it is typed as one below the limit of its round.
fn time_for(limit: Option<u32>, time: u32) -> Option<Entered>
    ensures { result ≡ time_for limit time }
{
    let below = match limit {
        Some(limit) => time < limit,
        None => true,
    };
    if below && 1 <= time && time <= LONGEST {
        Some(Entered::Time {
            hundredths: time,
            penalties: 0,
        })
    } else {
        None
    }
}

/// What is typed so that it counts as this value: a time below the limit, or no result.
fn typed_for(unit: Unit, limit: Option<u32>, value: Value) -> Option<Entered>
    ensures { result ≡ typed_for unit limit value }
{
    match (unit, value) {
        (_, Value::Dnf) => Some(Entered::Dnf),
        (_, Value::Dns) => Some(Entered::Dns),
        (Unit::Time, Value::Number(time)) => time_for(limit, time),
        (Unit::Moves | Unit::Multi, Value::Number(_)) => None,
    }
}

/// What is to count again at a place, counted from 0, where a card left these in place of those.
fn back_at(
    unit: Unit,
    limit: Option<u32>,
    left: &[Value],
    was: &[Value],
    place: usize,
) -> Option<Option<Entered>>
    ensures { result ≡ back_at unit limit left.now was.now place }
{
    let stood = value_at(was, place);
    if is_left(stood, value_at(left, place)) {
        return Some(None);
    }
    Some(Some(typed_for(unit, limit, stood?)?))
}

/// Puts what is to count after the others.
fn put(now: &mut Vec<Option<Entered>>, outcome: Option<Entered>) -> Result<(), AllocError>
    ensures { OnOk result (now.new.items ≡ now.old.items ++ outcome ∷ []) }
{
    now.push(outcome)?;
    Ok(())
}

/// What is to count again, where a card left these in place of those; none where it cannot be
/// typed.
fn back_of(
    alloc: Global,
    unit: Unit,
    limit: Option<u32>,
    left: &[Value],
    was: &[Value],
) -> Result<Option<NewAttempts>, AllocError>
    ensures { IfOk result (λ now. now ≡ back_of unit limit left.now was.now) }
{
    let mut now = Vec::new(alloc);
    for place in 0..was.len() {
        let Some(outcome) = back_at(unit, limit, left, was, place) else {
            return Ok(None);
        };
        put(&mut now, outcome)?;
    }
    Ok(Some(NewAttempts::new(now)))
}

/// The entry of the card that takes this one back, under an id, with a remark; none where what
/// counted before cannot be typed.
fn undone_entry(
    alloc: Global,
    id: FormId,
    meet: &Meet,
    card: &CardEntry,
    remark: &[u8],
) -> Result<Option<Entry>, AllocError>
    requires { IsFitCard card.now }
    ensures { IfOk result (λ entry. entry
        ≡ undone_entry meet.now.accepted id card.entry.now remark.now) }
{
    let Some(settings) = meet.settings(card.id.event, card.id.round) else {
        return Ok(None);
    };
    let left = values_left(alloc, meet, card, settings)?;
    let unit = unit_of(card.id.event);
    let Some(now) = back_of(alloc, unit, settings.limit, &left, card.was.as_slice())? else {
        return Ok(None);
    };
    let undone = CardEntry {
        id: card.id,
        number: card.number,
        was: SeenValues::new(left),
        now,
    };
    card_entry(alloc, id, undone, remark)
}

/// What is to be done for an item that is saved, and is to be taken back.
fn plan_undo_item(
    alloc: Global,
    outbox: &Outbox,
    around: &PageContext<'_>,
    of: u64,
    item: &Item,
) -> Result<RequestPlan, AllocError>
    ensures { IfOk result (PlansUndoItem around.entry.now outbox.now.list of item.now) }
{
    let Some(card) = card_in(alloc, item.entry.text())? else {
        return Ok(RequestPlan::problem(Problem::BadForm));
    };
    let id = id_at(around.ids, 0);
    let entry = undone_entry(alloc, id, around.mirror.meet(), &card, around.remark)?;
    plan_over(alloc, outbox, around, of, card.id, entry, UNTYPED)
}

/// What is to be done for the form that takes a saved card back: a new card is entered, over what
/// that card left, with what counted before it.
pub(crate) fn plan_undo(
    alloc: Global,
    outbox: &Outbox,
    around: &PageContext<'_>,
    pairs: &Pairs,
) -> Result<RequestPlan, AllocError>
    ensures { IfOk result (PlansUndo around.entry.now outbox.now.list pairs.now) }
{
    match item_of(outbox, pairs) {
        None => Ok(RequestPlan::problem(Problem::BadForm)),
        Some((of, item)) if may_undo(outbox, around.mirror, of) => {
            plan_undo_item(alloc, outbox, around, of, item)
        }
        Some((_of, item)) => plan_leaving(alloc, item, Effect::Nothing),
    }
}
