//! What was sent of late, and what was sent before and is not saved.

ghost use Rattle.std.specs.Prelude.{◌≡◌, ◌++◌, ◌∷◌, [], IfOk, OnOk, map};
ghost use Rattle.table_service.specs.Recents.{AreBy, AreRecent, IsBy, IsByOf, is_shown};
ghost use Rattle.table_service.specs.Recents.{left_after, shown, shown_if};

use acceptor::entry::Entry;
use card_forms::card_in;
use last_change::last_change;
use mirror::Mirror;
use outbox::{Item, ItemState, Outbox, state_of};
use std::alloc::{AllocError, Global};
use table_views::Recent;

/// How many of the items that are saved are shown.
const MOST_SAVED: u8 = 10;

/// By which entry the attempts of a card's competitor count as they do, if the text is a card.
fn by_of(alloc: Global, mirror: &Mirror, entry: &Entry) -> Result<Option<u32>, AllocError>
    ensures { IfOk result (IsByOf mirror.now entry.now.text) }
{
    match card_in(alloc, entry.text())? {
        Some(card) => last_change(alloc, mirror, card.id, card.number),
        None => Ok(None),
    }
}

/// By which entry the attempts count as they do that were changed meanwhile.
fn by(
    alloc: Global,
    mirror: &Mirror,
    entry: &Entry,
    state: ItemState,
) -> Result<Option<u32>, AllocError>
    ensures { IfOk result (IsBy mirror.now entry.now.text state) }
{
    match state {
        ItemState::Changed { .. } => by_of(alloc, mirror, entry),
        _ => Ok(None),
    }
}

/// Whether an item in this state is shown, where this many more saved items may be shown.
fn is_shown(state: ItemState, is_answered: bool, left: u8) -> bool
    ensures { result ≡ is_shown state is_answered left }
{
    match state {
        ItemState::Saved { .. } => left > 0,
        _ => !is_answered,
    }
}

/// How many more saved items may be shown after an item in this state.
fn left_after(state: ItemState, left: u8) -> u8
    ensures { result ≡ left_after state left }
{
    match state {
        ItemState::Saved { .. } => left.saturating_sub(1),
        _ => left,
    }
}

/// Puts an item after the others.
fn push_recent<'a>(
    alloc: Global,
    recents: &mut Vec<Recent<'a>>,
    mirror: &Mirror,
    item: &'a Item,
    state: ItemState,
) -> Result<(), AllocError>
    ensures shown { OnOk result (map shown recents.new.items
        ≡ map shown recents.old.items ++ (item.now, state) ∷ []) }
    ensures by { OnOk result (AreBy mirror.now recents.old.items
        → AreBy mirror.now recents.new.items) }
{
    let by = by(alloc, mirror, &item.entry, state)?;
    recents.push(Recent { item, state, by })?;
    Ok(())
}

/// Puts an item after the others, if it is shown.
fn push_if<'a>(
    alloc: Global,
    recents: &mut Vec<Recent<'a>>,
    mirror: &Mirror,
    item: &'a Item,
    state: ItemState,
    shows: bool,
) -> Result<(), AllocError>
    ensures shown { OnOk result (map shown recents.new.items
        ≡ map shown recents.old.items ++ shown_if shows item.now state) }
    ensures by { OnOk result (AreBy mirror.now recents.old.items
        → AreBy mirror.now recents.new.items) }
{
    if shows {
        push_recent(alloc, recents, mirror, item, state)
    } else {
        Ok(())
    }
}

/// The items that are not saved and that no scoretaker has answered, and the last ten that are
/// saved, newest first, each with what the log of the mirror says became of it.
pub(crate) fn recents_of<'a>(
    alloc: Global,
    outbox: &'a Outbox,
    mirror: &Mirror,
) -> Result<Vec<Recent<'a>>, AllocError>
    ensures { IfOk result (λ recents. AreRecent mirror.now outbox.now.list recents.items) }
{
    let mut recents = Vec::new(alloc);
    let mut left = MOST_SAVED;
    let count = outbox.len();
    for later in 0..count {
        let Some((id, item)) = outbox.at(count - 1 - later) else {
            return Ok(recents);
        };
        let state = state_of(mirror, &item.entry);
        let shows = is_shown(state, outbox.is_answered(*id), left);
        push_if(alloc, &mut recents, mirror, item, state, shows)?;
        left = left_after(state, left);
    }
    Ok(recents)
}
