//! The page of a card.

ghost use Rattle.std.specs.Prelude.{◌≡◌, ◌++◌, IfOk, OnOk, Some, option_map};
ghost use Rattle.commands.specs.Accepted.{round_by};
ghost use Rattle.round_words.specs.Words.{round_words};
ghost use Rattle.table_entry_views.specs.Page.{card_form, card_path, card_section, form_if, front};
ghost use Rattle.table_entry_views.specs.Page.{no_form, page_of, IsCardPage};
ghost use Rattle.table_views.specs.{Editions.is_latest, Logs.accepted_in};

use crate::beside::push_round;
use crate::bounds::best_in;
use crate::card::{
    first_of, push_card_fields, push_closed, push_form_end, push_form_start, push_head,
};
use crate::draft::Draft;
use crate::fields::standing_of;
use crate::leaving::push_leaving;
use crate::origin::push_origin;
use crate::past::Past;
use acceptor::NoMemory;
use round_counts::{OpenedRound, round_opened};
use round_words::{push_round_name, push_round_words};
use std::alloc::Global;
use table_views::{PageContext, is_latest, push_bottom, push_edition_form, push_recent, push_top};
use texts::{Advance, RoundId};

/// What a browser's window is called.
fn title_of(alloc: Global, id: RoundId, advance: Advance) -> Result<Vec<u8>, NoMemory>
    ensures { IfOk result (λ title. title.items ≡ round_words id advance) }
{
    let mut title = Vec::new(alloc);
    push_round_words(&mut title, id, advance)?;
    Ok(title)
}

/// Adds the form of the card, and what is said of what counts.
fn push_form(
    out: &mut Vec<u8>,
    around: &PageContext<'_>,
    id: RoundId,
    round: OpenedRound<'_>,
    draft: Draft<'_>,
    past: Past<'_>,
) -> Result<(), NoMemory>
    ensures { OnOk result (out.new.items ≡ out.old.items ++ card_form around.entry.now id
        (round.entry.settings, round.entry.table.now) draft.entry past.entry) }
{
    let values = standing_of(round.table, draft);
    let best = best_in(round.table)?;
    push_form_start(
        out,
        around.token,
        around.ids,
        id,
        round.settings,
        best,
        values,
    )?;
    push_origin(out, past.origin)?;
    push_leaving(out, id, round.table, draft)?;
    push_card_fields(
        out,
        around.mirror.meet(),
        id,
        round.settings.format,
        values,
        past.filled.as_slice(),
        draft,
    )?;
    push_form_end(out)?;
    Ok(())
}

/// The path of the page of a round's cards.
fn path_of(alloc: Global, id: RoundId) -> Result<Vec<u8>, NoMemory>
    ensures { IfOk result (λ path. path.items ≡ card_path id) }
{
    let mut path = Vec::from_slice(alloc, b"/card/")?;
    push_round_name(&mut path, id)?;
    Ok(path)
}

/// Adds the form that moves to edition 4, in place of the card's.
fn push_no_form(out: &mut Vec<u8>, around: &PageContext<'_>, id: RoundId) -> Result<(), NoMemory>
    ensures { OnOk result (out.new.items ≡ out.old.items ++ no_form around.entry.now id) }
{
    let back = path_of(*out.allocator(), id)?;
    push_edition_form(out, around.token, first_of(around.ids), &back)?;
    out.extend_from_slice(b"</section>\n")?;
    Ok(())
}

/// Adds the form of the card; in a hall of an earlier edition the one that moves to edition 4.
fn push_form_if(
    out: &mut Vec<u8>,
    around: &PageContext<'_>,
    id: RoundId,
    round: OpenedRound<'_>,
    draft: Draft<'_>,
    past: Past<'_>,
) -> Result<(), NoMemory>
    ensures { OnOk result (out.new.items ≡ out.old.items
        ++ form_if (is_latest (accepted_in around.entry.now.mirror.now)) around.entry.now id
        (round.entry.settings, round.entry.table.now) draft.entry past.entry) }
{
    if is_latest(around.mirror.meet()) {
        push_form(out, around, id, round, draft, past)
    } else {
        push_no_form(out, around, id)
    }
}

/// Adds the section of the card, which says first whether the round is closed. In a hall of an
/// earlier edition it has no form of a card.
#[tactic(auto, unfolding(crate::specs::Page::card_section))]
fn push_card(
    out: &mut Vec<u8>,
    around: &PageContext<'_>,
    id: RoundId,
    round: OpenedRound<'_>,
    draft: Draft<'_>,
    past: Past<'_>,
) -> Result<(), NoMemory>
    ensures { OnOk result (out.new.items ≡ out.old.items ++ card_section around.entry.now id
        (round.entry.settings, round.entry.table.now) draft.entry past.entry) }
{
    push_head(out, id, round.settings)?;
    push_closed(out, id, round.table.is_closed())?;
    push_form_if(out, around, id, round, draft, past)?;
    Ok(())
}

/// Adds what is before the round.
#[tactic(auto, unfolding(crate::specs::Page::front))]
fn push_front(
    out: &mut Vec<u8>,
    around: &PageContext<'_>,
    id: RoundId,
    round: OpenedRound<'_>,
    draft: Draft<'_>,
    past: Past<'_>,
) -> Result<(), NoMemory>
    ensures { OnOk result (out.new.items ≡ out.old.items ++ front around.entry.now id
        (round.entry.settings, round.entry.table.now) draft.entry past.entry) }
{
    let title = title_of(*out.allocator(), id, round.settings.advance)?;
    push_top(out, around, b"entry", &title)?;
    push_card(out, around, id, round, draft, past)?;
    push_recent(out, around)?;
    Ok(())
}

/// The page of a card of a round that was opened.
fn page_of(
    alloc: Global,
    around: &PageContext<'_>,
    id: RoundId,
    round: OpenedRound<'_>,
    draft: Draft<'_>,
    past: Past<'_>,
) -> Result<Vec<u8>, NoMemory>
    requires { round_by (accepted_in around.now.mirror.now) id
        ≡ Some (round.settings, round.table.now) }
    ensures { IfOk result (λ page. page.items ≡ page_of around.entry.now id
        (round.entry.settings, round.entry.table.now) draft.entry past.entry) }
{
    let mut page = Vec::new(alloc);
    push_front(&mut page, around, id, round, draft, past)?;
    push_round(&mut page, around.mirror.meet(), id, round)?;
    push_bottom(&mut page)?;
    Ok(page)
}

/// The page of a card of a round; none where the round was not opened.
///
/// It says whether the round is closed. It has the form of the card, filled in with the draft, that
/// carries the token, the first of the ids, the values that the page shows as counting, and the
/// times below which the script asks. Where `past` has what was entered for an attempt that counts,
/// the field has that in place of what it counts, and the form carries it. The page says which
/// entry of the log was the last on these attempts, with its remark, where `past` says so, with a
/// link for a competitor who can withdraw; and it has the cards and commands of late, and the
/// round, with the texts of its sheet. In a hall of an earlier edition it has the form
/// that enters edition 4 in place of the card's.
pub fn card_page(
    alloc: Global,
    around: &PageContext<'_>,
    id: RoundId,
    draft: Draft<'_>,
    past: Past<'_>,
) -> Result<Option<Vec<u8>>, NoMemory>
    ensures { IfOk result (λ page. IsCardPage around.entry.now id draft.entry past.entry
        (round_by (accepted_in around.entry.now.mirror.now) id)
        (option_map (λ text. text.items) page)) }
{
    let Some(round) = round_opened(around.mirror.meet(), id) else {
        return Ok(None);
    };
    let page = page_of(alloc, around, id, round, draft, past)?;
    Ok(Some(page))
}
