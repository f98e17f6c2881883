//! The page that opens and closes rounds.

ghost use Rattle.std.specs.Prelude.{◌≡◌, ◌++◌, IfOk, OnOk, flat_map, option_map};
ghost use Rattle.commands.specs.Accepted.{is_final, round_by};
ghost use Rattle.table_views.specs.Logs.{accepted_in};
ghost use Rattle.table_round_views.specs.Rounds.{all_section, next_link, rounds_page, link_to_next};
ghost use Rattle.table_round_views.specs.Rounds.{closed_forms, inside, opened_forms, running_forms};
ghost use Rattle.table_round_views.specs.Rounds.{edition_section, round_section, unopened_forms};
ghost use Rattle.table_round_views.specs.Rounds.{event_row, closed_or_open_forms, proposed_opening};
ghost use Rattle.table_round_views.specs.Rounds.{forms_if, state_of, state_words, link, link_after};
ghost use Rattle.table_round_views.specs.Rounds.{is_next, called, link_in, row_of};

use crate::closing::{push_open_round, push_through};
use crate::opening::push_opening;
use crate::proposal::proposed;
use crate::reopening::push_again;
use crate::scrambles::push_scrambles;
use acceptor::NoMemory;
use commands::Meet;
use formats::{Advance, Event, LAST_ROUND};
use markup::Piece::{Html, Number};
use markup::fill;
use round_counts::{OpenedRound, round_opened};
use round_words::{event_words, push_round_name, push_round_words, push_settings};
use std::alloc::Global;
use table_views::{PageContext, ROUNDS, id_at, is_latest, push_edition_form, push_end, start_page};
use texts::RoundId;

/// How far a round is that has forms.
#[derive(Clone, Copy)]
pub(crate) enum RoundState {
    Closed,
    Open,
    ToOpen,
}

/// Whether nobody advances from a round.
fn is_final(advance: Advance) -> bool
    ensures { result ≡ is_final advance }
{
    match advance {
        Advance::Final => true,
        Advance::Top(_) | Advance::Percent(_) => false,
    }
}

/// Whether the rounds before it allow that a round is opened: it is an event's first, or the one
/// before it is closed and is not the final.
fn is_next(meet: &Meet, id: RoundId) -> bool
    ensures { result ≡ is_next meet.now.accepted id }
{
    if id.round <= 1 {
        return true;
    }
    let before = RoundId {
        event: id.event,
        round: id.round - 1,
    };
    match round_opened(meet, before) {
        Some(round) => round.table.is_closed() && !is_final(round.settings.advance),
        None => false,
    }
}

/// What is said of a round that was opened, or can be.
fn state_of(round: Option<OpenedRound<'_>>, next: bool) -> Option<RoundState>
    ensures { result ≡ state_of next
        (option_map (λ r. (r.settings, r.table.now)) round.entry) }
{
    match round {
        Some(round) if round.table.is_closed() => Some(RoundState::Closed),
        Some(_) => Some(RoundState::Open),
        None if next => Some(RoundState::ToOpen),
        None => None,
    }
}

/// A state in words.
fn state_words(state: RoundState) -> &'static [u8]
    ensures { result.now ≡ state_words state }
{
    match state {
        RoundState::Closed => b"closed",
        RoundState::Open => b"open",
        RoundState::ToOpen => b"to open",
    }
}

const LINK: &[u8] = b"\">Round $</a>: $</td>";

/// Adds a link to the forms of a round that is so far.
fn push_link(out: &mut Vec<u8>, id: RoundId, words: &[u8]) -> Result<(), NoMemory>
    ensures { OnOk result (out.new.items ≡ out.old.items ++ link id words.now) }
{
    out.extend_from_slice(b"<td><a href=\"/rounds?round=")?;
    push_round_name(out, id)?;
    fill(out, LINK, &[Number(id.round as u64), Html(words)])
}

/// Adds links to the forms of these rounds of an event.
fn push_links(out: &mut Vec<u8>, meet: &Meet, event: Event, rounds: &[u8]) -> Result<(), NoMemory>
    ensures { OnOk result (out.new.items
        ≡ out.old.items ++ flat_map (link_in meet.now.accepted event) rounds.now) }
{
    for round in rounds {
        let id = RoundId {
            event,
            round: *round,
        };
        if let Some(state) = state_of(round_opened(meet, id), is_next(meet, id)) {
            push_link(out, id, state_words(state))?;
        }
    }
    Ok(())
}

const ROW: &[u8] = b"<tr><th scope=\"row\">$</th>";

/// Adds the row of an event.
#[tactic(auto, unfolding(crate::specs::Rounds::row_of))]
fn push_row(out: &mut Vec<u8>, meet: &Meet, event: Event) -> Result<(), NoMemory>
    ensures { OnOk result (out.new.items ≡ out.old.items ++ row_of meet.now.accepted event) }
{
    fill(out, ROW, &[Html(event_words(event).as_bytes())])?;
    push_links(out, meet, event, &ROUNDS)?;
    out.extend_from_slice(b"</tr>\n")
}

/// Adds the rows of those of the events that the edition has.
fn push_events(out: &mut Vec<u8>, meet: &Meet, events: &[Event]) -> Result<(), NoMemory>
    ensures { OnOk result (out.new.items
        ≡ out.old.items ++ flat_map (event_row meet.now.accepted) events.now) }
{
    for event in events {
        if event.edition() > meet.edition() {
            continue;
        }
        push_row(out, meet, *event)?;
    }
    Ok(())
}

/// Adds the form that moves to edition 4, until it holds.
fn push_edition(out: &mut Vec<u8>, around: &PageContext<'_>) -> Result<(), NoMemory>
    ensures { OnOk result (out.new.items ≡ out.old.items ++ edition_section around.entry.now) }
{
    if is_latest(around.mirror.meet()) {
        out.extend_from_slice(b"<p>Edition 4 of the commands holds.</p>\n")
    } else {
        push_edition_form(out, around.token, id_at(around.ids, 0), b"/rounds")
    }
}

/// Adds the rounds of all events, with links to their forms.
fn push_all(out: &mut Vec<u8>, around: &PageContext<'_>) -> Result<(), NoMemory>
    ensures { OnOk result (out.new.items ≡ out.old.items ++ all_section around.entry.now) }
{
    out.extend_from_slice(
        b"<section><h1>Open and close rounds</h1>\n<table><caption>By event</caption><tbody>\n",
    )?;
    push_events(out, around.mirror.meet(), &Event::ALL)?;
    out.extend_from_slice(b"</tbody></table>\n")?;
    push_edition(out, around)?;
    out.extend_from_slice(b"</section>\n")
}

/// Adds a link to the forms of a round that is to be opened next.
fn push_link_to_next(out: &mut Vec<u8>, next: RoundId) -> Result<(), NoMemory>
    ensures { OnOk result (out.new.items ≡ out.old.items ++ link_to_next next) }
{
    out.extend_from_slice(b"<p><a href=\"/rounds?round=")?;
    push_round_name(out, next)?;
    out.extend_from_slice(b"\">Open the next round</a></p>\n")
}

/// Adds a link to the forms of the next round, unless this one is the last that an event can have.
fn push_link_after(out: &mut Vec<u8>, id: RoundId) -> Result<(), NoMemory>
    ensures { OnOk result (out.new.items ≡ out.old.items ++ link_after id) }
{
    if id.round >= LAST_ROUND {
        return Ok(());
    }
    push_link_to_next(
        out,
        RoundId {
            event: id.event,
            round: id.round + 1,
        },
    )
}

/// Adds a link to the forms of the next round, unless this one is the final.
fn push_next(out: &mut Vec<u8>, id: RoundId, advance: Advance) -> Result<(), NoMemory>
    ensures { OnOk result (out.new.items ≡ out.old.items ++ next_link id advance) }
{
    match advance {
        Advance::Final => Ok(()),
        Advance::Top(_) | Advance::Percent(_) => push_link_after(out, id),
    }
}

/// Adds who advances from a round that is closed, and the form that opens it again.
fn push_closed(
    out: &mut Vec<u8>,
    around: &PageContext<'_>,
    id: RoundId,
    round: OpenedRound<'_>,
) -> Result<(), NoMemory>
    ensures { OnOk result (out.new.items ≡ out.old.items ++ closed_forms around.entry.now id
        (round.entry.settings, round.entry.table.now)) }
{
    out.extend_from_slice(b"<p>The round is closed.</p>\n")?;
    push_through(out, around.mirror.meet(), id, round)?;
    push_next(out, id, round.settings.advance)?;
    push_again(out, around, id)
}

/// Adds the forms of a round that is open.
#[tactic(auto, unfolding(crate::specs::Rounds::running_forms))]
fn push_running(
    out: &mut Vec<u8>,
    around: &PageContext<'_>,
    id: RoundId,
    round: OpenedRound<'_>,
) -> Result<(), NoMemory>
    ensures { OnOk result (out.new.items ≡ out.old.items ++ running_forms around.entry.now id
        (round.entry.settings, round.entry.table.now)) }
{
    push_scrambles(out, around, id, round.settings.format)?;
    push_open_round(out, around, id, round)
}

/// Adds what there is of a round that was opened: who advances, or the forms.
fn push_closed_or_open(
    out: &mut Vec<u8>,
    around: &PageContext<'_>,
    id: RoundId,
    round: OpenedRound<'_>,
) -> Result<(), NoMemory>
    ensures { OnOk result (out.new.items ≡ out.old.items
        ++ closed_or_open_forms round.entry.table.now.is_closed around.entry.now id
        (round.entry.settings, round.entry.table.now)) }
{
    if round.table.is_closed() {
        push_closed(out, around, id, round)
    } else {
        push_running(out, around, id, round)
    }
}

/// Adds the forms of a round that was opened.
fn push_opened(
    out: &mut Vec<u8>,
    around: &PageContext<'_>,
    id: RoundId,
    round: OpenedRound<'_>,
) -> Result<(), NoMemory>
    ensures { OnOk result (out.new.items ≡ out.old.items ++ opened_forms around.entry.now id
        (round.entry.settings, round.entry.table.now)) }
{
    out.extend_from_slice(b"<p class=\"rules\">")?;
    push_settings(out, id.event, round.settings)?;
    out.extend_from_slice(b"</p>\n")?;
    push_closed_or_open(out, around, id, round)
}

/// Adds the form that opens a round, with what is proposed for it.
fn push_proposed(out: &mut Vec<u8>, around: &PageContext<'_>, id: RoundId) -> Result<(), NoMemory>
    ensures { OnOk result (out.new.items ≡ out.old.items ++ proposed_opening around.entry.now id) }
{
    let proposal = proposed(*out.allocator(), around.mirror.meet(), around.proposals, id)?;
    push_opening(out, around.token, id_at(around.ids, 0), id, proposal)
}

/// Adds the form that opens a round, or why it is not there.
fn push_unopened(out: &mut Vec<u8>, around: &PageContext<'_>, id: RoundId) -> Result<(), NoMemory>
    ensures { OnOk result (out.new.items ≡ out.old.items ++ unopened_forms around.entry.now id) }
{
    if is_next(around.mirror.meet(), id) {
        push_proposed(out, around, id)
    } else {
        out.extend_from_slice(b"<p>The round before it is not closed, or is the final.</p>\n")
    }
}

/// Adds the forms of a round.
fn push_forms(out: &mut Vec<u8>, around: &PageContext<'_>, id: RoundId) -> Result<(), NoMemory>
    ensures { OnOk result (out.new.items ≡ out.old.items
        ++ forms_if around.entry.now id (round_by (accepted_in around.entry.now.mirror.now) id)) }
{
    match round_opened(around.mirror.meet(), id) {
        Some(round) => push_opened(out, around, id, round),
        None => push_unopened(out, around, id),
    }
}

const CALLED: &[u8] = b"$, Round $";

/// Adds what a round is called: by its number, until it is opened.
fn push_called(
    out: &mut Vec<u8>,
    id: RoundId,
    round: Option<OpenedRound<'_>>,
) -> Result<(), NoMemory>
    ensures { OnOk result (out.new.items ≡ out.old.items ++ called id
        (option_map (λ r. (r.settings, r.table.now)) round.entry)) }
{
    match round {
        Some(round) => push_round_words(out, id, round.settings.advance),
        None => fill(
            out,
            CALLED,
            &[
                Html(event_words(id.event).as_bytes()),
                Number(id.round as u64),
            ],
        ),
    }
}

/// Adds the section of a round.
fn push_round(out: &mut Vec<u8>, around: &PageContext<'_>, id: RoundId) -> Result<(), NoMemory>
    ensures { OnOk result (out.new.items ≡ out.old.items ++ round_section around.entry.now id) }
{
    out.extend_from_slice(b"<section><h1>")?;
    push_called(out, id, round_opened(around.mirror.meet(), id))?;
    out.extend_from_slice(b"</h1>\n<p><a href=\"/card/")?;
    push_round_name(out, id)?;
    out.extend_from_slice(b"\">its cards</a></p>\n")?;
    push_forms(out, around, id)?;
    out.extend_from_slice(b"</section>\n")
}

/// Adds the section of a round, or that of all events.
fn push_inside(
    out: &mut Vec<u8>,
    around: &PageContext<'_>,
    round: Option<RoundId>,
) -> Result<(), NoMemory>
    ensures { OnOk result (out.new.items ≡ out.old.items ++ inside around.entry.now round) }
{
    match round {
        Some(id) => push_round(out, around, id),
        None => push_all(out, around),
    }
}

/// The page that opens and closes rounds: the rounds of all events, or the forms of one round.
pub fn rounds_page(
    alloc: Global,
    around: &PageContext<'_>,
    round: Option<RoundId>,
) -> Result<Vec<u8>, NoMemory>
    ensures { IfOk result (λ page. page.items ≡ rounds_page around.entry.now round) }
{
    let mut page = start_page(alloc, around, b"Open and close rounds")?;
    push_inside(&mut page, around, round)?;
    push_end(&mut page, around)?;
    Ok(page)
}
