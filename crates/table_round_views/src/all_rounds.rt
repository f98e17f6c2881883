//! The page of all rounds.

ghost use Rattle.std.specs.Prelude.{◌≡◌, ◌++◌, IfOk, OnOk, flat_map};
ghost use Rattle.table_round_views.specs.Overview.{before_link, event_lines, link_cell, overview};
ghost use Rattle.table_round_views.specs.Overview.{round_in, round_line, section, state_cell};

use acceptor::NoMemory;
use commands::Meet;
use formats::Event;
use markup::Piece::{Html, Number};
use markup::fill;
use round_counts::{OpenedRound, counts_of, round_opened};
use round_words::{push_round_name, push_round_words};
use std::alloc::Global;
use table_views::{PageContext, ROUNDS, push_end, start_page};
use texts::RoundId;

const LINK: &[u8] = b"\">$</a></td>";

/// Adds a link to what there is of a round under a path.
fn push_link(out: &mut Vec<u8>, path: &[u8], id: RoundId, words: &[u8]) -> Result<(), NoMemory>
    ensures { OnOk result (out.new.items
        ≡ out.old.items ++ link_cell path.now id words.now) }
{
    out.extend_from_slice(b"<td><a href=\"")?;
    out.extend_from_slice(path)?;
    push_round_name(out, id)?;
    fill(out, LINK, &[Html(words)])
}

/// Adds whether a round is closed.
fn push_state(out: &mut Vec<u8>, closed: bool) -> Result<(), NoMemory>
    ensures { OnOk result (out.new.items ≡ out.old.items ++ state_cell closed) }
{
    if closed {
        out.extend_from_slice(b"<td>closed</td>")
    } else {
        out.extend_from_slice(b"<td>open</td>")
    }
}

const ROW: &[u8] = b"<td>$ of $ done, $ in the middle</td>";

/// Adds the line of a round that was opened.
fn push_row(out: &mut Vec<u8>, id: RoundId, round: OpenedRound<'_>) -> Result<(), NoMemory>
    ensures { OnOk result (out.new.items ≡ out.old.items ++ round_line id
        (round.entry.settings, round.entry.table.now)) }
{
    let counts = counts_of(round.table, round.settings.format)?;
    out.extend_from_slice(b"<tr><th scope=\"row\"><a href=\"/card/")?;
    push_round_name(out, id)?;
    out.extend_from_slice(b"\">")?;
    push_round_words(out, id, round.settings.advance)?;
    out.extend_from_slice(b"</a></th>")?;
    push_state(out, round.table.is_closed())?;
    fill(
        out,
        ROW,
        &[
            Number(counts.done as u64),
            Number(counts.entrants as u64),
            Number(counts.begun as u64),
        ],
    )?;
    push_link(out, b"/rounds?round=", id, b"open and close")?;
    push_link(out, b"/wall/", id, b"sheet for the wall")?;
    push_link(out, b"/scorecards/", id, b"scorecards")?;
    out.extend_from_slice(b"</tr>\n")
}

/// Adds a line for each of these rounds of an event that was opened.
fn push_event(out: &mut Vec<u8>, meet: &Meet, event: Event, rounds: &[u8]) -> Result<(), NoMemory>
    ensures { OnOk result (out.new.items
        ≡ out.old.items ++ flat_map (round_in meet.now.accepted event) rounds.now) }
{
    for round in rounds {
        let id = RoundId {
            event,
            round: *round,
        };
        if let Some(opened) = round_opened(meet, id) {
            push_row(out, id, opened)?;
        }
    }
    Ok(())
}

fn push_events(out: &mut Vec<u8>, meet: &Meet, events: &[Event]) -> Result<(), NoMemory>
    ensures { OnOk result (out.new.items
        ≡ out.old.items ++ flat_map (event_lines meet.now.accepted) events.now) }
{
    for event in events {
        push_event(out, meet, *event, &ROUNDS)?;
    }
    Ok(())
}

const SECTION_HEAD: &[u8] = b"\
<section id=\"rounds\"><h1>Rounds</h1>
<table><caption>How far each is</caption><tbody>
";

const SECTION_END: &[u8] = b"\
</tbody></table>
<p><a href=\"/rounds\">Open a round</a> <a href=\"/labels\">Labels</a></p></section>
";

/// Adds the section of all rounds.
#[tactic(auto, unfolding(crate::specs::Overview::section))]
fn push_section(out: &mut Vec<u8>, meet: &Meet) -> Result<(), NoMemory>
    ensures { OnOk result (out.new.items ≡ out.old.items ++ section meet.now.accepted) }
{
    out.extend_from_slice(SECTION_HEAD)?;
    push_events(out, meet, &Event::ALL)?;
    out.extend_from_slice(SECTION_END)
}

const BEFORE: &[u8] = b"\
<section id=\"sending\"><p><a href=\"/before\">Before you send the results</a></p></section>
";

/// Adds the link to what is open before the results are sent in, where a competition's file is
/// beside the list.
fn push_before(out: &mut Vec<u8>, beside: bool) -> Result<(), NoMemory>
    ensures { OnOk result (out.new.items ≡ out.old.items ++ before_link beside) }
{
    if beside {
        out.extend_from_slice(BEFORE)
    } else {
        Ok(())
    }
}

/// The page of all rounds that were opened: whether each is open, how far its entrants have come,
/// and links to its cards, its forms and its paper; and where a competition's file is beside the
/// list, a link to what is open before the results are sent in.
pub fn overview(alloc: Global, around: &PageContext<'_>, beside: bool) -> Result<Vec<u8>, NoMemory>
    ensures { IfOk result (λ page. page.items ≡ overview around.entry.now beside) }
{
    let mut page = start_page(alloc, around, b"Score table")?;
    push_section(&mut page, around.mirror.meet())?;
    push_before(&mut page, beside)?;
    push_end(&mut page, around)?;
    Ok(page)
}
