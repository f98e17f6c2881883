//! The page of the history of one result.

ghost use Rattle.std.specs.Prelude.{◌≡◌, ◌++◌, IfOk, OnOk};
ghost use Rattle.table_entry_views.specs.History.{changes_of, changes_section, history_page};

use acceptor::NoMemory;
use log_rows::{ResultOwner, ShownEntries, write_rows};
use markup::Piece::{Html, Number, Text};
use markup::fill;
use mirror::Mirror;
use round_words::event_words;
use std::alloc::{AllocError, Global};
use table_views::{PageContext, push_bottom, push_top};
use texts::RoundId;

/// The rows of the log that changed the result, under the names of their columns.
fn changes_of(alloc: Global, mirror: &Mirror, id: RoundId, number: u16) -> Result<Vec<u8>, NoMemory>
    ensures { IfOk result (λ text. text.items ≡ changes_of mirror.now id number) }
{
    let mut text = Vec::new(alloc);
    let whose = ResultOwner {
        event: id.event,
        round: id.round,
        number,
    };
    match write_rows(
        alloc,
        mirror.log(),
        0,
        ShownEntries::ChangesOf(whose),
        &mut text,
    ) {
        Ok(()) => Ok(text),
        Err(_) => Err(AllocError),
    }
}

const SECTION: &[u8] = b"\
<section><h1>$, Round $, number $</h1>
<pre dir=\"auto\">$</pre></section>
";

/// Adds the section with these rows.
fn push_section(out: &mut Vec<u8>, id: RoundId, number: u16, text: &[u8]) -> Result<(), NoMemory>
    ensures { OnOk result (out.new.items
        ≡ out.old.items ++ changes_section id number text.now) }
{
    fill(
        out,
        SECTION,
        &[
            Html(event_words(id.event).as_bytes()),
            Number(id.round as u64),
            Number(number as u64),
            Text(text),
        ],
    )
}

/// The page of the history of one result: each entry of the log that was accepted and entered,
/// corrected or took back an attempt of the competitor in the round, or was a card of it, as
/// `desk log --who` prints it. The work is that of the whole log.
#[tactic(auto, unfolding(crate::specs::History::history_page))]
pub fn history_page(
    alloc: Global,
    around: &PageContext<'_>,
    id: RoundId,
    number: u16,
) -> Result<Vec<u8>, NoMemory>
    ensures { IfOk result (λ page. page.items ≡ history_page around.entry.now id number) }
{
    let text = changes_of(alloc, around.mirror, id, number)?;
    let mut page = Vec::new(alloc);
    push_top(&mut page, around, b"hall", b"History of a result")?;
    push_section(&mut page, id, number, &text)?;
    push_bottom(&mut page)?;
    Ok(page)
}
