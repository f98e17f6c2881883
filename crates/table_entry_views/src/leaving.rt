//! Links to the history of a result, and to the page that withdraws a competitor.

ghost use Rattle.std.specs.Prelude.{◌≡◌, ◌++◌, OnOk};
ghost use Rattle.table_entry_views.specs.Leaving.{history_words, leaving_if, leaving_line};
ghost use Rattle.table_entry_views.specs.Leaving.{leaving_words};

use crate::draft::Draft;
use crate::fields::competitor_of;
use acceptor::NoMemory;
use markup::Piece::{Html, Number};
use markup::fill;
use rounds::RoundTable;
use table_views::may_leave;
use texts::RoundId;

const HISTORY: &[u8] = b"\
<p class=\"origin\"><a href=\"/history/$-$?number=$\">History of this result</a></p>
";

fn push_history(out: &mut Vec<u8>, id: RoundId, number: u16) -> Result<(), NoMemory>
    ensures { OnOk result (out.new.items ≡ out.old.items ++ history_words id number) }
{
    fill(
        out,
        HISTORY,
        &[
            Html(id.event.name().as_bytes()),
            Number(id.round as u64),
            Number(number as u64),
        ],
    )
}

const WORDS: &[u8] = b"<p class=\"origin\"><a href=\"/person/$\">Withdraw competitor $</a></p>\n";

fn push_words(out: &mut Vec<u8>, number: u16) -> Result<(), NoMemory>
    ensures { OnOk result (out.new.items ≡ out.old.items ++ leaving_words number) }
{
    fill(out, WORDS, &[Number(number as u64), Number(number as u64)])
}

/// Adds the link for a competitor who can withdraw.
fn push_leaving_if(out: &mut Vec<u8>, table: &RoundTable, number: u16) -> Result<(), NoMemory>
    ensures { OnOk result (out.new.items ≡ out.old.items ++ leaving_if table.now number) }
{
    if may_leave(table, number) {
        push_words(out, number)
    } else {
        Ok(())
    }
}

fn push_links(
    out: &mut Vec<u8>,
    id: RoundId,
    table: &RoundTable,
    number: u16,
) -> Result<(), NoMemory>
    ensures { OnOk result (out.new.items
        ≡ out.old.items ++ (history_words id number ++ leaving_if table.now number)) }
{
    push_history(out, id, number)?;
    push_leaving_if(out, table, number)?;
    Ok(())
}

/// Adds the links of a competitor's card: to the history of the result, and, where the competitor
/// can withdraw from the round, to the page for that.
pub(crate) fn push_leaving(
    out: &mut Vec<u8>,
    id: RoundId,
    table: &RoundTable,
    draft: Draft<'_>,
) -> Result<(), NoMemory>
    ensures { OnOk result (out.new.items
        ≡ out.old.items ++ leaving_line id table.now draft.entry) }
{
    match competitor_of(draft) {
        Some(number) => push_links(out, id, table, number),
        None => Ok(()),
    }
}
