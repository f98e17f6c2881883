//! The forms of a round that is open: who advances, and closing it.

ghost use Rattle.std.specs.Prelude.{◌≡◌, ◌++◌, IfOk, OnOk};
ghost use Rattle.advancement.specs.{Advancing.advancing, Advancing.quota, Waiting.waiting};
ghost use Rattle.rounds.specs.Tables.{started};
ghost use Rattle.table_round_views.specs.Closing.{change, sharing, through, tie, tied, untied};
ghost use Rattle.table_round_views.specs.Closing.{close, closing_told, closing_words, list_through};
ghost use Rattle.table_round_views.specs.Closing.{is_placed, open_round, those_placed, tied_list};

use crate::absent::push_never_came;
use crate::changing::push_changing;
use crate::opening::push_advance;
use crate::unfinished::{push_entrants, push_unfinished};
use acceptor::NoMemory;
use advancement::{advancing, quota, waiting};
use card_forms::FormId;
use commands::Meet;
use formats::Advance;
use markup::Piece::{Html, Number, Text};
use markup::fill;
use round_counts::OpenedRound;
use rounds::RoundTable;
use std::alloc::Global;
use table_views::{PageContext, id_at, is_latest, push_button, push_round_form, push_unseen};
use texts::{Command, RoundId, print};

/// Whether the entrant with a number has this place.
fn is_placed(table: &RoundTable, wanted: u16, number: u16) -> bool
    ensures { result ≡ is_placed table.now wanted number }
{
    match table.place(number) {
        Some(place) => place == wanted,
        None => false,
    }
}

/// Those of these numbers whose entrants have this place.
fn those_placed(
    alloc: Global,
    table: &RoundTable,
    wanted: Option<u16>,
    numbers: &[u16],
) -> Result<Vec<u16>, NoMemory>
    ensures { IfOk result (λ kept. kept.items ≡ those_placed table.now wanted numbers.now) }
{
    let Some(wanted) = wanted else {
        return Ok(Vec::new(alloc));
    };
    numbers
        .iter()
        .copied()
        .filter(|number| is_placed(table, wanted, *number))
        .collect(alloc)
}

/// Those of these numbers who share the place of the first.
fn sharing(alloc: Global, table: &RoundTable, numbers: &[u16]) -> Result<Vec<u16>, NoMemory>
    ensures { IfOk result (λ kept. kept.items ≡ sharing table.now numbers.now) }
{
    match numbers.first() {
        Some(first) => those_placed(alloc, table, table.place(*first), numbers),
        None => Ok(Vec::new(alloc)),
    }
}

const TIED_LIST: &[u8] = b"\
<p class=\"told\">$ could advance, but these are tied at the border, so none of them does:</p>
<ul>
";

/// Adds that these are tied at the border where this many could advance.
#[tactic(auto, unfolding(crate::specs::Closing::tied_list))]
fn push_tied_list(
    out: &mut Vec<u8>,
    meet: &Meet,
    id: RoundId,
    most: u16,
    numbers: &[u16],
) -> Result<(), NoMemory>
    ensures { OnOk result (out.new.items
        ≡ out.old.items ++ tied_list meet.now.accepted id most numbers.now) }
{
    fill(out, TIED_LIST, &[Number(most as u64)])?;
    push_entrants(out, meet, id, numbers)?;
    out.extend_from_slice(b"</ul>\n")
}

const UNTIED: &[u8] = b"<p class=\"told\">$ could advance: the others have no result.</p>\n";

/// Adds that nobody is tied where this many could advance.
fn push_untied(out: &mut Vec<u8>, most: u16) -> Result<(), NoMemory>
    ensures { OnOk result (out.new.items ≡ out.old.items ++ untied most) }
{
    fill(out, UNTIED, &[Number(most as u64)])
}

/// Adds who is tied at the border where this many could advance, or that nobody is.
fn push_tied(
    out: &mut Vec<u8>,
    meet: &Meet,
    id: RoundId,
    most: u16,
    numbers: &[u16],
) -> Result<(), NoMemory>
    ensures { OnOk result (out.new.items
        ≡ out.old.items ++ tied meet.now.accepted id most numbers.now) }
{
    if numbers.is_empty() {
        push_untied(out, most)
    } else {
        push_tied_list(out, meet, id, most, numbers)
    }
}

/// Adds who is tied at the border of a rule by which this many could advance.
fn push_tied_by(
    out: &mut Vec<u8>,
    meet: &Meet,
    id: RoundId,
    table: &RoundTable,
    advance: Advance,
    most: u16,
) -> Result<(), NoMemory>
    ensures { OnOk result (out.new.items ≡ out.old.items
        ++ tied meet.now.accepted id most (sharing table.now (waiting table.now advance))) }
{
    let waiting = waiting(*out.allocator(), table, advance)?;
    let tied = sharing(*out.allocator(), table, &waiting)?;
    push_tied(out, meet, id, most, &tied)
}

/// Adds whom a tie keeps out, where fewer advance than could.
fn push_tie(
    out: &mut Vec<u8>,
    meet: &Meet,
    id: RoundId,
    table: &RoundTable,
    advance: Advance,
    most: u16,
    through: usize,
) -> Result<(), NoMemory>
    ensures { OnOk result (out.new.items
        ≡ out.old.items ++ tie meet.now.accepted id table.now advance most through) }
{
    if through >= usize::from(most) {
        return Ok(());
    }
    push_tied_by(out, meet, id, table, advance, most)
}

const LIST_THROUGH: &[u8] = b"<h2>Who advances, as of now: $</h2>\n<ol>\n";

/// Adds these as those who advance by a rule, of this many who could.
#[tactic(auto, unfolding(crate::specs::Closing::list_through))]
fn push_list_through(
    out: &mut Vec<u8>,
    meet: &Meet,
    id: RoundId,
    table: &RoundTable,
    advance: Advance,
    most: u16,
    numbers: &[u16],
) -> Result<(), NoMemory>
    ensures { OnOk result (out.new.items
        ≡ out.old.items ++ list_through meet.now.accepted id table.now advance most numbers.now) }
{
    fill(out, LIST_THROUGH, &[Number(numbers.len() as u64)])?;
    push_entrants(out, meet, id, numbers)?;
    out.extend_from_slice(b"</ol>\n")?;
    push_tie(out, meet, id, table, advance, most, numbers.len())
}

/// Adds who advances by a rule.
fn push_through_by(
    out: &mut Vec<u8>,
    meet: &Meet,
    id: RoundId,
    table: &RoundTable,
    advance: Advance,
) -> Result<(), NoMemory>
    ensures { OnOk result (out.new.items ≡ out.old.items ++ list_through meet.now.accepted id
        table.now advance (quota advance (started table.now)) (advancing table.now advance)) }
{
    let numbers = advancing(*out.allocator(), table, advance)?;
    let most = quota(advance, table.started());
    push_list_through(out, meet, id, table, advance, most, &numbers)
}

/// Adds who advances, if the round is closed as it is.
pub(crate) fn push_through(
    out: &mut Vec<u8>,
    meet: &Meet,
    id: RoundId,
    round: OpenedRound<'_>,
) -> Result<(), NoMemory>
    ensures { OnOk result (out.new.items ≡ out.old.items ++ through meet.now.accepted id
        (round.entry.settings, round.entry.table.now)) }
{
    let advance = round.settings.advance;
    match advance {
        Advance::Final => out.extend_from_slice(b"<p>It is the final: nobody advances.</p>\n"),
        Advance::Top(_) | Advance::Percent(_) => {
            push_through_by(out, meet, id, round.table, advance)
        }
    }
}

const CHANGE_HEAD: &[u8] = b"\
<h2>Change who advances</h2>
<p>The button sets who advances to what is chosen here, and changes nothing else.</p>
";

/// Adds the form that changes who advances, with who does now chosen beforehand.
#[tactic(auto, unfolding(crate::specs::Closing::change))]
fn push_change(
    out: &mut Vec<u8>,
    token: &[u8],
    form: FormId,
    id: RoundId,
    advance: Advance,
) -> Result<(), NoMemory>
    ensures { OnOk result (out.new.items ≡ out.old.items ++ change token.now form id advance) }
{
    out.extend_from_slice(CHANGE_HEAD)?;
    push_round_form(out, token, form, b"ADV", id)?;
    push_advance(out, advance)?;
    push_button(out, b"Change who advances")
}

/// What becomes of a round that is closed: from edition 4 on it can be opened again.
fn closing_words(mends: bool) -> &'static [u8]
    ensures { result.now ≡ closing_words mends }
{
    if mends {
        b"It can be opened again until the next round is opened."
    } else {
        b"Nothing in it changes afterwards."
    }
}

const TOLD: &[u8] = b"<p>$ This is sent: <code>$</code></p>\n";

/// Adds the command that closes the round, which is sent as it is shown.
fn push_told(out: &mut Vec<u8>, mends: bool, text: &[u8]) -> Result<(), NoMemory>
    ensures { OnOk result (out.new.items ≡ out.old.items ++ closing_told mends text.now) }
{
    push_unseen(out, b"text", text)?;
    fill(out, TOLD, &[Html(closing_words(mends)), Text(text)])
}

/// Adds the form that closes the round.
fn push_close(
    out: &mut Vec<u8>,
    mends: bool,
    token: &[u8],
    form: FormId,
    id: RoundId,
) -> Result<(), NoMemory>
    ensures { OnOk result (out.new.items ≡ out.old.items ++ close mends token.now form id) }
{
    let text = print(*out.allocator(), &Command::Close { id })?;
    out.extend_from_slice(b"<h2>Close the round</h2>\n")?;
    push_round_form(out, token, form, b"CLOSE", id)?;
    push_told(out, mends, &text)?;
    push_button(out, b"Close the round")
}

/// Adds the lists and the forms of a round that is open.
#[tactic(auto, unfolding(crate::specs::Closing::open_round))]
pub(crate) fn push_open_round(
    out: &mut Vec<u8>,
    around: &PageContext<'_>,
    id: RoundId,
    round: OpenedRound<'_>,
) -> Result<(), NoMemory>
    ensures { OnOk result (out.new.items ≡ out.old.items ++ open_round around.entry.now id
        (round.entry.settings, round.entry.table.now)) }
{
    let meet = around.mirror.meet();
    push_unfinished(out, meet, id, round)?;
    push_never_came(out, around, id, round)?;
    push_through(out, meet, id, round)?;
    push_changing(out, around, id, round)?;
    push_change(
        out,
        around.token,
        id_at(around.ids, 1),
        id,
        round.settings.advance,
    )?;
    push_close(out, is_latest(meet), around.token, id_at(around.ids, 0), id)
}
