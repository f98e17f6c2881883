//! The cards and the commands of late.

ghost use Rattle.std.specs.Prelude.{◌≡◌, ◌++◌, IfOk, OnOk, flat_map};
ghost use Rattle.std.specs.Option.{option_copied};
ghost use Rattle.texts.specs.Fields.{enters_later};
ghost use Rattle.table_views.specs.Recent.{again_form, again_of, by_words, card_line, card_link};
ghost use Rattle.table_views.specs.Recent.{class_of, is_saved_card, item_line, leave_form, line_of};
ghost use Rattle.table_views.specs.Recent.{command_line, saved_but, saved_everywhere, saved_words};
ghost use Rattle.table_views.specs.Recent.{competitor, forms_of, undo_of, value_words, waits_words};
ghost use Rattle.table_views.specs.Recent.{line_start, newest_saved, recent_line, recent_section};
ghost use Rattle.table_views.specs.Recent.{standing_words, stands_words, state_words, undo_form};

use crate::around::{PageContext, Recent};
use crate::counts::{are_away, number_word};
use crate::desks::HallStatus;
use crate::hidden::push_hidden_number;
use crate::people::name_of;
use crate::reasons::push_why;
use crate::typed::push_typed;
use crate::values::standing;
use acceptor::NoMemory;
use attempts::{Unit, Value};
use card_forms::card_in;
use commands::Meet;
use formats::unit_of;
use markup::Piece::{Html, Number, Text};
use markup::fill;
use outbox::ItemState;
use round_words::{push_round_name, push_value};
use std::alloc::Global;
use texts::meanings::meaning_of;
use texts::{CardEntry, Entered, push_was};

/// The class of the style for what became of an item.
fn class_of(state: ItemState) -> &'static [u8]
    ensures { result.now ≡ class_of state }
{
    match state {
        ItemState::Waits => b"waits",
        ItemState::Saved { .. } => b"saved",
        ItemState::Changed { .. } => b"changed",
        ItemState::Refused { .. } | ItemState::OtherText { .. } => b"refused",
    }
}

// ---- what was sent

const COMPETITOR: &[u8] = b"?number=$\"><b>$</b> <bdi>$</bdi></a>";

/// Adds the number and the name of a competitor, to which a link leads.
fn push_competitor(out: &mut Vec<u8>, meet: &Meet, number: u16) -> Result<(), NoMemory>
    ensures { OnOk result (out.new.items ≡ out.old.items
        ++ competitor meet.now.accepted number) }
{
    fill(
        out,
        COMPETITOR,
        &[
            Number(number as u64),
            Number(number as u64),
            Text(name_of(meet, number)),
        ],
    )
}

/// Adds a link that opens a card again.
fn push_link(out: &mut Vec<u8>, meet: &Meet, card: &CardEntry) -> Result<(), NoMemory>
    ensures { OnOk result (out.new.items ≡ out.old.items
        ++ card_link meet.now.accepted card.entry.now) }
{
    out.extend_from_slice(b"<a href=\"/card/")?;
    push_round_name(out, card.id)?;
    push_competitor(out, meet, card.number)
}

fn push_card(out: &mut Vec<u8>, meet: &Meet, card: &CardEntry) -> Result<(), NoMemory>
    ensures { OnOk result (out.new.items ≡ out.old.items
        ++ card_line meet.now.accepted card.entry.now) }
{
    push_link(out, meet, card)?;
    out.extend_from_slice(b" <small>")?;
    push_round_name(out, card.id)?;
    out.extend_from_slice(b"</small> <span class=\"typed\">")?;
    let unit = unit_of(card.id.event);
    push_typed(out, unit, card.was.as_slice(), card.now.as_slice())?;
    out.extend_from_slice(b"</span>")
}

const COMMAND: &[u8] = b"<code>$</code>";

fn push_command(out: &mut Vec<u8>, text: &[u8]) -> Result<(), NoMemory>
    ensures { OnOk result (out.new.items ≡ out.old.items ++ command_line text.now) }
{
    fill(out, COMMAND, &[Text(text)])
}

/// Adds what was sent: a card as it was typed, or a command as it is.
fn push_item(
    out: &mut Vec<u8>,
    meet: &Meet,
    text: &[u8],
    card: Option<&CardEntry>,
) -> Result<(), NoMemory>
    ensures { OnOk result (out.new.items ≡ out.old.items
        ++ item_line meet.now.accepted text.now (option_copied card.entry)) }
{
    match card {
        Some(card) => push_card(out, meet, card),
        None => push_command(out, text),
    }
}

// ---- what became of it

const WAITS: &[u8] = b"waiting, $ s";

fn push_waits(out: &mut Vec<u8>, milliseconds: u64) -> Result<(), NoMemory>
    ensures { OnOk result (out.new.items ≡ out.old.items ++ waits_words milliseconds) }
{
    fill(out, WAITS, &[Number(milliseconds / 1_000)])
}

const SAVED_BUT: &[u8] = b"saved; $$";

/// Adds that an item is saved, while this many machines are away.
fn push_saved_but(out: &mut Vec<u8>, away: usize) -> Result<(), NoMemory>
    ensures { OnOk result (out.new.items ≡ out.old.items ++ saved_but away) }
{
    if away == 0 {
        return out.extend_from_slice(b"saved");
    }
    fill(
        out,
        SAVED_BUT,
        &[Html(number_word(away)), Html(are_away(away))],
    )
}

const EVERYWHERE: &[u8] = b"saved on all $ machines";

/// Adds that an item is saved on all machines, this many.
fn push_everywhere(out: &mut Vec<u8>, machines: usize) -> Result<(), NoMemory>
    ensures { OnOk result (out.new.items ≡ out.old.items ++ saved_everywhere machines) }
{
    fill(out, EVERYWHERE, &[Html(number_word(machines))])
}

/// Adds that an item is saved whose entry is at this position: on all machines, where all are known
/// to have it, and else how many are away.
fn push_saved(out: &mut Vec<u8>, desks: &HallStatus, position: u32) -> Result<(), NoMemory>
    ensures { OnOk result (out.new.items ≡ out.old.items ++ saved_words desks.now position) }
{
    if desks.is_everywhere(position as u64 + 1) {
        push_everywhere(out, desks.lengths.len())
    } else {
        push_saved_but(out, desks.away.len())
    }
}

fn push_value_words(out: &mut Vec<u8>, unit: Unit, value: Value) -> Result<(), NoMemory>
    ensures { OnOk result (out.new.items ≡ out.old.items ++ value_words unit value) }
{
    push_value(out, value, unit)?;
    out.extend_from_slice(b" ")
}

fn push_values(out: &mut Vec<u8>, unit: Unit, values: &[Value]) -> Result<(), NoMemory>
    ensures { OnOk result (out.new.items
        ≡ out.old.items ++ flat_map (value_words unit) values.now) }
{
    for value in values {
        push_value_words(out, unit, *value)?;
    }
    Ok(())
}

/// Adds what counts now.
fn push_standing(out: &mut Vec<u8>, unit: Unit, values: &[Value]) -> Result<(), NoMemory>
    ensures { OnOk result (out.new.items ≡ out.old.items ++ standing_words unit values.now) }
{
    if values.is_empty() {
        return out.extend_from_slice(b"nothing on record now");
    }
    push_values(out, unit, values)?;
    out.extend_from_slice(b"on record now")
}

/// Adds what counts now of the competitor of a card.
fn push_stands(out: &mut Vec<u8>, meet: &Meet, card: Option<&CardEntry>) -> Result<(), NoMemory>
    ensures { OnOk result (out.new.items
        ≡ out.old.items ++ stands_words meet.now.accepted (option_copied card.entry)) }
{
    let Some(card) = card else {
        return Ok(());
    };
    out.extend_from_slice(b": ")?;
    push_standing(
        out,
        unit_of(card.id.event),
        standing(meet, card.id, card.number),
    )
}

const BY: &[u8] = b", by result $";

/// Adds by which entry of the log it is so.
fn push_by(out: &mut Vec<u8>, by: Option<u32>) -> Result<(), NoMemory>
    ensures { OnOk result (out.new.items ≡ out.old.items ++ by_words by) }
{
    match by {
        Some(position) => fill(out, BY, &[Number(position as u64 + 1)]),
        None => Ok(()),
    }
}

/// Adds what became of an item: that it waits, for this many seconds, and why, where that is long;
/// that it is saved; what counts now, where that was changed meanwhile; or why it was refused.
fn push_state(
    out: &mut Vec<u8>,
    around: &PageContext<'_>,
    recent: Recent<'_>,
    card: Option<&CardEntry>,
) -> Result<(), NoMemory>
    ensures { OnOk result (out.new.items ≡ out.old.items ++ state_words around.entry.now
        recent.entry (option_copied card.entry) recent.entry.state) }
{
    match recent.state {
        ItemState::Waits => {
            push_waits(out, around.now.saturating_sub(recent.item.since))?;
            push_why(out, around.desks, recent.item.entry.id())
        }
        ItemState::Saved { position } => push_saved(out, around.desks, position),
        ItemState::Changed { .. } => {
            out.extend_from_slice(b"not entered, it was changed meanwhile")?;
            push_stands(out, around.mirror.meet(), card)?;
            push_by(out, recent.by)
        }
        ItemState::Refused { code, .. } => {
            out.extend_from_slice(b"not entered: ")?;
            out.extend_from_slice(meaning_of(code).as_bytes())
        }
        ItemState::OtherText { .. } => {
            out.extend_from_slice(b"not entered: its id was used for something else")
        }
    }
}

// ---- what a scoretaker may answer

/// Adds the form that enters what was typed over what counts now.
fn push_again(out: &mut Vec<u8>, token: &[u8], id: u64, values: &[Value]) -> Result<(), NoMemory>
    ensures { OnOk result (out.new.items
        ≡ out.old.items ++ again_form token.now id values.now) }
{
    out.extend_from_slice(b"<form method=\"post\" action=\"/again\">")?;
    push_hidden_number(out, token, id)?;
    out.extend_from_slice(b"<input type=\"hidden\" name=\"was\" value=\"")?;
    push_was(out, values)?;
    out.extend_from_slice(b"\"><button>Enter it over what is on record now</button></form>\n")
}

/// Whether something is entered for each attempt after those that count, this many: so a card over
/// them has a spelling.
pub fn enters_later(stands: usize, now: &[Option<Entered>]) -> bool
    ensures { result ≡ enters_later stands now.now }
{
    now.iter().skip(stands).all(|outcome| outcome.is_some())
}

/// Adds that form, where a card over what counts now has a spelling.
fn push_again_of(
    out: &mut Vec<u8>,
    around: &PageContext<'_>,
    id: u64,
    card: Option<&CardEntry>,
) -> Result<(), NoMemory>
    ensures { OnOk result (out.new.items
        ≡ out.old.items ++ again_of around.entry.now id (option_copied card.entry)) }
{
    let Some(card) = card else {
        return Ok(());
    };
    let values = standing(around.mirror.meet(), card.id, card.number);
    if enters_later(values.len(), card.now.as_slice()) {
        push_again(out, around.token, id, values)
    } else {
        Ok(())
    }
}

/// Adds the form that leaves an item as it is.
fn push_leave(out: &mut Vec<u8>, token: &[u8], id: u64) -> Result<(), NoMemory>
    ensures { OnOk result (out.new.items ≡ out.old.items ++ leave_form token.now id) }
{
    out.extend_from_slice(b"<form method=\"post\" action=\"/answered\">")?;
    push_hidden_number(out, token, id)?;
    out.extend_from_slice(b"<button>Leave it</button></form>\n")
}

// ---- what a scoretaker may take back

/// Whether an item is a card that is saved.
fn is_saved_card(alloc: Global, recent: Recent<'_>) -> Result<bool, NoMemory>
    ensures { IfOk result (λ saved. saved ≡ is_saved_card recent.entry) }
{
    match recent.state {
        ItemState::Saved { .. } => Ok(card_in(alloc, recent.item.entry.text())?.is_some()),
        ItemState::Waits
        | ItemState::Changed { .. }
        | ItemState::Refused { .. }
        | ItemState::OtherText { .. } => Ok(false),
    }
}

/// The id of the first of these that is a card and is saved.
fn newest_saved(alloc: Global, recents: &[Recent<'_>]) -> Result<Option<u64>, NoMemory>
    ensures { IfOk result (λ newest. newest ≡ newest_saved recents.now) }
{
    for recent in recents {
        if is_saved_card(alloc, *recent)? {
            return Ok(Some(recent.item.entry.id()));
        }
    }
    Ok(None)
}

const UNDO: &[u8] = b"\
<input type=\"hidden\" name=\"of\" value=\"$\"><button>Take back</button></form>
";

/// Adds the form that takes the card of an id back.
fn push_undo(out: &mut Vec<u8>, token: &[u8], id: u64) -> Result<(), NoMemory>
    ensures { OnOk result (out.new.items ≡ out.old.items ++ undo_form token.now id) }
{
    out.extend_from_slice(b"<form method=\"post\" action=\"/undo\">")?;
    push_hidden_number(out, token, id)?;
    fill(out, UNDO, &[Number(id)])
}

/// Adds that form where the item is the newest card that is saved.
fn push_undo_of(
    out: &mut Vec<u8>,
    token: &[u8],
    newest: Option<u64>,
    id: u64,
) -> Result<(), NoMemory>
    ensures { OnOk result (out.new.items ≡ out.old.items ++ undo_of token.now newest id) }
{
    match newest {
        Some(newest) if newest == id => push_undo(out, token, id),
        _ => Ok(()),
    }
}

/// Adds the forms by which a scoretaker answers an item that was not saved, or takes back the
/// newest card that is.
fn push_forms(
    out: &mut Vec<u8>,
    around: &PageContext<'_>,
    newest: Option<u64>,
    id: u64,
    card: Option<&CardEntry>,
    state: ItemState,
) -> Result<(), NoMemory>
    ensures { OnOk result (out.new.items
        ≡ out.old.items ++ forms_of around.entry.now newest id (option_copied card.entry) state) }
{
    match state {
        ItemState::Waits => Ok(()),
        ItemState::Saved { .. } => push_undo_of(out, around.token, newest, id),
        ItemState::Changed { .. } => {
            push_again_of(out, around, id, card)?;
            push_leave(out, around.token, id)
        }
        ItemState::Refused { .. } | ItemState::OtherText { .. } => push_leave(
            out,
            around.token,
            id,
        ),
    }
}

// ---- the section

const LINE_START: &[u8] = b"<li class=\"$\">";

fn push_line_start(out: &mut Vec<u8>, state: ItemState) -> Result<(), NoMemory>
    ensures { OnOk result (out.new.items ≡ out.old.items ++ line_start state) }
{
    fill(out, LINE_START, &[Html(class_of(state))])
}

/// Adds the line of an item, which is this card, if it is one.
fn push_line_of(
    out: &mut Vec<u8>,
    around: &PageContext<'_>,
    newest: Option<u64>,
    recent: Recent<'_>,
    card: Option<&CardEntry>,
) -> Result<(), NoMemory>
    ensures { OnOk result (out.new.items ≡ out.old.items
        ++ line_of around.entry.now newest recent.entry (option_copied card.entry)) }
{
    let entry = &recent.item.entry;
    push_line_start(out, recent.state)?;
    push_item(out, around.mirror.meet(), entry.text(), card)?;
    out.extend_from_slice(b" <em>")?;
    push_state(out, around, recent, card)?;
    out.extend_from_slice(b"</em>")?;
    push_forms(out, around, newest, entry.id(), card, recent.state)?;
    out.extend_from_slice(b"</li>\n")
}

/// Adds what was sent, and what became of it.
fn push_line(
    out: &mut Vec<u8>,
    around: &PageContext<'_>,
    newest: Option<u64>,
    recent: Recent<'_>,
) -> Result<(), NoMemory>
    ensures { OnOk result (out.new.items
        ≡ out.old.items ++ recent_line around.entry.now newest recent.entry) }
{
    let card = card_in(*out.allocator(), recent.item.entry.text())?;
    push_line_of(out, around, newest, recent, card.as_ref())
}

fn push_lines(
    out: &mut Vec<u8>,
    around: &PageContext<'_>,
    newest: Option<u64>,
    recents: &[Recent<'_>],
) -> Result<(), NoMemory>
    ensures { OnOk result (out.new.items ≡ out.old.items
        ++ flat_map (recent_line around.entry.now newest) recents.now) }
{
    for recent in recents {
        push_line(out, around, newest, *recent)?;
    }
    Ok(())
}

/// Adds the cards and the commands of late, newest first, each with what became of it, and with the
/// forms by which a scoretaker answers what was not saved, and takes back the newest card that is.
pub fn push_recent(out: &mut Vec<u8>, around: &PageContext<'_>) -> Result<(), NoMemory>
    ensures { OnOk result (out.new.items ≡ out.old.items ++ recent_section around.entry.now) }
{
    let newest = newest_saved(*out.allocator(), around.recent)?;
    out.extend_from_slice(b"<section id=\"recent\"><h2>Last entered</h2>\n<ol>\n")?;
    push_lines(out, around, newest, around.recent)?;
    out.extend_from_slice(b"</ol></section>\n")
}
