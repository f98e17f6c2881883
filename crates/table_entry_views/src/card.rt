//! The form of a card.

ghost use Rattle.std.specs.Prelude.{◌≡◌, ◌++◌, OnOk, drop, flat_map, get_or};
ghost use Rattle.table_entry_views.specs.Card.{asked_word, bounds_of_form, card_fields, card_head};
ghost use Rattle.table_entry_views.specs.declared.card.TheConstants.{FORM_END};
ghost use Rattle.table_entry_views.specs.Card.{closed_line, closed_words, form_start, form_tag};
ghost use Rattle.table_entry_views.specs.Card.{round_value, rules_of_form, spare, told, told_sure};
ghost use Rattle.table_entry_views.specs.Card.{unit_name, was_value};

use crate::bounds::floor_of;
use crate::draft::Draft;
use crate::fields::{notes_of, push_fields, push_number_field};
use crate::notes::{CardNote, WHOLE, has_fault, push_note_word, push_notes};
use acceptor::NoMemory;
use attempts::{Unit, Value};
use card_forms::{FormId, TypedText};
use commands::{Meet, print_cutoff, print_limit};
use formats::{Format, unit_of};
use markup::Piece::{Html, Number};
use markup::fill;
use round_counts::numbers_in;
use round_words::{push_round_name, push_round_words, push_settings};
use table_views::push_hidden;
use texts::{RoundId, Settings, push_was};

const TOLD_FAULT: &[u8] = b"\
<p class=\"told\">Not entered yet: what is wrong is said below.</p>
";

const SURE_END: &[u8] = b"\
\">\
<p class=\"told\">Not entered yet: Enter once more, if it is right.</p>
";

const FORM_END: &[u8] = b"\
<p class=\"results\"><output id=\"average\"></output><output id=\"best\"></output></p>
<button>Enter the card</button>
</form>
<p class=\"keys\"><kbd>d</kbd> or <kbd>/</kbd> DNF, <kbd>s</kbd> or <kbd>*</kbd> DNS \
(in fewest moves <kbd>/</kbd> and <kbd>*</kbd>), <kbd>+</kbd> after a time 2 seconds more</p>
<p class=\"options\" hidden><label><input id=\"sound\" type=\"checkbox\"> sound</label> \
<label><input id=\"blind\" type=\"checkbox\"> second reading: what differs is listed</label></p>
<p id=\"unsent\"></p>
<ol id=\"back\"></ol></section>
";

const CLOSED_START: &[u8] = b"\
<p class=\"told\">This round is closed: a card of it is refused. Until the next round \
is opened, it <a href=\"/rounds?round=";

/// What a unit is called in a form.
fn unit_name(unit: Unit) -> &'static [u8]
    ensures { result.now ≡ unit_name unit }
{
    match unit {
        Unit::Time => b"time",
        Unit::Moves => b"moves",
        Unit::Multi => b"multi",
    }
}

const SPARE: &[u8] = b" $";

fn push_spare(out: &mut Vec<u8>, id: FormId) -> Result<(), NoMemory>
    ensures { OnOk result (out.new.items ≡ out.old.items ++ spare id) }
{
    fill(out, SPARE, &[Number(id.number())])
}

/// Adds spare ids, a space before each.
fn push_spares(out: &mut Vec<u8>, ids: &[FormId]) -> Result<(), NoMemory>
    ensures { OnOk result (out.new.items ≡ out.old.items ++ flat_map spare ids.now) }
{
    for id in ids {
        push_spare(out, *id)?;
    }
    Ok(())
}

const RULES_OF_FORM: &[u8] = b"\
<form method=\"post\" action=\"/card\" autocomplete=\"off\" data-unit=\"$\" data-format=\"$\" \
data-cutoff=\"$\" data-limit=\"$";

/// Adds the beginning of a form: what the script reads of a round's rules.
fn push_rules_of_form(out: &mut Vec<u8>, settings: Settings, unit: Unit) -> Result<(), NoMemory>
    ensures { OnOk result (out.new.items ≡ out.old.items ++ rules_of_form settings unit) }
{
    let cutoff = print_cutoff(*out.allocator(), settings.cutoff)?;
    let limit = print_limit(*out.allocator(), settings.limit)?;
    fill(
        out,
        RULES_OF_FORM,
        &[
            Html(unit_name(unit)),
            Html(settings.format.name().as_bytes()),
            Html(&cutoff),
            Html(&limit),
        ],
    )
}

const BOUNDS: &[u8] = b"\" data-floor=\"$\" data-best=\"$\" data-spare=\"";

/// Adds below which the script asks about a time.
fn push_bounds(out: &mut Vec<u8>, floor: u32, best: Option<u32>) -> Result<(), NoMemory>
    ensures { OnOk result (out.new.items ≡ out.old.items ++ bounds_of_form floor best) }
{
    fill(
        out,
        BOUNDS,
        &[Number(floor as u64), Number(best.unwrap_or(0) as u64)],
    )
}

fn push_word(out: &mut Vec<u8>, note: CardNote) -> Result<(), NoMemory>
    ensures { OnOk result (out.new.items ≡ out.old.items ++ asked_word note) }
{
    out.extend_from_slice(b" ")?;
    push_note_word(out, note)
}

/// Adds the words of notes, a space before each.
fn push_words(out: &mut Vec<u8>, notes: &[CardNote]) -> Result<(), NoMemory>
    ensures { OnOk result (out.new.items ≡ out.old.items ++ flat_map asked_word notes.now) }
{
    for note in notes {
        push_word(out, *note)?;
    }
    Ok(())
}

/// Adds that a card is to be confirmed, and which notes the form then answers.
fn push_sure(out: &mut Vec<u8>, notes: &[CardNote]) -> Result<(), NoMemory>
    ensures { OnOk result (out.new.items ≡ out.old.items ++ told_sure notes.now) }
{
    out.extend_from_slice(b"<input type=\"hidden\" name=\"sure\" value=\"")?;
    push_words(out, notes)?;
    out.extend_from_slice(SURE_END)?;
    Ok(())
}

/// Adds that a card which is not entered yet is to be mended or confirmed.
fn push_told(out: &mut Vec<u8>, notes: &[CardNote]) -> Result<(), NoMemory>
    ensures { OnOk result (out.new.items ≡ out.old.items ++ told notes.now) }
{
    if notes.is_empty() {
        Ok(())
    } else if has_fault(notes) {
        out.extend_from_slice(TOLD_FAULT)
    } else {
        push_sure(out, notes)
    }
}

/// Adds the round of a form, unseen.
fn push_round_value(out: &mut Vec<u8>, id: RoundId) -> Result<(), NoMemory>
    ensures { OnOk result (out.new.items ≡ out.old.items ++ round_value id) }
{
    out.extend_from_slice(b"<input type=\"hidden\" name=\"round\" value=\"")?;
    push_round_name(out, id)?;
    out.extend_from_slice(b"\">\n")?;
    Ok(())
}

/// Adds what the page shows that counts, as `CARD` spells it, unseen.
fn push_was_value(out: &mut Vec<u8>, values: &[Value]) -> Result<(), NoMemory>
    ensures { OnOk result (out.new.items ≡ out.old.items ++ was_value values.now) }
{
    out.extend_from_slice(b"<input type=\"hidden\" name=\"was\" value=\"")?;
    push_was(out, values)?;
    out.extend_from_slice(b"\">\n")
}

/// The first of the ids of a page, which is that of its form.
pub(crate) fn first_of(ids: &[FormId; 32]) -> FormId
    ensures { result ≡ get_or ids.now 0 0 }
{
    ids[0]
}

/// Adds the tag of a form, with all ids but the first as spare ones.
#[tactic(auto, unfolding(crate::specs::Card::form_tag))]
fn push_form_tag(
    out: &mut Vec<u8>,
    ids: &[FormId; 32],
    id: RoundId,
    settings: Settings,
    best: Option<u32>,
) -> Result<(), NoMemory>
    ensures { OnOk result (out.new.items ≡ out.old.items
        ++ form_tag (flat_map spare (drop 1 ids.now)) id settings best) }
{
    let all: &[FormId] = ids.as_slice();
    push_rules_of_form(out, settings, unit_of(id.event))?;
    push_bounds(out, floor_of(id.event), best)?;
    push_spares(out, &all[1..])?;
    out.extend_from_slice(b"\">\n")?;
    Ok(())
}

/// Adds the beginning of a form: what it carries unseen, and what its page shows that counts.
pub(crate) fn push_form_start(
    out: &mut Vec<u8>,
    token: &[u8],
    ids: &[FormId; 32],
    id: RoundId,
    settings: Settings,
    best: Option<u32>,
    values: &[Value],
) -> Result<(), NoMemory>
    ensures { OnOk result (out.new.items ≡ out.old.items ++ form_start token.now
        (get_or ids.now 0 0) (flat_map spare (drop 1 ids.now)) id settings best values.now) }
{
    push_form_tag(out, ids, id, settings, best)?;
    push_hidden(out, token, first_of(ids))?;
    push_round_value(out, id)?;
    push_was_value(out, values)?;
    Ok(())
}

/// Adds that a round is closed, and where it is opened again.
#[tactic(auto, unfolding(crate::specs::Card::closed_words))]
fn push_closed_words(out: &mut Vec<u8>, id: RoundId) -> Result<(), NoMemory>
    ensures { OnOk result (out.new.items ≡ out.old.items ++ closed_words id) }
{
    out.extend_from_slice(CLOSED_START)?;
    push_round_name(out, id)?;
    out.extend_from_slice(b"\">can be opened again</a>.</p>\n")?;
    Ok(())
}

/// Adds that a round is closed, where it is.
pub(crate) fn push_closed(out: &mut Vec<u8>, id: RoundId, is_closed: bool) -> Result<(), NoMemory>
    ensures { OnOk result (out.new.items ≡ out.old.items ++ closed_line id is_closed) }
{
    if is_closed {
        push_closed_words(out, id)
    } else {
        Ok(())
    }
}

/// Adds the round and its rules.
pub(crate) fn push_head(out: &mut Vec<u8>, id: RoundId, settings: Settings) -> Result<(), NoMemory>
    ensures { OnOk result (out.new.items ≡ out.old.items ++ card_head id settings) }
{
    out.extend_from_slice(b"<section id=\"card\"><h1>")?;
    push_round_words(out, id, settings.advance)?;
    out.extend_from_slice(b"</h1>\n<p class=\"rules\">")?;
    push_settings(out, id.event, settings)?;
    out.extend_from_slice(b"</p>\n")?;
    Ok(())
}

/// Adds what is said of a card, and its fields.
pub(crate) fn push_card_fields(
    out: &mut Vec<u8>,
    meet: &Meet,
    id: RoundId,
    format: Format,
    values: &[Value],
    filled: &[TypedText],
    draft: Draft<'_>,
) -> Result<(), NoMemory>
    ensures { OnOk result (out.new.items ≡ out.old.items ++ card_fields meet.now.accepted id
        format values.now filled.now draft.entry) }
{
    let attempts = numbers_in(format);
    push_told(out, notes_of(draft))?;
    push_notes(out, WHOLE, notes_of(draft))?;
    push_number_field(out, meet, draft)?;
    push_fields(out, draft, values, filled, attempts, unit_of(id.event))?;
    Ok(())
}

/// Adds the end of the form.
pub(crate) fn push_form_end(out: &mut Vec<u8>) -> Result<(), NoMemory>
    ensures { OnOk result (out.new.items ≡ out.old.items ++ FORM_END.now) }
{
    out.extend_from_slice(FORM_END)
}
