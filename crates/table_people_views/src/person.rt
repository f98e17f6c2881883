//! The page of a competitor: another name, and withdrawing from a round.

ghost use Rattle.std.specs.Prelude.{◌≡◌, ◌++◌, IfOk, OnOk, flat_map, option_map};
ghost use Rattle.table_views.specs.{Editions.edition_form, Forms.person_path};
ghost use Rattle.table_people_views.specs.Person.{leave_button, mending_or_edition, person_section};
ghost use Rattle.table_people_views.specs.Person.{leave_event, withdrawing_if, within_event};
ghost use Rattle.table_people_views.specs.Person.{leave_in, person_form, person_page, withdrawing};
ghost use Rattle.table_people_views.specs.Person.{mending, page_of, renaming, round_link, within};

use acceptor::NoMemory;
use card_forms::FormId;
use commands::Meet;
use formats::{Advance, Event};
use markup::Piece::{Number, Text};
use markup::fill;
use round_counts::round_opened;
use round_words::{push_round_name, push_round_words};
use std::alloc::Global;
use table_views::{
    PageContext, ROUNDS, digits_of, id_at, is_latest, may_leave, person_path, push_button,
    push_edition_form, push_end, push_form, push_text_field, push_unseen, start_page,
};
use texts::RoundId;

/// Adds the beginning of a form for a competitor, whose number it carries unseen.
#[tactic(auto, unfolding(crate::specs::Person::person_form))]
fn push_person_form(
    out: &mut Vec<u8>,
    token: &[u8],
    form: FormId,
    command: &[u8],
    number: u16,
) -> Result<(), NoMemory>
    ensures { OnOk result (out.new.items
        ≡ out.old.items ++ person_form token.now form command.now number) }
{
    let digits = digits_of(*out.allocator(), number as u32)?;
    let back = person_path(*out.allocator(), number)?;
    push_form(out, token, form, command, &back)?;
    push_unseen(out, b"number", &digits)
}

const RENAMING_HEAD: &[u8] = b"\
<h2>Change the name</h2>
<p>The button gives this number the name in the field, everywhere.</p>
";

/// Adds the form that gives a competitor another name, with the present one filled in.
#[tactic(auto, unfolding(crate::specs::Person::renaming))]
fn push_renaming(
    out: &mut Vec<u8>,
    token: &[u8],
    form: FormId,
    number: u16,
    name: &[u8],
) -> Result<(), NoMemory>
    ensures { OnOk result (out.new.items
        ≡ out.old.items ++ renaming token.now form number name.now) }
{
    out.extend_from_slice(RENAMING_HEAD)?;
    push_person_form(out, token, form, b"REN", number)?;
    push_text_field(out, b"name", b"Name", name)?;
    push_button(out, b"Change the name")
}

const ROUND_LINK: &[u8] = b"?number=$\">";

/// Adds a round, with a link to the competitor's card in it.
fn push_round_link(out: &mut Vec<u8>, id: RoundId, number: u16) -> Result<(), NoMemory>
    ensures { OnOk result (out.new.items ≡ out.old.items ++ round_link number id) }
{
    out.extend_from_slice(b" <a href=\"/card/")?;
    push_round_name(out, id)?;
    fill(out, ROUND_LINK, &[Number(number as u64)])?;
    push_round_name(out, id)?;
    out.extend_from_slice(b"</a>")
}

/// Adds those of these rounds of an event in which a competitor is.
fn push_rounds_of(
    out: &mut Vec<u8>,
    meet: &Meet,
    number: u16,
    event: Event,
    rounds: &[u8],
) -> Result<(), NoMemory>
    ensures { OnOk result (out.new.items
        ≡ out.old.items ++ flat_map (within meet.now.accepted number event) rounds.now) }
{
    for round in rounds {
        let id = RoundId {
            event,
            round: *round,
        };
        match round_opened(meet, id) {
            Some(opened) if opened.table.place(number).is_some() => {
                push_round_link(out, id, number)?;
            }
            _ => {}
        }
    }
    Ok(())
}

/// Adds the rounds of these events in which a competitor is.
fn push_rounds(
    out: &mut Vec<u8>,
    meet: &Meet,
    number: u16,
    events: &[Event],
) -> Result<(), NoMemory>
    ensures { OnOk result (out.new.items
        ≡ out.old.items ++ flat_map (within_event meet.now.accepted number) events.now) }
{
    for event in events {
        push_rounds_of(out, meet, number, *event, &ROUNDS)?;
    }
    Ok(())
}

/// Adds a button that withdraws from a round.
fn push_leave_button(out: &mut Vec<u8>, id: RoundId, advance: Advance) -> Result<(), NoMemory>
    ensures { OnOk result (out.new.items ≡ out.old.items ++ leave_button id advance) }
{
    out.extend_from_slice(b"<button name=\"round\" value=\"")?;
    push_round_name(out, id)?;
    out.extend_from_slice(b"\">Withdraw from ")?;
    push_round_words(out, id, advance)?;
    out.extend_from_slice(b"</button>\n")
}

/// Adds the buttons of these rounds of an event.
fn push_leave_event(
    out: &mut Vec<u8>,
    meet: &Meet,
    number: u16,
    event: Event,
    rounds: &[u8],
) -> Result<(), NoMemory>
    ensures { OnOk result (out.new.items
        ≡ out.old.items ++ flat_map (leave_in meet.now.accepted number event) rounds.now) }
{
    for round in rounds {
        let id = RoundId {
            event,
            round: *round,
        };
        match round_opened(meet, id) {
            Some(opened) if may_leave(opened.table, number) => {
                push_leave_button(out, id, opened.settings.advance)?;
            }
            _ => {}
        }
    }
    Ok(())
}

/// The buttons of all rounds of these events from which a competitor can withdraw.
fn leave_buttons(
    alloc: Global,
    meet: &Meet,
    number: u16,
    events: &[Event],
) -> Result<Vec<u8>, NoMemory>
    ensures { IfOk result (λ buttons. buttons.items
        ≡ flat_map (leave_event meet.now.accepted number) events.now) }
{
    let mut buttons = Vec::new(alloc);
    for event in events {
        push_leave_event(&mut buttons, meet, number, *event, &ROUNDS)?;
    }
    Ok(buttons)
}

const WITHDRAWING_HEAD: &[u8] = b"\
<h2>Withdraw</h2>
<p>From a round that is open, before the first attempt in it. From a first round it is taken back \
by entering the competitor once more, under <a href=\"/people\">competitors</a>. From a later \
round it can't be taken back: the best of the round before who has a result, did not advance and \
has not taken a place yet takes the place.</p>
";

/// Adds the form that withdraws a competitor from a round, with these buttons.
#[tactic(auto, unfolding(crate::specs::Person::withdrawing))]
fn push_withdrawing(
    out: &mut Vec<u8>,
    token: &[u8],
    form: FormId,
    number: u16,
    buttons: &[u8],
) -> Result<(), NoMemory>
    ensures { OnOk result (out.new.items
        ≡ out.old.items ++ withdrawing token.now form number buttons.now) }
{
    out.extend_from_slice(WITHDRAWING_HEAD)?;
    push_person_form(out, token, form, b"WDR", number)?;
    out.extend_from_slice(buttons)?;
    out.extend_from_slice(b"</form>\n")
}

/// Adds that form, where there is a button.
fn push_withdrawing_if(
    out: &mut Vec<u8>,
    token: &[u8],
    form: FormId,
    number: u16,
    buttons: &[u8],
) -> Result<(), NoMemory>
    ensures { OnOk result (out.new.items
        ≡ out.old.items ++ withdrawing_if token.now form number buttons.now) }
{
    if buttons.is_empty() {
        Ok(())
    } else {
        push_withdrawing(out, token, form, number, buttons)
    }
}

/// Adds the forms of edition 4.
#[tactic(auto, unfolding(crate::specs::Person::mending))]
fn push_mending(
    out: &mut Vec<u8>,
    around: &PageContext<'_>,
    number: u16,
    name: &[u8],
) -> Result<(), NoMemory>
    ensures { OnOk result (out.new.items
        ≡ out.old.items ++ mending around.entry.now number name.now) }
{
    let buttons = leave_buttons(*out.allocator(), around.mirror.meet(), number, &Event::ALL)?;
    push_renaming(out, around.token, id_at(around.ids, 0), number, name)?;
    push_withdrawing_if(out, around.token, id_at(around.ids, 1), number, &buttons)
}

/// Adds the form that moves to edition 4. After it the browser goes to the competitor's page.
fn push_edition(out: &mut Vec<u8>, token: &[u8], form: FormId, number: u16) -> Result<(), NoMemory>
    ensures { OnOk result (out.new.items
        ≡ out.old.items ++ edition_form token.now form (person_path number)) }
{
    let back = person_path(*out.allocator(), number)?;
    push_edition_form(out, token, form, &back)
}

/// Adds the forms of edition 4, or the form that moves to it.
fn push_mending_or_edition(
    out: &mut Vec<u8>,
    around: &PageContext<'_>,
    number: u16,
    name: &[u8],
) -> Result<(), NoMemory>
    ensures { OnOk result (out.new.items
        ≡ out.old.items ++ mending_or_edition around.entry.now number name.now) }
{
    if is_latest(around.mirror.meet()) {
        push_mending(out, around, number, name)
    } else {
        push_edition(out, around.token, id_at(around.ids, 0), number)
    }
}

const SECTION: &[u8] = b"<section><h1 dir=\"auto\">$</h1>\n<p>Number $, rounds:";

/// Adds the section of a competitor.
fn push_section(
    out: &mut Vec<u8>,
    around: &PageContext<'_>,
    number: u16,
    name: &[u8],
) -> Result<(), NoMemory>
    ensures { OnOk result (out.new.items
        ≡ out.old.items ++ person_section around.entry.now number name.now) }
{
    fill(out, SECTION, &[Text(name), Number(number as u64)])?;
    push_rounds(out, around.mirror.meet(), number, &Event::ALL)?;
    out.extend_from_slice(b"</p>\n")?;
    push_mending_or_edition(out, around, number, name)?;
    out.extend_from_slice(b"</section>\n")
}

/// The page of a competitor of this name.
fn page_of(
    alloc: Global,
    around: &PageContext<'_>,
    number: u16,
    name: &[u8],
) -> Result<Vec<u8>, NoMemory>
    ensures { IfOk result (λ page. page.items ≡ page_of around.entry.now number name.now) }
{
    let mut page = start_page(alloc, around, b"Competitor")?;
    push_section(&mut page, around, number, name)?;
    push_end(&mut page, around)?;
    Ok(page)
}

/// The page of a competitor; none where nobody has the number.
///
/// It has the name, the number and the rounds in which the competitor is, each with a link to the
/// card. In edition 4 it has a form that gives another name, and one that withdraws from each open
/// round in which the competitor is and has no attempt; before it, the form that moves to edition
/// 4.
pub fn person_page(
    alloc: Global,
    around: &PageContext<'_>,
    number: u16,
) -> Result<Option<Vec<u8>>, NoMemory>
    ensures { IfOk result (λ page. option_map (λ text. text.items) page
        ≡ person_page around.entry.now number) }
{
    let Some(name) = around.mirror.meet().name(number) else {
        return Ok(None);
    };
    let page = page_of(alloc, around, number, name)?;
    Ok(Some(page))
}
