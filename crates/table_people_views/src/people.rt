//! The page of competitors.

ghost use Rattle.std.specs.Prelude.{◌≡◌, ◌++◌, IfOk, OnOk, flat_map};
ghost use Rattle.std.specs.Option.{option_copied};
ghost use Rattle.markup.specs.board_page.Adding.{Adds};
ghost use Rattle.table_people_views.specs.People.{competitor_in, competitor_line, competitors};
ghost use Rattle.table_people_views.specs.People.{IsProposed, entering, entered_in, open_choice};
ghost use Rattle.table_people_views.specs.People.{open_if, registering, IsPeoplePage, IsSection};

use acceptor::NoMemory;
use card_forms::FormId;
use commands::Meet;
use formats::Event;
use markup::Piece::{Html, Number, Text};
use markup::fill;
use round_words::event_words;
use rounds::RoundTable;
use std::alloc::Global;
use table_views::{
    PageContext, digits_of, id_at, push_button, push_choice, push_end, push_form, push_text_field,
    start_page,
};

/// The greatest number of a competitor.
const LAST_NUMBER: u16 = 9_999;

/// The number after the greatest below 9,999 that somebody has. A number below it that nobody has
/// is mostly that of a person in the competition's file who does not come.
fn free_number(meet: &Meet) -> u16
    ensures { IsProposed meet.now.accepted result }
{
    for back in 1..LAST_NUMBER {
        let number = LAST_NUMBER - back;
        if meet.name(number).is_some() {
            return number + 1;
        }
    }
    1
}

const ENTERED: &[u8] = b" $";

/// Adds the events in whose first round a competitor is.
fn push_entered(
    out: &mut Vec<u8>,
    meet: &Meet,
    number: u16,
    events: &[Event],
) -> Result<(), NoMemory>
    ensures { OnOk result (out.new.items
        ≡ out.old.items ++ flat_map (entered_in meet.now.accepted number) events.now) }
{
    for event in events {
        let first = meet.round(*event, 1);
        match first {
            Some(table) if table.place(number).is_some() => fill(
                out,
                ENTERED,
                &[Html(event.name().as_bytes())],
            )?,
            _ => {}
        }
    }
    Ok(())
}

const COMPETITOR: &[u8] = b"<tr><td>$</td><td dir=\"auto\"><a href=\"/person/$\">$</a></td><td>";

fn push_competitor(out: &mut Vec<u8>, meet: &Meet, number: u16, name: &[u8]) -> Result<(), NoMemory>
    ensures { OnOk result (out.new.items
        ≡ out.old.items ++ competitor_line meet.now.accepted number name.now) }
{
    fill(
        out,
        COMPETITOR,
        &[Number(number as u64), Number(number as u64), Text(name)],
    )?;
    push_entered(out, meet, number, &Event::ALL)?;
    out.extend_from_slice(b"</td></tr>\n")
}

/// Adds a competitor, if somebody has the number.
fn push_competitor_in(out: &mut Vec<u8>, meet: &Meet, number: u16) -> Result<(), NoMemory>
    ensures { OnOk result (out.new.items
        ≡ out.old.items ++ competitor_in meet.now.accepted number) }
{
    match meet.name(number) {
        Some(name) => push_competitor(out, meet, number, name),
        None => Ok(()),
    }
}

/// Adds the competitors up to this number, in order of their numbers.
fn push_competitors(out: &mut Vec<u8>, meet: &Meet, last: u16) -> Result<(), NoMemory>
    ensures { OnOk result (out.new.items
        ≡ out.old.items ++ competitors meet.now.accepted last) }
{
    for place in 0..last {
        push_competitor_in(out, meet, place + 1)?;
    }
    Ok(())
}

/// Adds an event, if this round of it is open.
fn push_open_if(out: &mut Vec<u8>, table: Option<&RoundTable>, event: Event) -> Result<(), NoMemory>
    ensures { OnOk result (out.new.items
        ≡ out.old.items ++ open_if event (option_copied table.entry)) }
{
    match table {
        Some(table) if !table.is_closed() => push_choice(
            out,
            event.name().as_bytes(),
            event_words(event).as_bytes(),
        ),
        _ => Ok(()),
    }
}

/// Adds an event, if its first round is open.
fn push_open_event(out: &mut Vec<u8>, meet: &Meet, event: Event) -> Result<(), NoMemory>
    ensures { OnOk result (out.new.items
        ≡ out.old.items ++ open_choice meet.now.accepted event) }
{
    push_open_if(out, meet.round(event, 1), event)
}

/// Adds those of the events whose first round is open.
fn push_open_events(out: &mut Vec<u8>, meet: &Meet, events: &[Event]) -> Result<(), NoMemory>
    ensures { OnOk result (out.new.items
        ≡ out.old.items ++ flat_map (open_choice meet.now.accepted) events.now) }
{
    for event in events {
        push_open_event(out, meet, *event)?;
    }
    Ok(())
}

const REGISTERING_HEAD: &[u8] = b"\
<h2>Register a competitor</h2>
<p>The button gives the number, which nobody may have yet, to this name.</p>
";

/// Adds the form that registers a competitor, with a number proposed.
fn push_registering(
    out: &mut Vec<u8>,
    token: &[u8],
    form: FormId,
    number: u16,
) -> Result<(), NoMemory>
    ensures { OnOk result (out.new.items
        ≡ out.old.items ++ registering token.now form number) }
{
    let digits = digits_of(*out.allocator(), number as u32)?;
    out.extend_from_slice(REGISTERING_HEAD)?;
    push_form(out, token, form, b"REG", b"/people")?;
    push_text_field(out, b"number", b"Number", &digits)?;
    push_text_field(out, b"name", b"Name", b"")?;
    push_button(out, b"Register")
}

const ENTERING_HEAD: &[u8] = b"\
<h2>Enter a competitor in an event</h2>
<p>The button enters the competitor in the first round of the event.</p>
";

/// Adds the form that enters a competitor in an event.
#[tactic(auto, unfolding(crate::specs::People::entering))]
fn push_entering(out: &mut Vec<u8>, meet: &Meet, token: &[u8], form: FormId) -> Result<(), NoMemory>
    ensures { OnOk result (out.new.items
        ≡ out.old.items ++ entering meet.now.accepted token.now form) }
{
    out.extend_from_slice(ENTERING_HEAD)?;
    push_form(out, token, form, b"ENT", b"/people")?;
    out.extend_from_slice(b"<label>Event <select name=\"event\">\n")?;
    push_open_events(out, meet, &Event::ALL)?;
    out.extend_from_slice(b"</select></label>\n")?;
    push_text_field(out, b"number", b"Number", b"")?;
    push_button(out, b"Enter")
}

const PEOPLE_HEAD: &[u8] = b"\
<table><caption>Who is registered</caption>
<thead><tr><th scope=\"col\">number</th><th scope=\"col\">name</th><th \
scope=\"col\">events</th></tr></thead><tbody>
";

const SECTION_START: &[u8] = b"\
<section><h1>Competitors</h1>
<p><a href=\"/import\">From a competition's file or from lines</a></p>
";

/// Adds the section of competitors.
fn push_section(out: &mut Vec<u8>, around: &PageContext<'_>) -> Result<(), NoMemory>
    ensures { OnOk result (Adds out.old.items out.new.items (IsSection around.entry.now)) }
{
    let meet = around.mirror.meet();
    out.extend_from_slice(SECTION_START)?;
    push_registering(out, around.token, id_at(around.ids, 0), free_number(meet))?;
    push_entering(out, meet, around.token, id_at(around.ids, 1))?;
    out.extend_from_slice(PEOPLE_HEAD)?;
    push_competitors(out, meet, LAST_NUMBER)?;
    out.extend_from_slice(b"</tbody></table></section>\n")
}

/// The page of competitors: forms that register one, and enter one in an event, and all who are
/// registered, each with a link to their page and the events in whose first round they are.
pub fn people_page(alloc: Global, around: &PageContext<'_>) -> Result<Vec<u8>, NoMemory>
    ensures { IfOk result (λ page. IsPeoplePage around.entry.now page.items) }
{
    let mut page = start_page(alloc, around, b"Competitors")?;
    push_section(&mut page, around)?;
    push_end(&mut page, around)?;
    Ok(page)
}
