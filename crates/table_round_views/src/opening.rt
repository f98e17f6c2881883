//! The form that opens a round.

ghost use Rattle.std.specs.Prelude.{◌≡◌, ◌++◌, IfOk, OnOk, flat_map};
ghost use Rattle.formats.specs.Events.{unit_of};
ghost use Rattle.table_round_views.specs.Opening.{advance_choices, advance_fields, advance_options};
ghost use Rattle.table_round_views.specs.Opening.{after_mark, come_head, come_word};
ghost use Rattle.table_round_views.specs.Opening.{amount_of, rule_fields, format_mark, limit_field};
ghost use Rattle.table_round_views.specs.Opening.{border_text, opening, opening_head, border_field};
ghost use Rattle.table_round_views.specs.Opening.{cutoff_choice, cutoff_fields, proposed_limit};
ghost use Rattle.table_round_views.specs.Opening.{cutoff_select, format_choice, most_attempts};

use crate::proposal::Proposal;
use acceptor::NoMemory;
use attempts::{Unit, Value, print_value};
use card_forms::FormId;
use formats::{Advance, Event, Format, allowed, unit_of};
use markup::Piece::{Html, Number};
use markup::fill;
use round_words::format_words;
use std::alloc::Global;
use table_views::{digits_of, push_button, push_round_form, push_text_field, push_unit_field};
use texts::RoundId;

/// What follows the value of an option.
const PLAIN: &[u8] = b"\">";

/// What follows the value of the option that is chosen beforehand.
const CHOSEN: &[u8] = b"\" selected>";

/// The numbers of attempts after which a cutoff can count.
const AFTER: [u8; 4] = [1, 2, 3, 4];

/// What follows the value in the option of a format.
fn format_mark(proposed: Option<Format>, format: Format) -> &'static [u8]
    ensures { result.now ≡ format_mark proposed format }
{
    match proposed {
        Some(proposed) if proposed == format => CHOSEN,
        _ => PLAIN,
    }
}

const FORMAT_CHOICE: &[u8] = b"<option value=\"$$$</option>\n";

/// Adds a format, where the event may have it.
fn push_format(
    out: &mut Vec<u8>,
    event: Event,
    proposed: Option<Format>,
    format: Format,
) -> Result<(), NoMemory>
    ensures { OnOk result (out.new.items
        ≡ out.old.items ++ format_choice event proposed format) }
{
    if !allowed(event, format) {
        return Ok(());
    }
    fill(
        out,
        FORMAT_CHOICE,
        &[
            Html(format.name().as_bytes()),
            Html(format_mark(proposed, format)),
            Html(format_words(format).as_bytes()),
        ],
    )
}

/// Adds those of the formats that the event may have.
fn push_formats(
    out: &mut Vec<u8>,
    event: Event,
    proposed: Option<Format>,
    formats: &[Format],
) -> Result<(), NoMemory>
    ensures { OnOk result (out.new.items
        ≡ out.old.items ++ flat_map (format_choice event proposed) formats.now) }
{
    for format in formats {
        push_format(out, event, proposed, *format)?;
    }
    Ok(())
}

/// What follows the number in the option of a number of attempts.
fn after_mark(cutoff: Option<(u8, u32)>, attempts: u8) -> &'static [u8]
    ensures { result.now ≡ after_mark cutoff attempts }
{
    match cutoff {
        Some((after, _)) if after == attempts => b" selected>",
        _ => b">",
    }
}

const CUTOFF_CHOICE: &[u8] = b"<option$$</option>\n";

fn push_each_after(
    out: &mut Vec<u8>,
    cutoff: Option<(u8, u32)>,
    attempts: &[u8],
) -> Result<(), NoMemory>
    ensures { OnOk result (out.new.items
        ≡ out.old.items ++ flat_map (cutoff_choice cutoff) attempts.now) }
{
    for number in attempts {
        fill(
            out,
            CUTOFF_CHOICE,
            &[Html(after_mark(cutoff, *number)), Number(*number as u64)],
        )?;
    }
    Ok(())
}

/// The most attempts after which a cutoff of the event can count: one less than a format has.
fn most_attempts(event: Event) -> usize
    ensures { result ≡ most_attempts event }
{
    if allowed(event, Format::Ao5) { 4 } else { 2 }
}

/// What one of the attempts has to be below, and nothing without a cutoff.
fn border_text(alloc: Global, unit: Unit, cutoff: Option<(u8, u32)>) -> Result<Vec<u8>, NoMemory>
    ensures { IfOk result (λ text. text.items ≡ border_text unit cutoff) }
{
    match cutoff {
        Some((_, border)) => print_value(alloc, Value::Number(border), unit),
        None => Ok(Vec::new(alloc)),
    }
}

/// Adds the field of what a cutoff has to be below, in this unit.
fn push_border(out: &mut Vec<u8>, unit: Unit, border: &[u8]) -> Result<(), NoMemory>
    ensures { OnOk result (out.new.items ≡ out.old.items ++ border_field unit border.now) }
{
    match unit {
        Unit::Time => push_unit_field(
            out,
            b"cutoff",
            b"one of them below (minutes and seconds as on a card: 15 is 0.15)",
            b"time",
            border,
        ),
        Unit::Moves => push_unit_field(
            out,
            b"cutoff",
            b"one of them below (a number of moves)",
            b"moves",
            border,
        ),
        Unit::Multi => Ok(()),
    }
}

/// Adds the fields of a cutoff, in this unit.
fn push_cutoff_select(
    out: &mut Vec<u8>,
    event: Event,
    unit: Unit,
    cutoff: Option<(u8, u32)>,
) -> Result<(), NoMemory>
    ensures { OnOk result (out.new.items
        ≡ out.old.items ++ cutoff_select (most_attempts event) unit cutoff) }
{
    let border = border_text(*out.allocator(), unit, cutoff)?;
    out.extend_from_slice(
        b"<label>Cutoff after <select name=\"after\">\n<option value=\"\">none</option>\n",
    )?;
    push_each_after(out, cutoff, &AFTER[..most_attempts(event)])?;
    out.extend_from_slice(b"</select> attempts</label>\n")?;
    push_border(out, unit, &border)
}

/// Adds the fields of a cutoff, which multi-blind does not have. The cutoff that holds is filled
/// in.
fn push_cutoff(out: &mut Vec<u8>, event: Event, cutoff: Option<(u8, u32)>) -> Result<(), NoMemory>
    ensures { OnOk result (out.new.items ≡ out.old.items ++ cutoff_fields event cutoff) }
{
    match unit_of(event) {
        Unit::Time => push_cutoff_select(out, event, Unit::Time, cutoff),
        Unit::Moves => push_cutoff_select(out, event, Unit::Moves, cutoff),
        Unit::Multi => Ok(()),
    }
}

/// The limit that is proposed: ten minutes, where there is none before.
fn proposed_limit(alloc: Global, limit: Option<u32>) -> Result<Vec<u8>, NoMemory>
    ensures { IfOk result (λ text. text.items ≡ proposed_limit limit) }
{
    match limit {
        Some(limit) => print_value(alloc, Value::Number(limit), Unit::Time),
        None => Vec::from_slice(alloc, b"10:00.00"),
    }
}

/// Adds the field of the time limit, which timed events have.
fn push_limit(out: &mut Vec<u8>, event: Event, proposed: Option<u32>) -> Result<(), NoMemory>
    ensures { OnOk result (out.new.items
        ≡ out.old.items ++ limit_field (unit_of event) proposed) }
{
    let limit = proposed_limit(*out.allocator(), proposed)?;
    match unit_of(event) {
        Unit::Time => push_unit_field(
            out,
            b"limit",
            b"Time limit (minutes and seconds as on a card: 10 is 0.10)",
            b"time",
            &limit,
        ),
        Unit::Moves | Unit::Multi => Ok(()),
    }
}

const ADVANCE_OPTIONS: &[u8] = b"\
<option value=\"final$nobody: it is the final</option>
<option value=\"top$a number</option>
<option value=\"pct$a percentage</option>
";

/// Adds who can advance, each option with the rest of its tag.
fn push_advance_options(
    out: &mut Vec<u8>,
    last: &'static [u8],
    top: &'static [u8],
    percent: &'static [u8],
) -> Result<(), NoMemory>
    ensures { OnOk result (out.new.items
        ≡ out.old.items ++ advance_options last.now top.now percent.now) }
{
    fill(
        out,
        ADVANCE_OPTIONS,
        &[Html(last), Html(top), Html(percent)],
    )
}

/// Adds who can advance, with this chosen beforehand.
fn push_advance_choices(out: &mut Vec<u8>, advance: Advance) -> Result<(), NoMemory>
    ensures { OnOk result (out.new.items ≡ out.old.items ++ advance_choices advance) }
{
    match advance {
        Advance::Final => push_advance_options(out, CHOSEN, PLAIN, PLAIN),
        Advance::Top(_) => push_advance_options(out, PLAIN, CHOSEN, PLAIN),
        Advance::Percent(_) => push_advance_options(out, PLAIN, PLAIN, CHOSEN),
    }
}

/// The number of those who advance, or the percentage.
fn amount_of(alloc: Global, advance: Advance) -> Result<Vec<u8>, NoMemory>
    ensures { IfOk result (λ amount. amount.items ≡ amount_of advance) }
{
    match advance {
        Advance::Final => Ok(Vec::new(alloc)),
        Advance::Top(number) => digits_of(alloc, u32::from(number)),
        Advance::Percent(percent) => digits_of(alloc, u32::from(percent)),
    }
}

/// Adds the fields of who advances, with this chosen beforehand.
pub(crate) fn push_advance(out: &mut Vec<u8>, advance: Advance) -> Result<(), NoMemory>
    ensures { OnOk result (out.new.items ≡ out.old.items ++ advance_fields advance) }
{
    let amount = amount_of(*out.allocator(), advance)?;
    out.extend_from_slice(b"<label>Who advances <select name=\"advance\">\n")?;
    push_advance_choices(out, advance)?;
    out.extend_from_slice(b"</select></label>\n")?;
    push_text_field(out, b"amount", b"how many", &amount)
}

/// Adds the fields of format, cutoff and limit, with these chosen beforehand: what the event allows
/// can be chosen.
pub(crate) fn push_rule_fields(
    out: &mut Vec<u8>,
    event: Event,
    format: Option<Format>,
    cutoff: Option<(u8, u32)>,
    limit: Option<u32>,
) -> Result<(), NoMemory>
    ensures { OnOk result (out.new.items
        ≡ out.old.items ++ rule_fields event format cutoff limit) }
{
    out.extend_from_slice(b"<label>Format <select name=\"format\">\n")?;
    push_formats(out, event, format, &Format::ALL)?;
    out.extend_from_slice(b"</select></label>\n")?;
    push_cutoff(out, event, cutoff)?;
    push_limit(out, event, limit)
}

/// The word after how many come into a round.
fn come_word(count: u16) -> &'static [u8]
    ensures { result.now ≡ come_word count }
{
    if count == 1 { b" comes" } else { b" come" }
}

const COME_HEAD: &[u8] = b"\
<h2>Open the round</h2>
<p>$$ into this round. What is chosen here is proposed: change what you like. The button opens \
the round as the fields say.</p>
";

/// Adds how many come into the round, that what the form has is proposed, and what its button does.
fn push_come(out: &mut Vec<u8>, come: u16) -> Result<(), NoMemory>
    ensures { OnOk result (out.new.items ≡ out.old.items ++ come_head come) }
{
    fill(
        out,
        COME_HEAD,
        &[Number(come as u64), Html(come_word(come))],
    )
}

const OPENING_HEAD: &[u8] = b"\
<h2>Open the round</h2>
<p>What is chosen here is proposed: change what you like. The button opens the round as the \
fields say.</p>
";

/// Adds that what the form has is proposed, how many come into the round, and what the button does.
fn push_head(out: &mut Vec<u8>, come: Option<u16>) -> Result<(), NoMemory>
    ensures { OnOk result (out.new.items ≡ out.old.items ++ opening_head come) }
{
    match come {
        Some(come) => push_come(out, come),
        None => out.extend_from_slice(OPENING_HEAD),
    }
}

/// Adds the form that opens a round, with what is proposed for it.
pub(crate) fn push_opening(
    out: &mut Vec<u8>,
    token: &[u8],
    form: FormId,
    id: RoundId,
    proposal: Proposal,
) -> Result<(), NoMemory>
    ensures { OnOk result (out.new.items ≡ out.old.items ++ opening token.now form id proposal) }
{
    push_head(out, proposal.come)?;
    push_round_form(out, token, form, b"OPEN", id)?;
    push_rule_fields(
        out,
        id.event,
        proposal.format,
        proposal.cutoff,
        proposal.limit,
    )?;
    push_advance(out, proposal.advance)?;
    push_button(out, b"Open the round")
}
