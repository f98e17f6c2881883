//! Rounds in HTML.

ghost use Rattle.std.specs.Prelude.{◌≡◌, ◌++◌, OnOk};
ghost use Rattle.formats.specs.Events.{attempts_of};
ghost use Rattle.board_rounds.specs.Rounds.{above, attempt_headings, below, conditions, heading};
ghost use Rattle.board_rounds.specs.Rounds.{headings, link, place_heading, podium, said, section};
ghost use Rattle.board_rounds.specs.Rounds.{table_start, title};
ghost use Rattle.markup.specs.Pieces.{piece_text};
ghost use Rattle.round_words.specs.Words.{round_name, round_words, settings_words, state_words};
ghost use Rattle.board_rounds.specs.model.Shown.{IsOpened, link_shown, section_shown};

use crate::absent::push_absent;
use crate::lines::push_entrants;
use crate::shown::{BoardRound, shown_round};
use attempts::NoMemory;
use commands::Meet;
use formats::{Advance, Event, attempts_of};
use markup::Piece::{Html, Number};
use markup::{Piece, fill};
use round_words::{push_round_name, push_round_words, push_settings, push_state_words};
use texts::{RoundId, Settings};

const HEADING: &[u8] = b"<th scope=\"col\">$</th>";

const BELOW: &[u8] = b"</tbody></table>\n<p class=\"at\">as of result $</p></section>\n";

/// Adds the name of a column.
#[tactic(auto, unfolding(crate::specs::Rounds::heading))]
fn push_heading(out: &mut Vec<u8>, text: Piece<'_>) -> Result<(), NoMemory>
    ensures { OnOk result (out.new.items ≡ out.old.items ++ heading (piece_text text.entry)) }
{
    fill(out, HEADING, &[text])
}

/// Adds the names of the columns of this many attempts, which are counted from 1.
pub fn push_attempt_headings(out: &mut Vec<u8>, count: u8) -> Result<(), NoMemory>
    ensures { OnOk result (out.new.items ≡ out.old.items
        ++ attempt_headings count) }
{
    for place in 0..count {
        push_heading(out, Number(u64::from(place) + 1))?;
    }
    Ok(())
}

/// Adds title, settings, and how far it is, in one line.
fn push_said(
    out: &mut Vec<u8>,
    id: RoundId,
    settings: Settings,
    closed: bool,
) -> Result<(), NoMemory>
    ensures { OnOk result (out.new.items ≡ out.old.items ++ said id settings closed) }
{
    push_round_words(out, id, settings.advance)?;
    out.extend_from_slice(b": ")?;
    push_settings(out, id.event, settings)?;
    out.extend_from_slice(b", ")?;
    push_state_words(out, closed, settings.advance)?;
    Ok(())
}

/// Adds the name of the first column, with the line that is above it on each page of paper.
fn push_place_heading(
    out: &mut Vec<u8>,
    id: RoundId,
    settings: Settings,
    closed: bool,
) -> Result<(), NoMemory>
    ensures { OnOk result (out.new.items
        ≡ out.old.items ++ place_heading (said id settings closed)) }
{
    out.extend_from_slice(b"<th scope=\"col\" data-title=\"")?;
    push_said(out, id, settings, closed)?;
    out.extend_from_slice(b"\">place</th>")?;
    Ok(())
}

fn push_headings(
    out: &mut Vec<u8>,
    id: RoundId,
    settings: Settings,
    closed: bool,
) -> Result<(), NoMemory>
    ensures { OnOk result (out.new.items ≡ out.old.items
        ++ headings (said id settings closed) (attempts_of settings.format)) }
{
    push_place_heading(out, id, settings, closed)?;
    push_heading(out, Html(b"number"))?;
    push_heading(out, Html(b"name"))?;
    push_heading(out, Html(b"average"))?;
    push_heading(out, Html(b"best"))?;
    push_attempt_headings(out, attempts_of(settings.format))?;
    push_heading(out, Html(b"advances"))
}

fn push_table_start(
    out: &mut Vec<u8>,
    id: RoundId,
    settings: Settings,
    closed: bool,
) -> Result<(), NoMemory>
    ensures { OnOk result (out.new.items ≡ out.old.items
        ++ table_start (said id settings closed) (attempts_of settings.format)) }
{
    out.extend_from_slice(b"<thead><tr>")?;
    push_headings(out, id, settings, closed)?;
    out.extend_from_slice(b"</tr></thead><tbody>\n")?;
    Ok(())
}

fn push_title(out: &mut Vec<u8>, id: RoundId, advance: Advance) -> Result<(), NoMemory>
    ensures { OnOk result (out.new.items ≡ out.old.items
        ++ title (round_name id) (round_words id advance)) }
{
    out.extend_from_slice(b"<section id=\"")?;
    push_round_name(out, id)?;
    out.extend_from_slice(b"\"><table><caption><h2>")?;
    push_round_words(out, id, advance)?;
    out.extend_from_slice(b"</h2>\n")?;
    Ok(())
}

fn push_conditions(
    out: &mut Vec<u8>,
    event: Event,
    settings: Settings,
    closed: bool,
) -> Result<(), NoMemory>
    ensures { OnOk result (out.new.items ≡ out.old.items
        ++ conditions (settings_words event settings) (state_words closed settings.advance)) }
{
    out.extend_from_slice(b"<p class=\"told\">")?;
    push_settings(out, event, settings)?;
    out.extend_from_slice(b", <strong>")?;
    push_state_words(out, closed, settings.advance)?;
    out.extend_from_slice(b"</strong></p></caption>\n")?;
    Ok(())
}

/// Adds what is above the lines of a round.
fn push_above(out: &mut Vec<u8>, shown: BoardRound<'_>) -> Result<(), NoMemory>
    ensures { OnOk result (out.new.items ≡ out.old.items
        ++ above shown.entry.id (shown.entry.settings, shown.entry.table.now)) }
{
    let settings = shown.settings;
    let closed = shown.table.is_closed();
    push_title(out, shown.id, settings.advance)?;
    push_conditions(out, shown.id.event, settings, closed)?;
    push_table_start(out, shown.id, settings, closed)
}

/// Adds what is below the lines of a round, or of a competitor.
#[tactic(auto, unfolding(crate::specs::Rounds::below))]
pub(crate) fn push_below(out: &mut Vec<u8>, position: u32) -> Result<(), NoMemory>
    ensures { OnOk result (out.new.items ≡ out.old.items ++ below position) }
{
    fill(out, BELOW, &[Number(position as u64)])
}

/// Adds a round, or its podium.
#[tactic(auto, unfolding(crate::specs::Rounds::section_of))]
fn push_shown(
    out: &mut Vec<u8>,
    shown: BoardRound<'_>,
    podium: bool,
    position: u32,
) -> Result<(), NoMemory>
    requires { IsOpened shown }
    ensures { OnOk result (out.new.items
        ≡ out.old.items ++ section_shown podium shown.entry position) }
{
    push_above(out, shown)?;
    push_entrants(out, shown, podium)?;
    push_below(out, position)
}

/// Adds a round of a meet in HTML, as it is after this many commands, or nothing where the round
/// was not opened.
///
/// Above it are its title, as `3x3x3 Cube, Round 1`, its settings and how far it is. Each entrant
/// has a line, in the order of the sheet, with the texts of the sheet, but for these. Who has no
/// attempt has no place. Of five attempts the best and the worst are in parentheses. In an open
/// round the page says who would advance as it is, and of a final it says of nobody that they don't
/// advance. The position is below.
///
/// # Errors
///
/// Where memory runs out. A front part may have been added then.
pub fn push_round(
    out: &mut Vec<u8>,
    meet: &Meet,
    position: u32,
    id: RoundId,
) -> Result<(), NoMemory>
    ensures { OnOk result (out.new.items ≡ out.old.items
        ++ section meet.now.accepted position id) }
{
    let Some(shown) = shown_round(meet, id) else {
        return Ok(());
    };
    push_shown(out, shown, false, position)
}

/// Adds the podium of a final, as [`push_round`] adds a round, but with the lines of those alone
/// who have a place of 1 to 3 and a result: more than three where they tie. After it there is a
/// paragraph for each entrant who is absent, in the order of the sheet: for whom attempts are
/// entered, and each of them is DNS. It adds nothing where the round was not opened, or is no
/// final.
///
/// # Errors
///
/// Where memory runs out. A front part may have been added then.
pub fn push_podium(
    out: &mut Vec<u8>,
    meet: &Meet,
    position: u32,
    id: RoundId,
) -> Result<(), NoMemory>
    ensures { OnOk result (out.new.items
        ≡ out.old.items ++ podium meet.now.accepted position id) }
{
    let Some(shown) = shown_round(meet, id) else {
        return Ok(());
    };
    match shown.settings.advance {
        Advance::Final => {
            push_shown(out, shown, true, position)?;
            push_absent(out, meet, shown.table)
        }
        Advance::Top(_) | Advance::Percent(_) => Ok(()),
    }
}

#[tactic(auto, unfolding(crate::specs::Rounds::link_of))]
fn push_shown_link(out: &mut Vec<u8>, shown: BoardRound<'_>) -> Result<(), NoMemory>
    ensures { OnOk result (out.new.items ≡ out.old.items ++ link_shown shown.entry) }
{
    out.extend_from_slice(b"<a href=\"/")?;
    push_round_name(out, shown.id)?;
    out.extend_from_slice(b"\">")?;
    push_round_words(out, shown.id, shown.settings.advance)?;
    out.extend_from_slice(b"</a>\n")
}

/// Adds a link to a round's own page, `/333-1`, or nothing where the round was not opened.
///
/// # Errors
///
/// Where memory runs out. A front part may have been added then.
pub fn push_link(out: &mut Vec<u8>, meet: &Meet, id: RoundId) -> Result<(), NoMemory>
    ensures { OnOk result (out.new.items ≡ out.old.items ++ link meet.now.accepted id) }
{
    let Some(shown) = shown_round(meet, id) else {
        return Ok(());
    };
    push_shown_link(out, shown)
}
