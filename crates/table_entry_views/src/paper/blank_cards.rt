//! Blank scorecards of a round.

ghost use Rattle.std.specs.Prelude.{◌≡◌, ◌++◌, IfOk, OnOk, flat_map, option_map};
ghost use Rattle.std.specs.Option.{option_copied};
ghost use Rattle.commands.specs.Accepted.{round_by};
ghost use Rattle.table_entry_views.specs.paper.Wall.{accepted_in};
ghost use Rattle.table_entry_views.specs.paper.Scorecards.{attempt_row, blank_card, blanks};
ghost use Rattle.table_entry_views.specs.paper.Scorecards.{card_of, card_start, cards_text};
ghost use Rattle.table_entry_views.specs.paper.Scorecards.{IsCardsPage, IsScorecards, row_class};
ghost use Rattle.table_entry_views.specs.paper.Scorecards.{seat_words, station_words, who};

use crate::paper::card_foot::foot;
use crate::paper::card_order::{CardSlot, seated, wca_id};
use crate::paper::frame::{push_bottom, push_top};
use crate::paper::group_lists::push_lists;
use attempts::NoMemory;
use commands::Meet;
use competition_file::{CompetitionFile, Seat};
use markup::Piece::{Html, Number, Text};
use markup::fill;
use mirror::Mirror;
use round_counts::{OpenedRound, numbers_in, round_opened};
use round_words::{push_round_words, push_settings};
use std::alloc::Global;
use texts::{RoundId, Settings};

const CARD_TABLE: &[u8] = b"\
<table><thead><tr><th></th><th>scrambler</th><th>result</th><th>judge</th>\
<th>competitor</th></tr></thead><tbody>
";

const ATTEMPT: &[u8] = b"\
<tr class=\"$\"><th scope=\"row\">$</th><td></td><td></td><td></td><td></td></tr>
";

/// The rows of two extra attempts, and the end of the table.
const CARD_TABLE_END: &[u8] = b"\
<tr class=\"extra\"><th scope=\"row\">extra</th><td></td><td></td><td></td><td></td></tr>
<tr class=\"extra\"><th scope=\"row\">extra</th><td></td><td></td><td></td><td></td></tr>
</tbody></table>
<p class=\"rules\">";

/// What is on the card of somebody whose number is not known.
const NOBODY: &[u8] = b"\
</p>
<p class=\"group\">Group <span></span></p>
<p class=\"who\"><b></b> <bdi></bdi> <span></span></p>
";

/// How many cards are on a page.
const CARDS_ON_PAGE: usize = 4;

/// The class of the row of an attempt: that after which the cutoff counts has a line below it.
fn row_class(cutoff: Option<(u8, u32)>, attempt: u8) -> &'static [u8]
    ensures { result.now ≡ row_class cutoff attempt }
{
    match cutoff {
        Some((attempts, _)) if attempts == attempt => b"cutoff",
        _ => b"attempt",
    }
}

/// Adds the row of an attempt.
fn push_attempt(out: &mut Vec<u8>, cutoff: Option<(u8, u32)>, attempt: u8) -> Result<(), NoMemory>
    ensures { OnOk result (out.new.items ≡ out.old.items ++ attempt_row cutoff attempt) }
{
    fill(
        out,
        ATTEMPT,
        &[Html(row_class(cutoff, attempt)), Number(attempt as u64)],
    )
}

fn push_attempts(
    out: &mut Vec<u8>,
    cutoff: Option<(u8, u32)>,
    attempts: &[u8],
) -> Result<(), NoMemory>
    ensures { OnOk result (out.new.items
        ≡ out.old.items ++ flat_map (attempt_row cutoff) attempts.now) }
{
    for attempt in attempts {
        push_attempt(out, cutoff, *attempt)?;
    }
    Ok(())
}

const CARD_START: &[u8] = b"\
<section class=\"scorecard\"><p class=\"hall\">$</p>
<p class=\"round\">";

fn push_card_start(out: &mut Vec<u8>, hall: &[u8]) -> Result<(), NoMemory>
    ensures { OnOk result (out.new.items ≡ out.old.items ++ card_start hall.now) }
{
    fill(out, CARD_START, &[Text(hall)])
}

const STATION: &[u8] = b", station $";

/// Adds the station, where it is known.
fn push_station(out: &mut Vec<u8>, station: Option<u16>) -> Result<(), NoMemory>
    ensures { OnOk result (out.new.items ≡ out.old.items ++ station_words station) }
{
    match station {
        Some(station) => fill(out, STATION, &[Number(station as u64)]),
        None => Ok(()),
    }
}

const GROUP: &[u8] = b"Group $";

/// Where a competitor sits, in words; nothing where it is not known.
fn seat_words(alloc: Global, seat: Option<Seat>) -> Result<Vec<u8>, NoMemory>
    ensures { IfOk result (λ words. words.items ≡ seat_words seat) }
{
    let mut words = Vec::new(alloc);
    let Some(seat) = seat else {
        return Ok(words);
    };
    fill(&mut words, GROUP, &[Number(seat.group as u64)])?;
    push_station(&mut words, seat.station)?;
    Ok(words)
}

const WHO: &[u8] = b"\
</p>
<p class=\"group\">$</p>
<p class=\"who\"><b>$</b> <bdi>$</bdi> <span>$</span></p>
";

/// Whose card it is, in HTML.
fn who<'a>(
    alloc: Global,
    number: u16,
    name: &'a [u8],
    wca_id: &'a [u8],
    seat: &'a [u8],
) -> Result<Vec<u8>, NoMemory>
    ensures { IfOk result (λ text. text.items ≡ who number name.now wca_id.now seat.now) }
{
    let mut text = Vec::new(alloc);
    fill(
        &mut text,
        WHO,
        &[Html(seat), Number(number as u64), Text(name), Text(wca_id)],
    )?;
    Ok(text)
}

/// Adds a card: whose it is, in HTML, or that it is nobody's.
fn push_card(
    out: &mut Vec<u8>,
    hall: &[u8],
    id: RoundId,
    settings: Settings,
    foot: &[u8],
    who: &[u8],
) -> Result<(), NoMemory>
    ensures { OnOk result (out.new.items
        ≡ out.old.items ++ blank_card hall.now id settings foot.now who.now) }
{
    push_card_start(out, hall)?;
    push_round_words(out, id, settings.advance)?;
    out.extend_from_slice(who)?;
    out.extend_from_slice(CARD_TABLE)?;
    push_attempts(out, settings.cutoff, numbers_in(settings.format))?;
    out.extend_from_slice(CARD_TABLE_END)?;
    push_settings(out, id.event, settings)?;
    out.extend_from_slice(foot)?;
    Ok(())
}

/// Adds the card of a slot, with this below its rules. An entrant always has a name.
fn push_card_of(
    out: &mut Vec<u8>,
    meet: &Meet,
    file: Option<&CompetitionFile>,
    hall: &[u8],
    id: RoundId,
    settings: Settings,
    foot: &[u8],
    slot: CardSlot,
) -> Result<(), NoMemory>
    ensures { OnOk result (out.new.items ≡ out.old.items ++ card_of meet.now.accepted
        (option_copied file.entry) hall.now id settings foot.now slot) }
{
    let Some(name) = meet.name(slot.number) else {
        return Ok(());
    };
    let alloc = *out.allocator();
    let seat = seat_words(alloc, slot.seat)?;
    let wca_id = wca_id(file, slot.number);
    let who = who(alloc, slot.number, name, wca_id, &seat)?;
    push_card(out, hall, id, settings, foot, &who)
}

fn push_cards(
    out: &mut Vec<u8>,
    meet: &Meet,
    file: Option<&CompetitionFile>,
    hall: &[u8],
    id: RoundId,
    settings: Settings,
    foot: &[u8],
    slots: &[CardSlot],
) -> Result<(), NoMemory>
    ensures { OnOk result (out.new.items ≡ out.old.items ++ flat_map (card_of meet.now.accepted
        (option_copied file.entry) hall.now id settings foot.now) slots.now) }
{
    for slot in slots {
        push_card_of(out, meet, file, hall, id, settings, foot, *slot)?;
    }
    Ok(())
}

/// Adds cards for people whose numbers are not known, this many.
fn push_blanks(
    out: &mut Vec<u8>,
    hall: &[u8],
    id: RoundId,
    settings: Settings,
    foot: &[u8],
    count: usize,
) -> Result<(), NoMemory>
    ensures { OnOk result (out.new.items
        ≡ out.old.items ++ blanks hall.now id settings foot.now count) }
{
    if count == 0 {
        return Ok(());
    }
    push_blanks(out, hall, id, settings, foot, count - 1)?;
    push_card(out, hall, id, settings, foot, NOBODY)?;
    Ok(())
}

/// The scorecards of these slots, cards for people whose numbers are not known, and the lists of
/// the groups.
fn page_with(
    alloc: Global,
    meet: &Meet,
    file: Option<&CompetitionFile>,
    hall: &[u8],
    id: RoundId,
    settings: Settings,
    slots: &[CardSlot],
) -> Result<Vec<u8>, NoMemory>
    ensures { IfOk result (λ page. page.items ≡ cards_text meet.now.accepted
        (option_copied file.entry) hall.now id settings slots.now) }
{
    let left = CARDS_ON_PAGE - slots.len() % CARDS_ON_PAGE;
    let foot = foot(alloc, file, id, settings.advance)?;
    let mut page = Vec::new(alloc);
    push_top(&mut page, b"scorecards", hall)?;
    push_cards(&mut page, meet, file, hall, id, settings, &foot, slots)?;
    push_blanks(&mut page, hall, id, settings, &foot, left)?;
    push_lists(&mut page, file, id, settings.advance)?;
    push_bottom(&mut page)?;
    Ok(page)
}

/// The scorecards of a round that was opened.
fn page_of(
    alloc: Global,
    meet: &Meet,
    file: Option<&CompetitionFile>,
    hall: &[u8],
    id: RoundId,
    round: OpenedRound<'_>,
) -> Result<Vec<u8>, NoMemory>
    ensures { IfOk result (λ page. IsCardsPage meet.now.accepted (option_copied file.entry)
        hall.now id round.entry.settings round.entry.table.now page.items) }
{
    let numbers = round.table.standings()?;
    let slots = seated(alloc, meet, file, id, &numbers)?;
    let page = page_with(alloc, meet, file, hall, id, round.settings, &slots)?;
    Ok(page)
}

/// Blank scorecards of the entrants of a round, four on a page of A4, to be printed: hall, round,
/// where the competitor sits, number, name, WCA ID, a row for each attempt and two for extra ones,
/// the rules, a limit that the file has for several attempts together, and a place for the seat in
/// the next round. They come by groups and stations, where a competition's file says these, and
/// else by name. The last page is filled with cards for people whose numbers are not known, of
/// which there is one at least. After them are the lists of who scrambles, runs and judges in each
/// group of the file. None where the round was not opened.
pub fn scorecards(
    alloc: Global,
    mirror: &Mirror,
    file: Option<&CompetitionFile>,
    hall: &[u8],
    id: RoundId,
) -> Result<Option<Vec<u8>>, NoMemory>
    ensures { IfOk result (λ page. IsScorecards hall.now (accepted_in mirror.now)
        (option_copied file.entry) id (round_by (accepted_in mirror.now) id)
        (option_map (λ text. text.items) page)) }
{
    let Some(round) = round_opened(mirror.meet(), id) else {
        return Ok(None);
    };
    let page = page_of(alloc, mirror.meet(), file, hall, id, round)?;
    Ok(Some(page))
}
