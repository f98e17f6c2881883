//! The bodies of the views.

ghost use Rattle.std.specs.Prelude.{◌≡◌, IfOk, option_map};
ghost use Rattle.round_words.specs.Words.{round_words};
ghost use Rattle.archive.specs.Archive.{archive_text};
ghost use Rattle.board_views.specs.Views.{all_page, body, people_page, person_page, podiums_page};
ghost use Rattle.board_views.specs.Views.{round_page, round_page_of};

use crate::all_rounds::{all_rounds, links_of, podiums_of, sections_of};
use crate::frame::page_of;
use crate::looks::{script, style};
use crate::meets::table_at;
use crate::paths::View;
use acceptor::NoMemory;
use answers::Transcript;
use archive::write_log;
use board_rounds::{push_people, push_person, push_round};
use commands::Meet;
use formats::Advance;
use markup::Piece::{Html, Text};
use mirror::Mirror;
use round_words::push_round_words;
use std::alloc::{AllocError, Global};
use texts::RoundId;

/// A round in people's words.
fn words_of(alloc: Global, id: RoundId, advance: Advance) -> Result<Vec<u8>, NoMemory>
    ensures { IfOk result (λ words. words.items ≡ round_words id advance) }
{
    let mut words = Vec::new(alloc);
    push_round_words(&mut words, id, advance)?;
    Ok(words)
}

/// The page of all rounds, under a class of the style and a name.
#[tactic(auto, unfolding(crate::specs::Views::all_page))]
fn all_page(
    alloc: Global,
    mirror: &Mirror,
    class: &[u8],
    shows: &[u8],
    title: &[u8],
) -> Result<Vec<u8>, NoMemory>
    ensures { IfOk result (λ page. page.items ≡ all_page class.now shows.now title.now mirror.now) }
{
    let rounds = all_rounds(alloc)?;
    let meet = mirror.meet();
    let links = links_of(alloc, meet, &rounds)?;
    let sections = sections_of(alloc, meet, mirror.len(), &rounds)?;
    page_of(alloc, class, Html(shows), title, &links, &sections)
}

/// The page of a round of a competition at a position, under a class of the style; none where it
/// was not opened.
#[tactic(auto, unfolding(crate::specs::Views::round_page_of))]
fn round_page_of(
    alloc: Global,
    meet: &Meet,
    class: &[u8],
    title: &[u8],
    position: u32,
    id: RoundId,
) -> Result<Option<Vec<u8>>, NoMemory>
    ensures { IfOk result (λ page. option_map (λ text. text.items) page
        ≡ round_page_of class.now title.now meet.now.accepted position id) }
{
    let Some(settings) = meet.settings(id.event, id.round) else {
        return Ok(None);
    };
    let words = words_of(alloc, id, settings.advance)?;
    let mut section = Vec::new(alloc);
    push_round(&mut section, meet, position, id)?;
    let page = page_of(alloc, class, Html(&words), title, b"", &section)?;
    Ok(Some(page))
}

/// The page of a round after the first entries of the log; none where the log has not come so far,
/// or the round was not opened in them.
#[tactic(auto, unfolding(crate::specs::Views::round_page))]
fn round_page(
    alloc: Global,
    mirror: &Mirror,
    class: &[u8],
    title: &[u8],
    position: u32,
    id: RoundId,
) -> Result<Option<Vec<u8>>, NoMemory>
    ensures { IfOk result (λ page. option_map (λ text. text.items) page
        ≡ round_page class.now title.now mirror.now position id) }
{
    if position > mirror.len() {
        return Ok(None);
    }
    if position == mirror.len() {
        return round_page_of(alloc, mirror.meet(), class, title, position, id);
    }
    let first = Transcript::of_first(alloc, mirror.log(), position)?;
    round_page_of(alloc, first.meet(), class, title, position, id)
}

/// The page of a competitor; none where the number is not registered.
#[tactic(auto, unfolding(crate::specs::Views::person_page))]
fn person_page(
    alloc: Global,
    mirror: &Mirror,
    title: &[u8],
    number: u16,
) -> Result<Option<Vec<u8>>, NoMemory>
    ensures { IfOk result (λ page. option_map (λ text. text.items) page
        ≡ person_page title.now mirror.now number) }
{
    let meet = mirror.meet();
    let Some(name) = meet.name(number) else {
        return Ok(None);
    };
    let rounds = all_rounds(alloc)?;
    let mut person = Vec::new(alloc);
    push_person(&mut person, meet, mirror.len(), number, &rounds)?;
    let page = page_of(alloc, b"one", Text(name), title, b"", &person)?;
    Ok(Some(page))
}

/// The page of the podiums.
#[tactic(auto, unfolding(crate::specs::Views::podiums_page))]
fn podiums_page(alloc: Global, mirror: &Mirror, title: &[u8]) -> Result<Vec<u8>, NoMemory>
    ensures { IfOk result (λ page. page.items ≡ podiums_page title.now mirror.now) }
{
    let rounds = all_rounds(alloc)?;
    let podiums = podiums_of(alloc, mirror.meet(), mirror.len(), &rounds)?;
    page_of(alloc, b"one", Html(b"Podiums"), title, b"", &podiums)
}

/// The page of all competitors.
#[tactic(auto, unfolding(crate::specs::Views::people_page))]
fn people_page(alloc: Global, mirror: &Mirror, title: &[u8]) -> Result<Vec<u8>, NoMemory>
    ensures { IfOk result (λ page. page.items ≡ people_page title.now mirror.now) }
{
    let mut people = Vec::new(alloc);
    push_people(&mut people, mirror.meet(), mirror.len())?;
    page_of(alloc, b"one", Html(b"Competitors"), title, b"", &people)
}

/// The archive of the log.
fn archive_of(alloc: Global, mirror: &Mirror) -> Result<Vec<u8>, NoMemory>
    ensures { IfOk result (λ text. text.items ≡ archive_text mirror.now) }
{
    let mut text = Vec::new(alloc);
    match write_log(alloc, mirror.log(), &mut text) {
        Ok(()) => Ok(text),
        Err(_) => Err(AllocError),
    }
}

/// The body of a view; none where it has a round or a competitor that is not there.
pub(crate) fn body_of(
    alloc: Global,
    mirror: &Mirror,
    title: &[u8],
    view: View,
) -> Result<Option<Vec<u8>>, NoMemory>
    ensures { IfOk result (λ made. option_map (λ text. text.items) made
        ≡ body title.now mirror.now view) }
{
    match view {
        View::Overview => Ok(Some(all_page(alloc, mirror, b"all", b"All rounds", title)?)),
        View::Hall => Ok(Some(all_page(alloc, mirror, b"hall", b"Projector", title)?)),
        View::HallRound(id) => round_page(alloc, mirror, b"hall", title, mirror.len(), id),
        View::Round(id) => round_page(alloc, mirror, b"one", title, mirror.len(), id),
        View::Table(id) => table_at(alloc, mirror, mirror.len(), id),
        View::RoundAt { position, id } => round_page(alloc, mirror, b"one", title, position, id),
        View::TableAt { position, id } => table_at(alloc, mirror, position, id),
        View::Person { number } => person_page(alloc, mirror, title, number),
        View::Podiums => Ok(Some(podiums_page(alloc, mirror, title)?)),
        View::People => Ok(Some(people_page(alloc, mirror, title)?)),
        View::Log => Ok(Some(archive_of(alloc, mirror)?)),
        View::Style => Ok(Some(Vec::from_slice(alloc, style().as_bytes())?)),
        View::Script => Ok(Some(Vec::from_slice(alloc, script().as_bytes())?)),
    }
}
