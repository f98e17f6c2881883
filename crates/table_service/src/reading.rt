//! The pages that are at paths.

ghost use Rattle.std.specs.Prelude.{◌≡◌, IfOk};
ghost use Rattle.table_service.specs.Asked.{asked_at, card_asked, fixed, history_asked, in_folder};
ghost use Rattle.table_service.specs.Asked.{number_below, round_below};

use card_forms::{Pairs, number_of, round_of};
use std::alloc::{AllocError, Global};
use texts::{RoundId, number_between};

/// The greatest number of a competitor.
const LAST_NUMBER: u64 = 9_999;

/// A page that is made of the mirror.
#[derive(Clone, Copy)]
pub(crate) enum TableView {
    /// `/`: all rounds.
    Overview,
    /// `/card/333-1`: a card, with what counts of a competitor where `?number=17` names one.
    Card { round: RoundId, number: Option<u16> },
    /// `/wall/333-1`: the sheet for the wall.
    Wall(RoundId),
    /// `/scorecards/333-1`: blank cards.
    Scorecards(RoundId),
    /// `/history/333-1?number=17`: what was entered for a competitor in a round.
    History { round: RoundId, number: u16 },
    /// `/people`.
    People,
    /// `/person/17`: a competitor.
    Person(u16),
    /// `/import`: a competition's file, or lines of commands.
    Import,
    /// `/before`: what is open before the results are sent in.
    Before,
    /// `/labels`: labels for all competitors.
    Labels,
    /// `/records/333-1`: which results of a round are personal records.
    Records(RoundId),
    /// `/rounds`, of one round where `?round=333-1` names one.
    Rounds(Option<RoundId>),
}

/// What a path and a query ask for.
#[derive(Clone, Copy)]
pub(crate) enum Resource {
    Page(TableView),
    /// `/table.css`.
    Style,
    /// `/table.js`.
    Script,
}

/// The round of a path below a folder.
pub(crate) fn round_below(path: &[u8], folder: &[u8]) -> Option<RoundId>
    ensures { result ≡ round_below folder.now path.now }
{
    match path.strip_prefix(folder) {
        Some(name) => round_of(name),
        None => None,
    }
}

/// The competitor's number of a path below a folder.
pub(crate) fn number_below(path: &[u8], folder: &[u8]) -> Option<u16>
    ensures { result ≡ number_below folder.now path.now }
{
    match path.strip_prefix(folder) {
        Some(digits) => Some(number_between(1, LAST_NUMBER, digits)? as u16),
        None => None,
    }
}

/// What is at a path that names no round and no competitor, and has no query.
fn fixed(path: &[u8]) -> Option<Resource>
    ensures { result ≡ fixed path.now }
{
    if path == b"/".as_slice() {
        Some(Resource::Page(TableView::Overview))
    } else if path == b"/people".as_slice() {
        Some(Resource::Page(TableView::People))
    } else if path == b"/import".as_slice() {
        Some(Resource::Page(TableView::Import))
    } else if path == b"/before".as_slice() {
        Some(Resource::Page(TableView::Before))
    } else if path == b"/labels".as_slice() {
        Some(Resource::Page(TableView::Labels))
    } else if path == b"/table.css".as_slice() {
        Some(Resource::Style)
    } else if path == b"/table.js".as_slice() {
        Some(Resource::Script)
    } else {
        None
    }
}

/// The page of a card of a round, for a query.
fn card_asked(alloc: Global, query: &[u8], round: RoundId) -> Result<Resource, AllocError>
    ensures { IfOk result (λ asked. asked ≡ card_asked query.now round) }
{
    let pairs = Pairs::read(alloc, query)?;
    let number = match number_of(pairs.value("number")) {
        Ok(number) => Some(number),
        Err(_) => None,
    };
    Ok(Resource::Page(TableView::Card { round, number }))
}

/// The page of what was entered for a competitor in a round, for a query that has the number.
fn history_asked(
    alloc: Global,
    query: &[u8],
    round: RoundId,
) -> Result<Option<Resource>, AllocError>
    ensures { IfOk result (λ asked. asked ≡ history_asked query.now round) }
{
    let pairs = Pairs::read(alloc, query)?;
    match number_of(pairs.value("number")) {
        Ok(number) => Ok(Some(Resource::Page(TableView::History { round, number }))),
        Err(_) => Ok(None),
    }
}

/// What is at the path of a round or of a competitor.
fn in_folder(alloc: Global, path: &[u8], query: &[u8]) -> Result<Option<Resource>, AllocError>
    ensures { IfOk result (λ asked. asked ≡ in_folder path.now query.now) }
{
    if let Some(round) = round_below(path, b"/card/") {
        let asked = card_asked(alloc, query, round)?;
        return Ok(Some(asked));
    }
    if let Some(round) = round_below(path, b"/wall/") {
        return Ok(Some(Resource::Page(TableView::Wall(round))));
    }
    if let Some(round) = round_below(path, b"/scorecards/") {
        return Ok(Some(Resource::Page(TableView::Scorecards(round))));
    }
    if let Some(round) = round_below(path, b"/records/") {
        return Ok(Some(Resource::Page(TableView::Records(round))));
    }
    if let Some(round) = round_below(path, b"/history/") {
        return history_asked(alloc, query, round);
    }
    match number_below(path, b"/person/") {
        Some(number) => Ok(Some(Resource::Page(TableView::Person(number)))),
        None => Ok(None),
    }
}

/// What is asked for, if anything is at the path.
pub(crate) fn asked_at(
    alloc: Global,
    path: &[u8],
    query: &[u8],
) -> Result<Option<Resource>, AllocError>
    ensures { IfOk result (λ asked. asked ≡ asked_at path.now query.now) }
{
    if let Some(asked) = fixed(path) {
        return Ok(Some(asked));
    }
    if path == b"/rounds".as_slice() {
        let pairs = Pairs::read(alloc, query)?;
        let round = round_of(pairs.value("round"));
        return Ok(Some(Resource::Page(TableView::Rounds(round))));
    }
    in_folder(alloc, path, query)
}
