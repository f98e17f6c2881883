//! The pages that are made of the mirror.

ghost use Rattle.std.specs.Prelude.{◌≡◌, ◌++◌, IfOk, OnOk};
ghost use Rattle.std.specs.Option.{option_copied, option_map};
ghost use Rattle.table_service.specs.Pages.{IsPage, draft_of, records_beside, records_page};
ghost use Rattle.table_service.specs.{Plans.PlansRead, Replying.ShowsIf, Requests.query_of};

use crate::plan::{PageReply, PageStatus, Problem, RequestPlan};
use crate::reading::{Resource, TableView, asked_at};
use crate::waiting::card_after;
use bytes::Bytes;
use commands::Meet;
use competition_file::CompetitionFile;
use http::Request;
use outbox::Outbox;
use record_views::push_records;
use sending_views::{NO_FILE, before_page};
use std::alloc::{AllocError, Global};
use table_entry_views::paper::{labels_page, scorecards, wall_sheet};
use table_entry_views::{Draft, history_page};
use table_people_views::{import_page, people_page, person_page};
use table_round_views::{overview, rounds_page};
use table_views::{PageContext, push_end, start_page};
use texts::RoundId;

/// What a card is filled in with that is asked for.
fn draft_of<'a>(number: Option<u16>) -> Draft<'a>
    ensures { result ≡ draft_of number }
{
    match number {
        Some(number) => Draft::Number(number),
        None => Draft::Empty,
    }
}

/// Adds the section of a round's personal records by the competition's file, or that there is none.
fn push_records_beside(
    out: &mut Vec<u8>,
    competition: Option<&CompetitionFile>,
    meet: &Meet,
    round: RoundId,
) -> Result<(), AllocError>
    ensures { OnOk result (out.new.items ≡ out.old.items
        ++ records_beside (option_copied competition.entry) meet.now.accepted round) }
{
    match competition {
        Some(file) => push_records(out, file, meet, round),
        None => out.extend_from_slice(NO_FILE),
    }
}

/// The page of a round's personal records.
fn records_page(
    alloc: Global,
    around: &PageContext<'_>,
    competition: Option<&CompetitionFile>,
    round: RoundId,
) -> Result<Vec<u8>, AllocError>
    ensures { IfOk result (λ page. page.items
        ≡ records_page around.entry.now (option_copied competition.entry) round) }
{
    let mut page = start_page(alloc, around, b"Personal records")?;
    push_records_beside(&mut page, competition, around.mirror.meet(), round)?;
    push_end(&mut page, around)?;
    Ok(page)
}

/// A page. None where its round was not opened, or where nobody has its number.
fn page_of(
    alloc: Global,
    outbox: &Outbox,
    title: &[u8],
    competition: Option<&CompetitionFile>,
    around: &PageContext<'_>,
    view: TableView,
) -> Result<Option<Vec<u8>>, AllocError>
    ensures { IfOk result (λ page. IsPage outbox.now.list around.entry.now title.now
        (option_copied competition.entry) view (option_map (λ text. text.items) page)) }
{
    match view {
        TableView::Overview => { Ok(Some(overview(alloc, around, competition.is_some())?)) }
        TableView::People => Ok(Some(people_page(alloc, around)?)),
        TableView::Person(number) => person_page(alloc, around, number),
        TableView::Before => Ok(Some(before_page(alloc, around, competition)?)),
        TableView::Labels => Ok(Some(labels_page(alloc, around, competition)?)),
        TableView::Records(round) => { Ok(Some(records_page(alloc, around, competition, round)?)) }
        TableView::Import => Ok(Some(import_page(alloc, around)?)),
        TableView::Rounds(round) => Ok(Some(rounds_page(alloc, around, round)?)),
        TableView::Card { round, number } => {
            card_after(alloc, outbox, around, round, draft_of(number))
        }
        TableView::History { round, number } => Ok(Some(history_page(
            alloc, around, round, number,
        )?)),
        TableView::Wall(round) => wall_sheet(alloc, around.mirror, title, round),
        TableView::Scorecards(round) => {
            scorecards(alloc, around.mirror, competition, title, round)
        }
    }
}

/// What is to be done where a page is asked for.
fn plan_page(page: Option<Vec<u8>>) -> RequestPlan
    ensures { ShowsIf (option_map (λ text. text.items) page) result }
{
    match page {
        Some(page) => RequestPlan::with_ids(PageStatus::Asked, page),
        None => RequestPlan::problem(Problem::NotFound),
    }
}

/// The query of a request.
pub(crate) fn query_of(request: &Request<Bytes>) -> &[u8]
    ensures { result.now ≡ query_of request.now }
{
    match request.uri().query() {
        Some(query) => query.as_bytes(),
        None => b"",
    }
}

/// What is to be done for a request that only reads.
pub(crate) fn plan_read(
    alloc: Global,
    outbox: &Outbox,
    title: &[u8],
    competition: Option<&CompetitionFile>,
    around: &PageContext<'_>,
    request: &Request<Bytes>,
) -> Result<RequestPlan, AllocError>
    ensures { IfOk result (PlansRead outbox.now.list around.entry.now title.now
        (option_copied competition.entry) request.now) }
{
    let path = request.uri().path().as_bytes();
    match asked_at(alloc, path, query_of(request))? {
        None => Ok(RequestPlan::problem(Problem::NotFound)),
        Some(Resource::Style) => Ok(RequestPlan::shown(PageReply::Style)),
        Some(Resource::Script) => Ok(RequestPlan::shown(PageReply::Script)),
        Some(Resource::Page(view)) => {
            let page = page_of(alloc, outbox, title, competition, around, view)?;
            Ok(plan_page(page))
        }
    }
}
