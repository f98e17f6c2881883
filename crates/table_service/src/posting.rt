//! What is to be done for a request of one of the program's own pages.

ghost use Rattle.std.specs.Prelude.{◌≡◌, IfOk, codes};
ghost use Rattle.std.specs.Option.{option_copied};
ghost use Rattle.card_forms.specs.Pairs.{value_of};
ghost use Rattle.table_service.specs.{Lists.LooksAt, Plans.page_after};
ghost use Rattle.table_service.specs.Sent.{PlansOwn, PlansPost, PlansSent};
ghost use Rattle.table_service.specs.Requests.{is_post, is_read};

use crate::answering::{plan_again, plan_answered};
use crate::commanding::{page_after, plan_command};
use crate::entering::plan_card;
use crate::listing::plan_list;
use crate::looking::{look, plan_import};
use crate::plan::{Problem, RequestPlan};
use crate::showing::plan_read;
use crate::undoing::plan_undo;
use bytes::Bytes;
use card_forms::Pairs;
use competition_file::CompetitionFile;
use http::Request;
use outbox::Outbox;
use std::alloc::{AllocError, Global};
use table_views::PageContext;

/// Whether a request only reads.
fn is_read(request: &Request<Bytes>) -> bool
    ensures { result ≡ is_read request.now }
{
    request.method().as_str() == "GET" || request.method().as_str() == "HEAD"
}

/// Whether a request sends a form.
fn is_post(request: &Request<Bytes>) -> bool
    ensures { result ≡ is_post request.now }
{
    request.method().as_str() == "POST"
}

/// What is to be done for lines that are to be looked at: the browser moves on to the form's
/// `back`.
fn look_back(
    alloc: Global,
    around: &PageContext<'_>,
    pairs: &Pairs,
) -> Result<RequestPlan, AllocError>
    ensures { IfOk result (LooksAt around.entry.now (page_after pairs.now)
        (value_of (codes "lines") pairs.now)) }
{
    look(alloc, around, page_after(pairs), pairs.value("lines"))
}

/// What is to be done for the pairs that are sent to a path.
fn plan_sent(
    alloc: Global,
    outbox: &Outbox,
    competition: Option<&CompetitionFile>,
    around: &PageContext<'_>,
    path: &str,
    pairs: &Pairs,
) -> Result<RequestPlan, AllocError>
    ensures { IfOk result (PlansSent around.entry.now (option_copied competition.entry)
        outbox.now.list path.now pairs.now) }
{
    if path == "/card" {
        plan_card(alloc, outbox, around, competition, pairs)
    } else if path == "/command" {
        plan_command(alloc, outbox, around, pairs)
    } else if path == "/commands" {
        plan_list(alloc, outbox, around, pairs)
    } else if path == "/lines" {
        look_back(alloc, around, pairs)
    } else if path == "/again" {
        plan_again(alloc, outbox, around, pairs)
    } else if path == "/answered" {
        plan_answered(alloc, outbox, around, pairs)
    } else if path == "/undo" {
        plan_undo(alloc, outbox, around, pairs)
    } else {
        Ok(RequestPlan::problem(Problem::Method))
    }
}

/// What is to be done for a form that is sent.
fn plan_post(
    alloc: Global,
    outbox: &Outbox,
    competition: Option<&CompetitionFile>,
    around: &PageContext<'_>,
    request: &Request<Bytes>,
) -> Result<RequestPlan, AllocError>
    ensures { IfOk result (PlansPost around.entry.now (option_copied competition.entry)
        outbox.now.list request.now) }
{
    let path = request.uri().path();
    if path == "/import" {
        return plan_import(alloc, around, request);
    }
    let pairs = Pairs::read(alloc, request.body())?;
    if pairs.value("token") == around.token {
        plan_sent(alloc, outbox, competition, around, path, &pairs)
    } else {
        Ok(RequestPlan::problem(Problem::Foreign))
    }
}

/// What is to be done for a request of one of the program's own pages.
pub(crate) fn plan_own(
    alloc: Global,
    outbox: &Outbox,
    title: &[u8],
    competition: Option<&CompetitionFile>,
    around: &PageContext<'_>,
    request: &Request<Bytes>,
) -> Result<RequestPlan, AllocError>
    ensures { IfOk result (PlansOwn around.entry.now title.now
        (option_copied competition.entry) outbox.now.list request.now) }
{
    if is_read(request) {
        plan_read(alloc, outbox, title, competition, around, request)
    } else if is_post(request) {
        plan_post(alloc, outbox, competition, around, request)
    } else {
        Ok(RequestPlan::problem(Problem::Method))
    }
}
