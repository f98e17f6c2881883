//! Commands that are looked at before they are sent: from lines, or from a competition's file.

ghost use Rattle.std.specs.Prelude.{◌≡◌, IfOk, length, map};
ghost use Rattle.std.specs.Option.{option_copied};
ghost use Rattle.table_service.specs.Lists.{LooksAt, Previews, paired, tried_as};
ghost use Rattle.table_service.specs.Imports.{PlansFile, PlansImport, PlansParts, boundary_in};
ghost use Rattle.table_service.specs.Imports.{content_of, named, options_of};

use crate::commanding::refuse;
use crate::listing::UNFIT;
use crate::plan::{PageStatus, Problem, RequestPlan};
use bytes::Bytes;
use card_forms::{CommandText, CommandTexts};
use command_lists::{FileLines, answers_to, lines_of_file, texts_in};
use form_data::{Part, boundary_of, parts};
use http::{Request, header};
use std::alloc::{AllocError, Global};
use table_people_views::{PreviewedCommand, faults_page, preview_page};
use table_views::{PageContext, id_at};
use texts::Answer;
use wcif::{CumulativeLimits, Edition, Options, SameNames};

/// The page that commands are sent from.
const PLACE: &[u8] = b"/import";

/// Each text with its answer.
fn tried_of<'a>(
    alloc: Global,
    texts: &'a [CommandText],
    answers: &[Answer],
) -> Result<Vec<PreviewedCommand<'a>>, AllocError>
    requires { length answers.now ≡ length texts.now }
    ensures { IfOk result (λ tried. map tried_as tried.items ≡ paired texts.now answers.now) }
{
    let mut tried = Vec::new(alloc);
    for (place, text) in texts.iter().enumerate() {
        tried.push(PreviewedCommand {
            text: text.as_bytes(),
            answer: answers[place],
        })?;
    }
    Ok(tried)
}

/// The page that says what each command would be answered, after which the browser goes to this
/// path.
fn preview(
    alloc: Global,
    around: &PageContext<'_>,
    back: &[u8],
    texts: &CommandTexts,
) -> Result<RequestPlan, AllocError>
    ensures { IfOk result (Previews around.entry.now back.now texts.now) }
{
    let id = id_at(around.ids, 0);
    let answers = answers_to(alloc, around.mirror.log(), id, texts)?;
    let tried = tried_of(alloc, texts.as_slice(), &answers)?;
    let page = preview_page(alloc, around, back, &tried)?;
    Ok(RequestPlan::with_ids(PageStatus::Asked, page))
}

/// What is to be done for lines that are to be looked at, from the page at this path.
pub(crate) fn look(
    alloc: Global,
    around: &PageContext<'_>,
    back: &[u8],
    lines: &[u8],
) -> Result<RequestPlan, AllocError>
    ensures { IfOk result (LooksAt around.entry.now back.now lines.now) }
{
    match texts_in(alloc, lines)? {
        Some(texts) => preview(alloc, around, back, &texts),
        None => refuse(alloc, around, back, UNFIT),
    }
}

/// What is to be done for a competition's file.
fn look_at_file(
    alloc: Global,
    around: &PageContext<'_>,
    options: Options,
    bytes: &[u8],
) -> Result<RequestPlan, AllocError>
    ensures { IfOk result (PlansFile around.entry.now options bytes.now) }
{
    match lines_of_file(alloc, bytes, options)? {
        FileLines::Lines(lines) => look(alloc, around, PLACE, &lines),
        FileLines::Refused { fault, words } => {
            let _fault = fault;
            let page = faults_page(alloc, around, PLACE, &words)?;
            Ok(RequestPlan::with_ids(PageStatus::Wrong, page))
        }
    }
}

/// The content of the first part of this name; nothing where there is none.
fn content_of<'a>(parts: &[Part<'a>], name: &[u8]) -> &'a [u8]
    ensures { result.now ≡ content_of name.now (map named parts.now) }
{
    for part in parts {
        if part.name == name {
            return part.content;
        }
    }
    b""
}

/// How the file is to be read.
fn options_of(parts: &[Part<'_>]) -> Options
    ensures { result ≡ options_of (map named parts.now) }
{
    Options {
        edition: Edition::Four,
        limits: if content_of(parts, b"cumulative") == b"as-single".as_slice() {
            CumulativeLimits::AsSingle
        } else {
            CumulativeLimits::Refuse
        },
        names: if content_of(parts, b"same-names") == b"id".as_slice() {
            SameNames::WithId
        } else {
            SameNames::Refuse
        },
    }
}

/// What is to be done for the parts of a form with a file, if it carries the token.
fn look_at_parts(
    alloc: Global,
    around: &PageContext<'_>,
    parts: &[Part<'_>],
) -> Result<RequestPlan, AllocError>
    ensures { IfOk result (PlansParts around.entry.now (map named parts.now)) }
{
    if content_of(parts, b"token") == around.token {
        look_at_file(alloc, around, options_of(parts), content_of(parts, b"file"))
    } else {
        Ok(RequestPlan::problem(Problem::Foreign))
    }
}

/// The boundary of the parts of a request's body.
fn boundary_in(request: &Request<Bytes>) -> Option<&[u8]>
    ensures { option_copied result ≡ boundary_in request.now }
{
    let value = request.headers().get(header::CONTENT_TYPE)?;
    boundary_of(value.as_bytes())
}

/// What is to be done for a form with a competition's file.
pub(crate) fn plan_import(
    alloc: Global,
    around: &PageContext<'_>,
    request: &Request<Bytes>,
) -> Result<RequestPlan, AllocError>
    ensures { IfOk result (PlansImport around.entry.now request.now) }
{
    let Some(boundary) = boundary_in(request) else {
        return Ok(RequestPlan::problem(Problem::BadForm));
    };
    match parts(alloc, boundary, request.body())? {
        Some(parts) => look_at_parts(alloc, around, &parts),
        None => Ok(RequestPlan::problem(Problem::BadForm)),
    }
}
