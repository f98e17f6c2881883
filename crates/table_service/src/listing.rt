//! Several commands that are sent together, one a line.

ghost use Rattle.std.specs.Prelude.{◌≡◌, ◌||◌, IfOk};
ghost use Rattle.std.specs.List.{list_all};
ghost use Rattle.command_lists.specs.Answered.{is_done};
ghost use Rattle.table_service.specs.Lists.{PlansAsked, PlansLines, PlansList, is_known};
ghost use Rattle.table_service.specs.Lists.{would_be_done};

use crate::commanding::{page_after, refuse, remark_in};
use crate::entries::plan_entries;
use crate::plan::{Problem, RequestPlan};
use card_forms::{CommandTexts, FormId, Pairs, command_entries, form_id_of};
use command_lists::{all_done, answers_to, first_refusal, texts_in};
use outbox::Outbox;
use std::alloc::{AllocError, Global};
use table_views::PageContext;
use texts::Answer;

/// What is said of lines that have no commands which can be sent together.
pub(crate) const UNFIT: &[u8] =
    b"1 to 16,384 commands are sent together, each of at most 600 bytes";

/// Whether commands may be sent that would be answered so: all would be accepted, or their form was
/// sent before.
fn goes_on(outbox: &Outbox, id: FormId, answers: &[Answer]) -> bool
    ensures { result ≡ (is_known outbox.now.list id || list_all is_done answers.now) }
{
    outbox.find(id.number()).is_some() || all_done(answers)
}

/// What is to be done for these commands: they are entered if all would be accepted; else the
/// answer says which would not. Where a form is sent a second time, its commands are known and are
/// not judged again.
fn plan_texts(
    alloc: Global,
    outbox: &Outbox,
    around: &PageContext<'_>,
    pairs: &Pairs,
    id: FormId,
    texts: &CommandTexts,
) -> Result<RequestPlan, AllocError>
    ensures { IfOk result (PlansAsked around.entry.now outbox.now.list pairs.now id texts.now
        (is_known outbox.now.list id || would_be_done around.entry.now.mirror.now id texts.now)) }
{
    let back = page_after(pairs);
    let answers = answers_to(alloc, around.mirror.log(), id, texts)?;
    if !goes_on(outbox, id, &answers) {
        let why = first_refusal(alloc, texts.as_slice(), &answers)?;
        return refuse(alloc, around, back, why.as_bytes());
    }
    let noted = texts.noted(alloc, remark_in(around))?;
    let entries = command_entries(alloc, id, &noted)?;
    let place = Vec::from_slice(alloc, back)?;
    plan_entries(alloc, outbox, around, place, entries)
}

/// What is to be done for commands of a form with this id.
fn plan_form(
    alloc: Global,
    outbox: &Outbox,
    around: &PageContext<'_>,
    pairs: &Pairs,
    id: FormId,
) -> Result<RequestPlan, AllocError>
    ensures { IfOk result (PlansLines around.entry.now outbox.now.list pairs.now id) }
{
    match texts_in(alloc, pairs.value("lines"))? {
        Some(texts) => plan_texts(alloc, outbox, around, pairs, id, &texts),
        None => refuse(alloc, around, page_after(pairs), UNFIT),
    }
}

/// What is to be done for the pairs of a form of several commands.
pub(crate) fn plan_list(
    alloc: Global,
    outbox: &Outbox,
    around: &PageContext<'_>,
    pairs: &Pairs,
) -> Result<RequestPlan, AllocError>
    ensures { IfOk result (PlansList around.entry.now outbox.now.list pairs.now) }
{
    match form_id_of(pairs.value("id")) {
        Some(id) => plan_form(alloc, outbox, around, pairs, id),
        None => Ok(RequestPlan::problem(Problem::BadForm)),
    }
}
