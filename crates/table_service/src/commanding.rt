//! A command that is sent.

ghost use Rattle.std.specs.Prelude.{◌≡◌, ◌∷◌, [], IfOk};
ghost use Rattle.card_forms.specs.{Entries.entry_with, Remarks.noted as noted_with};
ghost use Rattle.card_forms.specs.Faults.{IsWrong as AsksNone};
ghost use Rattle.table_people_views.specs.Refused.{faults_page};
ghost use Rattle.table_service.specs.Plans.{IsWrong, PlansCommand, RefusesWith, has_forms};
ghost use Rattle.table_service.specs.Plans.{page_after, remark_in};
ghost use Rattle.table_service.specs.{Replying.ShowsPage, Taking.PlansEntries};

use crate::entries::plan_entries;
use crate::plan::{PageStatus, Problem, RequestPlan};
use crate::reading::{number_below, round_below};
use card_forms::{
    CommandForm, CommandFormFault, CommandTexts, Field, FieldError, Pairs, command_entries,
    command_form, noted,
};
use outbox::Outbox;
use std::alloc::{AllocError, Global};
use table_people_views::{faults_page, refused_page};
use table_views::{PageContext, is_latest};

/// Whether a path is that of a page that has forms of commands.
fn has_forms(path: &[u8]) -> bool
    ensures { result ≡ has_forms path.now }
{
    path == b"/people".as_slice()
        || path == b"/rounds".as_slice()
        || path == b"/import".as_slice()
        || round_below(path, b"/rounds?round=").is_some()
        || round_below(path, b"/card/").is_some()
        || number_below(path, b"/person/").is_some()
}

/// The page to move on to: the form's `back`, where it is one of the pages that have forms.
pub(crate) fn page_after(pairs: &Pairs) -> &[u8]
    ensures { result.now ≡ page_after pairs.now }
{
    let back = pairs.value("back");
    if has_forms(back) { back } else { b"/" }
}

/// The page that says in these words why nothing is sent, with a link back to this page.
pub(crate) fn refuse(
    alloc: Global,
    around: &PageContext<'_>,
    back: &[u8],
    why: &[u8],
) -> Result<RequestPlan, AllocError>
    ensures { IfOk result (RefusesWith around.entry.now back.now why.now) }
{
    let page = refused_page(alloc, around, back, why)?;
    Ok(RequestPlan::with_ids(PageStatus::Wrong, page))
}

/// The page that says in these lines why nothing is entered, with a link back to this page.
pub(crate) fn tell(
    alloc: Global,
    around: &PageContext<'_>,
    back: &[u8],
    lines: &[u8],
) -> Result<RequestPlan, AllocError>
    ensures { IfOk result
        (ShowsPage PageStatus.Wrong (faults_page around.entry.now back.now lines.now)) }
{
    let page = faults_page(alloc, around, back, lines)?;
    Ok(RequestPlan::with_ids(PageStatus::Wrong, page))
}

/// The page that says which field of a form is wrong, and why.
fn wrong(
    alloc: Global,
    around: &PageContext<'_>,
    pairs: &Pairs,
    field: Field,
    why: FieldError,
) -> Result<RequestPlan, AllocError>
    requires { AsksNone pairs.now (field, why) }
    ensures { IfOk result (IsWrong around.entry.now pairs.now) }
{
    let words = format!(in alloc; "{field}: {why}")?;
    refuse(alloc, around, page_after(pairs), words.as_bytes())
}

/// The remark of a command that is entered now: none in a hall of an earlier edition.
pub(crate) fn remark_in<'a>(around: &PageContext<'a>) -> &'a [u8]
    ensures { result.now ≡ remark_in around.entry.now }
{
    if is_latest(around.mirror.meet()) {
        around.remark
    } else {
        &[]
    }
}

/// What is to be done for a command that a form asks for.
fn plan_text(
    alloc: Global,
    outbox: &Outbox,
    around: &PageContext<'_>,
    form: CommandForm,
    back: &[u8],
) -> Result<RequestPlan, AllocError>
    ensures { IfOk result (PlansEntries outbox.now.list around.entry.now back.now
        (entry_with form.id (noted_with (remark_in around.entry.now) form.text) ∷ [])) }
{
    let place = Vec::from_slice(alloc, back)?;
    let text = noted(alloc, remark_in(around), &form.text)?;
    let texts = CommandTexts::one(alloc, text)?;
    let entries = command_entries(alloc, form.id, &texts)?;
    plan_entries(alloc, outbox, around, place, entries)
}

/// What is to be done for the pairs of a command's form.
pub(crate) fn plan_command(
    alloc: Global,
    outbox: &Outbox,
    around: &PageContext<'_>,
    pairs: &Pairs,
) -> Result<RequestPlan, AllocError>
    ensures { IfOk result (PlansCommand around.entry.now outbox.now.list pairs.now) }
{
    match command_form(alloc, pairs) {
        Ok(form) => plan_text(alloc, outbox, around, form, page_after(pairs)),
        Err(CommandFormFault::NoMemory) => Err(AllocError),
        Err(CommandFormFault::BadId) => Ok(RequestPlan::problem(Problem::BadForm)),
        Err(CommandFormFault::Wrong { field, why }) => wrong(alloc, around, pairs, field, why),
    }
}
