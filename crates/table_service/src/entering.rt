//! A card that is sent.

ghost use Rattle.std.specs.Prelude.{◌≡◌, IfOk, Ok, Some};
ghost use Rattle.std.specs.Option.{option_copied};
ghost use Rattle.card_forms.specs.Readings.{IsReadAs};
ghost use Rattle.table_service.specs.Plans.{HoldsCard, PlansCard, PlansForm, PlansReadCard};
ghost use Rattle.table_service.specs.Plans.{PlansSpelled};
ghost use Rattle.table_service.specs.Plans.{are_confirmed, card_place, cards_place, has_word};
ghost use Rattle.table_service.specs.{Plans.is_confirmed, Plans.is_entered, Taking.IsFitCard};

use crate::cards::card;
use crate::checks::{all_doubts_of, only, unread};
use crate::commanding::refuse;
use crate::entries::{is_sent, list_of, place_with, plan_entries};
use crate::plan::{Effect, PageStatus, Problem, RequestPlan};
use acceptor::entry::Entry;
use card_forms::{
    CardFault, CardForm, CardFormFault, CardReading, Pairs, card_entry, card_form, card_in, card_of,
};
use competition_file::CompetitionFile;
use itoa::Buffer;
use outbox::Outbox;
use std::alloc::{AllocError, Global};
use table_entry_views::{CardNote, Draft, note_word};
use table_views::{PageContext, is_latest};
use texts::{CardEntry, RoundId};

/// What is said of a card in a hall of an earlier edition.
const EARLIER: &[u8] = b"an earlier edition of the commands holds: this table accepts no cards";

/// Where the page of a round's cards is.
pub(crate) fn cards_place(alloc: Global, id: RoundId) -> Result<Vec<u8>, AllocError>
    ensures { IfOk result (λ place. place.items ≡ cards_place id) }
{
    let mut place = Vec::from_slice(alloc, b"/card/")?;
    place.extend_from_slice(id.event.name().as_bytes())?;
    place.extend_from_slice(b"-")?;
    place.extend_from_slice(Buffer::new().format(id.round).as_bytes())?;
    Ok(place)
}

/// Where the page of a card is that was sent.
fn place_of(alloc: Global, form: &CardForm) -> Result<Vec<u8>, AllocError>
    ensures { IfOk result (λ place. place.items ≡ card_place form.now) }
{
    let cards = cards_place(alloc, form.round)?;
    place_with(alloc, &cards, form.id.number())
}

/// Whether a word is among these, with a space between two.
fn has_word(words: &[u8], word: &[u8]) -> bool
    ensures { result ≡ has_word word.now words.now }
{
    words.split(|byte| *byte == b' ').any(|part| part == word)
}

/// Whether the scoretaker has confirmed a note: its word is among these, with a space between two.
fn is_confirmed(alloc: Global, sure: &[u8], note: CardNote) -> Result<bool, AllocError>
    ensures { IfOk result (λ is. is ≡ is_confirmed sure.now note) }
{
    let word = note_word(alloc, note)?;
    Ok(has_word(sure, &word))
}

/// Whether the scoretaker has confirmed all notes.
fn are_confirmed(alloc: Global, sure: &[u8], notes: &[CardNote]) -> Result<bool, AllocError>
    ensures { IfOk result (λ are. are ≡ are_confirmed sure.now notes.now) }
{
    for note in notes {
        if !is_confirmed(alloc, sure, *note)? {
            return Ok(false);
        }
    }
    Ok(true)
}

/// Whether a card is entered: it was taken already, or all its notes are confirmed.
fn is_entered(
    alloc: Global,
    outbox: &Outbox,
    id: u64,
    sure: &[u8],
    notes: &[CardNote],
) -> Result<bool, AllocError>
    ensures { IfOk result (λ is. is ≡ is_entered outbox.now.list id sure.now notes.now) }
{
    if outbox.find(id).is_some() {
        return Ok(true);
    }
    are_confirmed(alloc, sure, notes)
}

/// The card's page, with what was typed and what is said of it.
fn hold(
    alloc: Global,
    outbox: &Outbox,
    around: &PageContext<'_>,
    form: &CardForm,
    notes: &[CardNote],
    status: PageStatus,
) -> Result<RequestPlan, AllocError>
    ensures { IfOk result (HoldsCard outbox.now.list around.entry.now form.now notes.now status) }
{
    let draft = Draft::Typed { form, notes };
    match card(alloc, outbox, around, form.round, draft)? {
        Some(page) => Ok(RequestPlan::with_ids(status, page)),
        None => Ok(RequestPlan::problem(Problem::NotFound)),
    }
}

/// What is to be done for an entry that spells this card. A card that was sent already, with
/// whatever remark, is what it was; of another one what is to be confirmed, by the log and by the
/// competition's file, is asked first.
fn plan_fit(
    alloc: Global,
    outbox: &Outbox,
    around: &PageContext<'_>,
    competition: Option<&CompetitionFile>,
    form: &CardForm,
    sure: &[u8],
    entry: Entry,
    card: &CardEntry,
) -> Result<RequestPlan, AllocError>
    requires { IsFitCard card.now }
    ensures { IfOk result (PlansSpelled outbox.now.list around.entry.now
        (option_copied competition.entry) form.now sure.now entry (Some card.entry.now)) }
{
    if is_sent(outbox, &entry) {
        let place = place_of(alloc, form)?;
        return Ok(RequestPlan::see(place, Effect::Nothing));
    }
    let notes = all_doubts_of(alloc, card, around.mirror.meet(), competition)?;
    if !is_entered(alloc, outbox, entry.id(), sure, &notes)? {
        return hold(alloc, outbox, around, form, &notes, PageStatus::Asked);
    }
    let cards = cards_place(alloc, form.round)?;
    let entries = list_of(alloc, entry)?;
    plan_entries(alloc, outbox, around, cards, entries)
}

/// What is to be done for a card that was read.
fn plan_read(
    alloc: Global,
    outbox: &Outbox,
    around: &PageContext<'_>,
    competition: Option<&CompetitionFile>,
    form: &CardForm,
    sure: &[u8],
    read: CardEntry,
) -> Result<RequestPlan, AllocError>
    requires { IsReadAs form.now read }
    ensures { IfOk result (PlansReadCard outbox.now.list around.entry.now
        (option_copied competition.entry) form.now sure.now) }
{
    let Some(entry) = card_entry(alloc, form.id, read, around.remark)? else {
        let notes = only(alloc, CardNote::Card(CardFault::TooLong))?;
        return hold(alloc, outbox, around, form, &notes, PageStatus::Wrong);
    };
    match card_in(alloc, entry.text())? {
        Some(card) => plan_fit(alloc, outbox, around, competition, form, sure, entry, &card),
        None => Ok(RequestPlan::problem(Problem::BadForm)),
    }
}

/// What is to be done for a card.
fn plan_form(
    alloc: Global,
    outbox: &Outbox,
    around: &PageContext<'_>,
    competition: Option<&CompetitionFile>,
    form: &CardForm,
    sure: &[u8],
) -> Result<RequestPlan, AllocError>
    ensures { IfOk result (PlansForm outbox.now.list around.entry.now
        (option_copied competition.entry) sure.now (Ok form.now)) }
{
    match card_of(alloc, form) {
        Ok(read) => plan_read(alloc, outbox, around, competition, form, sure, read),
        Err(CardReading::NoMemory) => Err(AllocError),
        Err(CardReading::Unread(faults)) => {
            let notes = unread(alloc, &faults)?;
            hold(alloc, outbox, around, form, &notes, PageStatus::Wrong)
        }
        Err(CardReading::Unfit(fault)) => {
            let notes = only(alloc, CardNote::Card(fault))?;
            hold(alloc, outbox, around, form, &notes, PageStatus::Wrong)
        }
    }
}

/// What is to be done for the pairs of a card's form.
pub(crate) fn plan_card(
    alloc: Global,
    outbox: &Outbox,
    around: &PageContext<'_>,
    competition: Option<&CompetitionFile>,
    pairs: &Pairs,
) -> Result<RequestPlan, AllocError>
    ensures { IfOk result (PlansCard around.entry.now (option_copied competition.entry)
        outbox.now.list pairs.now) }
{
    if !is_latest(around.mirror.meet()) {
        return refuse(alloc, around, b"/", EARLIER);
    }
    match card_form(alloc, pairs) {
        Ok(form) => plan_form(
            alloc,
            outbox,
            around,
            competition,
            &form,
            pairs.value("sure"),
        ),
        Err(CardFormFault::NoMemory) => Err(AllocError),
        Err(CardFormFault::BadId | CardFormFault::BadRound | CardFormFault::BadWas) => {
            Ok(RequestPlan::problem(Problem::BadForm))
        }
    }
}
