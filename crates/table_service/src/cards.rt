//! The page of a card, with where its attempts that count come from.

ghost use Rattle.std.specs.Prelude.{◌≡◌, ◌<◌, ◌≤◌, IfOk, length};
ghost use Rattle.std.specs.Option.{option_copied, option_map};
ghost use Rattle.last_change.specs.Entering.{entered_told};
ghost use Rattle.texts.specs.Reading.{command_of};
ghost use Rattle.table_service.specs.Pages.{AreFilled, AreFilledFor, IsCard, IsOrigin};
ghost use Rattle.table_service.specs.Pages.{IsOriginFor, TellsEntryAt, all_typed_at, number_in};
ghost use Rattle.table_service.specs.Pages.{stands_of, typed_at, typed_if};

use acceptor::entry::Entry;
use card_forms::{Fields, TypedText, number_of};
use last_change::{entered_at, last_change, last_entering};
use learner::log::Log;
use mirror::Mirror;
use outbox::Outbox;
use std::alloc::{AllocError, Global};
use table_entry_views::{Draft, Origin, Past, card_page};
use table_views::{PageContext, push_entered, standing};
use texts::{CommandFault, Entered, RoundId, cut_remark, read};

/// What an entry at a position of the log says of where it comes from.
fn origin_at<'a>(outbox: &Outbox, log: &'a Log, position: u32) -> Option<Origin<'a>>
    requires { position < length log.now.entries }
    ensures { TellsEntryAt outbox.now.list log.now.entries position result }
{
    let _most = log.len();
    match log.entry(position) {
        Some(entry) => Some(Origin {
            position: position + 1,
            here: outbox.find(entry.id()).is_some(),
            remark: cut_remark(entry.text()).1,
        }),
        None => None,
    }
}

/// By which entry the attempts of a competitor in a round count as they do, if by any.
fn origin_of<'a>(
    alloc: Global,
    outbox: &Outbox,
    mirror: &'a Mirror,
    round: RoundId,
    number: u16,
) -> Result<Option<Origin<'a>>, AllocError>
    ensures { IfOk result (IsOrigin outbox.now.list mirror.now round number) }
{
    match last_change(alloc, mirror, round, number)? {
        Some(position) => Ok(origin_at(outbox, mirror.log(), position)),
        None => Ok(None),
    }
}

/// The same, if the competitor is known.
fn origin_for<'a>(
    alloc: Global,
    outbox: &Outbox,
    mirror: &'a Mirror,
    round: RoundId,
    number: Option<u16>,
) -> Result<Option<Origin<'a>>, AllocError>
    ensures { IfOk result (IsOriginFor outbox.now.list mirror.now round number) }
{
    match number {
        Some(number) => origin_of(alloc, outbox, mirror, round, number),
        None => Ok(None),
    }
}

/// The number of the competitor of a card.
fn number_in(draft: Draft<'_>) -> Option<u16>
    ensures { result ≡ number_in draft.entry }
{
    match draft {
        Draft::Empty => None,
        Draft::Number(number) => Some(number),
        Draft::Typed { form, .. } => match number_of(form.number.as_bytes()) {
            Ok(number) => Some(number),
            Err(_) => None,
        },
    }
}

/// What was entered, as it may be typed; empty where nothing was.
fn typed_of(alloc: Global, entered: Option<&Entered>) -> Result<TypedText, AllocError>
    ensures { IfOk result (λ text. text ≡ typed_if (option_copied entered.entry)) }
{
    let mut text = Vec::new(alloc);
    if let Some(entered) = entered {
        push_entered(&mut text, entered)?;
    }
    Ok(TypedText::new(text))
}

/// What a text enters for the attempt at a place, counted from 0, as it may be typed.
fn typed_in(
    alloc: Global,
    round: RoundId,
    number: u16,
    place: usize,
    text: &[u8],
) -> Result<TypedText, AllocError>
    requires { place < 5 }
    ensures { IfOk result (λ typed.
        typed ≡ typed_if (entered_told round number place (command_of text.now))) }
{
    match read(alloc, text) {
        Ok(told) => typed_of(alloc, entered_at(round, number, place, &told.command)),
        Err(CommandFault::NoMemory) => Err(AllocError),
        Err(CommandFault::TooLong | CommandFault::NotACommand | CommandFault::BadField { .. }) =>
            typed_of(alloc, None),
    }
}

/// What the entry at a position enters for it, if it is known, as it may be typed.
fn typed_at(
    alloc: Global,
    log: &Log,
    round: RoundId,
    number: u16,
    place: usize,
    position: Option<u32>,
) -> Result<TypedText, AllocError>
    requires { place < 5 }
    ensures { IfOk result (λ typed.
        typed ≡ typed_at log.now.entries round number place position) }
{
    let Some(position) = position else {
        return typed_of(alloc, None);
    };
    match log.entry(position) {
        Some(entry) => typed_in(alloc, round, number, place, entry.text()),
        None => typed_of(alloc, None),
    }
}

/// What the entries at these positions enter for the five attempts, as it may be typed.
fn all_typed_at(
    alloc: Global,
    log: &Log,
    round: RoundId,
    number: u16,
    last: [Option<u32>; 5],
) -> Result<Fields, AllocError>
    ensures { IfOk result (λ fields.
        fields ≡ all_typed_at log.now.entries round number last) }
{
    Fields::new(
        alloc,
        typed_at(alloc, log, round, number, 0, last[0])?,
        typed_at(alloc, log, round, number, 1, last[1])?,
        typed_at(alloc, log, round, number, 2, last[2])?,
        typed_at(alloc, log, round, number, 3, last[3])?,
        typed_at(alloc, log, round, number, 4, last[4])?,
    )
}

/// How many attempts of a competitor count in a round, at most five.
fn stands_of(mirror: &Mirror, round: RoundId, number: u16) -> usize
    ensures stands { result ≡ stands_of mirror.now round number }
    ensures few { result ≤ 5 }
{
    standing(mirror.meet(), round, number).len().min(5)
}

/// What was entered for each attempt of a competitor that counts, as it may be typed.
fn filled_of(
    alloc: Global,
    mirror: &Mirror,
    round: RoundId,
    number: u16,
) -> Result<Fields, AllocError>
    ensures { IfOk result (AreFilled mirror.now round number) }
{
    let stands = stands_of(mirror, round, number);
    let last = last_entering(alloc, mirror, round, number, stands)?;
    all_typed_at(alloc, mirror.log(), round, number, last)
}

/// The same, if the competitor is known.
fn filled_for(
    alloc: Global,
    mirror: &Mirror,
    round: RoundId,
    number: Option<u16>,
) -> Result<Fields, AllocError>
    ensures { IfOk result (AreFilledFor mirror.now round number) }
{
    match number {
        Some(number) => filled_of(alloc, mirror, round, number),
        None => Fields::new(
            alloc,
            typed_of(alloc, None)?,
            typed_of(alloc, None)?,
            typed_of(alloc, None)?,
            typed_of(alloc, None)?,
            typed_of(alloc, None)?,
        ),
    }
}

/// The page of a card of a round. None where the round was not opened.
pub(crate) fn card(
    alloc: Global,
    outbox: &Outbox,
    around: &PageContext<'_>,
    round: RoundId,
    draft: Draft<'_>,
) -> Result<Option<Vec<u8>>, AllocError>
    ensures { IfOk result (λ page. IsCard outbox.now.list around.entry.now round draft.entry
        (option_map (λ text. text.items) page)) }
{
    let number = number_in(draft);
    let origin = origin_for(alloc, outbox, around.mirror, round, number)?;
    let filled = filled_for(alloc, around.mirror, round, number)?;
    let past = Past {
        origin,
        filled: &filled,
    };
    card_page(alloc, around, round, draft, past)
}
