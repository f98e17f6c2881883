//! The fields of a card, read.

ghost use Rattle.std.specs.Prelude.{◌≡◌, ◌++◌, ◌∷◌, [], IfOk, IfErr, IfSome, OnOk, flat_map, ◌≤◌};
ghost use Rattle.std.specs.Prelude.{◌<◌, ◌⊎◌, None, Some, length, not, position};
ghost use Rattle.std.specs.List.{list_all, list_any};
ghost use Rattle.formats.specs.Events.{unit_of};
ghost use Rattle.scorecard.specs.Spelling.{trimmed};
ghost use Rattle.card_forms.specs.Readings.{changes_nothing, fault_in, filled_at, filled_by};
ghost use Rattle.card_forms.specs.Readings.{gap_in, left_at, number_fault, number_in, number_of};
ghost use Rattle.card_forms.specs.Readings.{says_something, text_at, is_untouched, stands_by};
ghost use Rattle.card_forms.specs.Readings.{stays, unfit, unfit_by, Faults, Says, SaysTyped};
ghost use Rattle.card_forms.specs.Readings.{IsReadAs, IsNotRead, IsUnfitAs};

use crate::cards::CardForm;
use crate::faults::{CardFault, CardReading, FieldFaults, NumberFault};
use crate::typed::TypedText;
use attempts::{Unit, Value, print_value};
use formats::{Event, unit_of};
use scorecard::read;
use std::alloc::{AllocError, Global};
use texts::{CardEntry, Entered, NewAttempts, SeenValues, number_between};

/// What a field of a card says.
#[derive(Drop)]
pub(crate) enum FieldContent {
    /// Nothing: it is empty.
    Nothing,
    /// What counts: it is as the page showed it.
    Stays,
    /// This is entered.
    Enters(Entered),
}

/// The number that a text without white space around it is.
fn number_in(text: &[u8]) -> Result<u16, NumberFault>
    ensures { result ≡ number_in text.now }
{
    if text.is_empty() {
        return Err(NumberFault::Empty);
    }
    match number_between(1, 9_999, text) {
        Some(number) => Ok(number as u16),
        None => Err(NumberFault::NotANumber),
    }
}

/// The bytes without the white space around them.
#[tactic(auto, unfolding(scorecard::specs::Spelling::trimmed))]
pub(crate) fn trimmed(bytes: &[u8]) -> &[u8]
    ensures { result.now ≡ trimmed bytes.now }
{
    bytes.trim_ascii()
}

/// The number of a competitor, 1 to 9,999, with white space around it.
pub fn number_of(text: &[u8]) -> Result<u16, NumberFault>
    ensures { result ≡ number_of text.now }
{
    number_in(trimmed(text))
}

/// The text that a page filled a field in with, where it carries one.
pub fn text_at(filled: &[TypedText], place: usize) -> &[u8]
    ensures { result.now ≡ text_at filled.now place }
{
    match filled.get(place) {
        Some(text) => text.as_bytes(),
        None => &[],
    }
}

/// What the field of an attempt that counts this is filled in with: this text, where it is not
/// empty, and else what the attempt counts.
fn filled_by(alloc: Global, unit: Unit, value: Value, text: &[u8]) -> Result<Vec<u8>, AllocError>
    ensures { IfOk result (λ it. it.items ≡ filled_by unit (Some value) text.now) }
{
    if text.is_empty() {
        print_value(alloc, value, unit)
    } else {
        Vec::from_slice(alloc, text)
    }
}

/// What the page of a card filled the field at a place in with, counted from 0, where these stood,
/// and it carries these texts.
fn filled_at(
    alloc: Global,
    unit: Unit,
    was: &[Value],
    filled: &[TypedText],
    place: usize,
) -> Result<Vec<u8>, AllocError>
    ensures { IfOk result (λ text. text.items ≡ filled_at unit was.now filled.now place) }
{
    match was.get(place) {
        Some(value) => filled_by(alloc, unit, *value, text_at(filled, place)),
        None => Ok(Vec::new(alloc)),
    }
}

/// Whether the field at a place, counted from 0, is as its page filled it in, where these stood and
/// it carries these texts, but for the white space around it.
pub fn is_untouched(
    alloc: Global,
    unit: Unit,
    was: &[Value],
    filled: &[TypedText],
    place: usize,
    text: &[u8],
) -> Result<bool, AllocError>
    ensures { IfOk result (λ is. is ≡ is_untouched unit was.now filled.now place text.now) }
{
    let shown = filled_at(alloc, unit, was, filled, place)?;
    Ok(trimmed(text) == shown.as_slice())
}

/// What a field leaves that was not touched.
fn left_at(was: &[Value], place: usize) -> FieldContent
    ensures { result ≡ left_at was.now place }
{
    if place < was.len() {
        FieldContent::Stays
    } else {
        FieldContent::Nothing
    }
}

/// What was typed into a field.
fn typed_of(
    alloc: Global,
    event: Event,
    text: &[u8],
) -> Result<FieldContent, scorecard::ScorecardFault>
    ensures says { IfOk result (SaysTyped (unit_of event) text.now) }
    ensures faults { IfErr result (λ why. Faults (unit_of event) [] [] 0 text.now (Some why)) }
{
    if trimmed(text).is_empty() {
        return Ok(FieldContent::Nothing);
    }
    match read(alloc, event, text) {
        Ok(entered) => Ok(FieldContent::Enters(entered)),
        Err(fault) => Err(fault),
    }
}

/// What the field at a place says, counted from 0, where the page showed that these count, and it
/// carries these texts.
fn said_at(
    alloc: Global,
    event: Event,
    was: &[Value],
    filled: &[TypedText],
    place: usize,
    text: &[u8],
) -> Result<FieldContent, scorecard::ScorecardFault>
    ensures says { IfOk result (Says (unit_of event) was.now filled.now place text.now) }
    ensures faults { IfErr result
        (λ why. Faults (unit_of event) was.now filled.now place text.now (Some why)) }
{
    match is_untouched(alloc, unit_of(event), was, filled, place, text) {
        Ok(true) => Ok(left_at(was, place)),
        Ok(false) => typed_of(alloc, event, text),
        Err(_) => Err(scorecard::ScorecardFault::NoMemory),
    }
}

/// What is wrong with a field.
fn fault_of(
    field: &Result<FieldContent, scorecard::ScorecardFault>,
) -> Option<scorecard::ScorecardFault>
    ensures { result ≡ fault_in field.now }
{
    match field {
        Ok(_) => None,
        Err(fault) => Some(*fault),
    }
}

/// What is wrong with a number.
fn number_fault(number: Result<u16, NumberFault>) -> Option<NumberFault>
    ensures { result ≡ number_fault number }
{
    match number {
        Ok(_) => None,
        Err(fault) => Some(fault),
    }
}

/// Whether a field says something.
fn says_something(said: &FieldContent) -> bool
    ensures { result ≡ says_something said.now }
{
    match said {
        FieldContent::Nothing => false,
        FieldContent::Stays | FieldContent::Enters(_) => true,
    }
}

/// Where the first field is that says nothing.
fn first_empty(filled: &[bool]) -> Option<usize>
    ensures value { result ≡ position not filled.now }
    ensures within { IfSome result (λ place. place < length filled.now) }
{
    filled.iter().position(|is| !*is)
}

/// Whether one of these fields says something.
fn any_filled(filled: &[bool]) -> bool
    ensures { result ≡ list_any (λ is. is) filled.now }
{
    filled.iter().any(|is| *is)
}

/// The attempt, from 1 on, of the first field that says nothing, where one after it says something.
fn gap_in(filled: &[bool]) -> Option<u8>
    requires { length filled.now ≤ 5 }
    ensures { result ≡ gap_in filled.now }
{
    let place = first_empty(filled)?;
    if any_filled(&filled[place..]) {
        Some(place as u8 + 1)
    } else {
        None
    }
}

/// Adds what is to count by a field.
fn push_said(now: &mut Vec<Option<Entered>>, said: FieldContent) -> Result<(), AllocError>
    ensures { OnOk result (now.new.items ≡ now.old.items ++ stands_by said) }
{
    match said {
        FieldContent::Nothing => Ok(()),
        FieldContent::Stays => {
            now.push(None)?;
            Ok(())
        }
        FieldContent::Enters(entered) => {
            now.push(Some(entered))?;
            Ok(())
        }
    }
}

/// Whether what counts stays for an attempt.
fn stays(outcome: &Option<Entered>) -> bool
    ensures { result ≡ stays outcome.now }
{
    outcome.is_none()
}

/// Whether what counts stays for each of these attempts.
fn all_stay(now: &[Option<Entered>]) -> bool
    ensures { result ≡ list_all stays now.now }
{
    now.iter().all(|outcome| stays(outcome))
}

/// Whether all that counts stays, and nothing is entered.
fn changes_nothing(was: &[Value], now: &[Option<Entered>]) -> bool
    ensures { result ≡ changes_nothing was.now now.now }
{
    now.len() == was.len() && all_stay(now)
}

/// The first cause why fields are no card, by the field that is empty in front of another, and by
/// whether nothing changes.
fn unfit_by(gap: Option<u8>, idle: bool) -> Option<CardFault>
    ensures { result ≡ unfit_by gap idle }
{
    match gap {
        Some(field) => Some(CardFault::Gap { field }),
        None if idle => Some(CardFault::Nothing),
        None => None,
    }
}

/// Whether memory ran out for one of the fields.
fn lacks_memory(faults: &[Option<scorecard::ScorecardFault>; 5]) -> bool {
    faults.contains(&Some(scorecard::ScorecardFault::NoMemory))
}

/// The fault of a card some of whose fields are not read.
fn refused(faults: FieldFaults) -> CardReading
    ensures { (result ≡ CardReading.Unread faults) ⊎ (result ≡ CardReading.NoMemory) }
{
    if lacks_memory(&faults.attempts) {
        CardReading::NoMemory
    } else {
        CardReading::Unread(faults)
    }
}

/// What is to count by five fields, where they are a card over these attempts.
fn now_of(
    alloc: Global,
    was: &[Value],
    first: FieldContent,
    second: FieldContent,
    third: FieldContent,
    fourth: FieldContent,
    fifth: FieldContent,
) -> Result<NewAttempts, CardReading>
    ensures now { IfOk result (λ now. now
        ≡ flat_map stands_by (first ∷ second ∷ third ∷ fourth ∷ fifth ∷ [])) }
    ensures fit { IfOk result (λ now.
        unfit was.now (first ∷ second ∷ third ∷ fourth ∷ fifth ∷ []) ≡ None) }
    ensures unfit { IfErr result (IsUnfitAs was.now
        (first ∷ second ∷ third ∷ fourth ∷ fifth ∷ [])) }
{
    let filled = [
        says_something(&first),
        says_something(&second),
        says_something(&third),
        says_something(&fourth),
        says_something(&fifth),
    ];
    let mut now = Vec::new(alloc);
    push_said(&mut now, first)?;
    push_said(&mut now, second)?;
    push_said(&mut now, third)?;
    push_said(&mut now, fourth)?;
    push_said(&mut now, fifth)?;
    match unfit_by(gap_in(&filled), changes_nothing(was, &now)) {
        Some(fault) => Err(CardReading::Unfit(fault)),
        None => Ok(NewAttempts::new(now)),
    }
}

/// A copy of what the page showed.
fn was_again(alloc: Global, was: &SeenValues) -> Result<SeenValues, AllocError>
    ensures { IfOk result (λ again. again ≡ was.now) }
{
    let values = Vec::from_slice(alloc, was.as_slice())?;
    Ok(SeenValues::new(values))
}

/// The card that a form says, over what its page showed; or what is wrong with each of its fields,
/// or with all of them together. A field that is as its page filled it in stays as it is. One of
/// white space alone says nothing; what the others may say, `scorecard::read` says. `NoMemory`
/// comes in place of any answer.
pub fn card_of(alloc: Global, form: &CardForm) -> Result<CardEntry, CardReading>
    ensures read { IfOk result (IsReadAs form.now) }
    ensures unread { IfErr result (IsNotRead form.now) }
{
    let texts = form.attempts.as_slice();
    let event = form.round.event;
    let was = form.was.as_slice();
    let filled = form.filled.as_slice();
    let number = number_of(form.number.as_bytes());
    let first = said_at(alloc, event, was, filled, 0, texts[0].as_bytes());
    let second = said_at(alloc, event, was, filled, 1, texts[1].as_bytes());
    let third = said_at(alloc, event, was, filled, 2, texts[2].as_bytes());
    let fourth = said_at(alloc, event, was, filled, 3, texts[3].as_bytes());
    let fifth = said_at(alloc, event, was, filled, 4, texts[4].as_bytes());
    let faults = FieldFaults {
        number: number_fault(number),
        attempts: [
            fault_of(&first),
            fault_of(&second),
            fault_of(&third),
            fault_of(&fourth),
            fault_of(&fifth),
        ],
    };
    let Ok(number) = number else {
        return Err(refused(faults));
    };
    let Ok(first) = first else {
        return Err(refused(faults));
    };
    let Ok(second) = second else {
        return Err(refused(faults));
    };
    let Ok(third) = third else {
        return Err(refused(faults));
    };
    let Ok(fourth) = fourth else {
        return Err(refused(faults));
    };
    let Ok(fifth) = fifth else {
        return Err(refused(faults));
    };
    let now = now_of(alloc, was, first, second, third, fourth, fifth)?;
    let was = was_again(alloc, &form.was)?;
    Ok(CardEntry {
        id: form.round,
        number,
        was,
        now,
    })
}
