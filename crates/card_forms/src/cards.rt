//! Cards as they are typed.

ghost use Rattle.std.specs.Prelude.{◌≡◌, ◌↔◌, IfOk, Ok, Err};
ghost use Rattle.card_forms.specs.Cards.{card_form_of, fields_of, filled_of, form_id_of, round_of};
ghost use Rattle.card_forms.specs.Pairs.{value_of};

use crate::faults::CardFormFault;
use crate::form_id::FormId;
use crate::pairs::Pairs;
use crate::typed::{Fields, TypedText};
use formats::{Event, LAST_ROUND};
use std::alloc::{AllocError, Global};
use texts::{RoundId, SeenValues, cut, number_between, was_of};

/// What a scoretaker sends for a card, as it was typed.
#[derive(Drop)]
pub struct CardForm {
    pub id: FormId,
    pub round: RoundId,
    /// The competitor's number.
    pub number: TypedText,
    /// What the page showed that the attempts count.
    pub was: SeenValues,
    /// What the page filled the fields in with; empty where that is what the attempt counts.
    pub filled: Fields,
    pub attempts: Fields,
}

/// An id of a form, as it was sent: 1 to 2^63 - 16,384, without a sign and leading zeros.
pub fn form_id_of(bytes: &[u8]) -> Option<FormId>
    ensures { result ≡ form_id_of bytes.now }
{
    FormId::new(number_between(1, FormId::MOST, bytes)?)
}

/// An event and a round, as `333-1`.
pub fn round_of(bytes: &[u8]) -> Option<RoundId>
    ensures { result ≡ round_of bytes.now }
{
    let (name, number) = cut(bytes, b'-');
    let event = Event::from_name(name)?;
    let round = number_between(1, u64::from(LAST_ROUND), number?)? as u8;
    Some(RoundId { event, round })
}

/// The value of a name, as it was typed.
fn typed(alloc: Global, pairs: &Pairs, name: &str) -> Result<TypedText, AllocError>
    ensures { IfOk result (λ text. text ≡ value_of name.now pairs.now) }
{
    TypedText::copy_of(alloc, pairs.value(name))
}

/// The fields of the attempts.
fn fields_of(alloc: Global, pairs: &Pairs) -> Result<Fields, AllocError>
    ensures { IfOk result (λ fields. fields ≡ fields_of pairs.now) }
{
    Fields::new(
        alloc,
        typed(alloc, pairs, "a1")?,
        typed(alloc, pairs, "a2")?,
        typed(alloc, pairs, "a3")?,
        typed(alloc, pairs, "a4")?,
        typed(alloc, pairs, "a5")?,
    )
}

/// What the page filled these fields in with.
fn filled_of(alloc: Global, pairs: &Pairs) -> Result<Fields, AllocError>
    ensures { IfOk result (λ fields. fields ≡ filled_of pairs.now) }
{
    Fields::new(
        alloc,
        typed(alloc, pairs, "f1")?,
        typed(alloc, pairs, "f2")?,
        typed(alloc, pairs, "f3")?,
        typed(alloc, pairs, "f4")?,
        typed(alloc, pairs, "f5")?,
    )
}

/// The card of a form: its `id`, `round` (as `333-1`), `number`, `was` (what the page showed, as
/// `CARD` spells it), `a1` to `a5`, and `f1` to `f5` (what the page filled these in with, where it
/// says so). A name that is not there has an empty value; of several pairs of a name the first
/// counts.
///
/// The fault is `BadId`, else `BadRound`, else `BadWas`; `NoMemory` comes in place of a card.
pub fn card_form(alloc: Global, pairs: &Pairs) -> Result<CardForm, CardFormFault>
    ensures card { IfOk result (λ form. card_form_of pairs.now ≡ Ok form) }
    ensures bad_id { (result ≡ Err CardFormFault.BadId)
        ↔ (card_form_of pairs.now ≡ Err CardFormFault.BadId) }
    ensures bad_round { (result ≡ Err CardFormFault.BadRound)
        ↔ (card_form_of pairs.now ≡ Err CardFormFault.BadRound) }
    ensures bad_was { result ≡ Err CardFormFault.BadWas
        → card_form_of pairs.now ≡ Err CardFormFault.BadWas }
{
    let id = form_id_of(pairs.value("id")).ok_or(CardFormFault::BadId)?;
    let round = round_of(pairs.value("round")).ok_or(CardFormFault::BadRound)?;
    let was = was_of(alloc, pairs.value("was"))?.ok_or(CardFormFault::BadWas)?;
    let number = typed(alloc, pairs, "number")?;
    let filled = filled_of(alloc, pairs)?;
    let attempts = fields_of(alloc, pairs)?;
    Ok(CardForm {
        id,
        round,
        number,
        was,
        filled,
        attempts,
    })
}
