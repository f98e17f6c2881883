//! What a card's form is filled in with.

use crate::notes::CardNote;
use card_forms::CardForm;

/// What a card's form is filled in with.
#[derive(Clone, Copy)]
pub enum Draft<'a> {
    /// Nothing.
    Empty,
    /// A competitor's number, and what counts.
    Number(u16),
    /// What was typed, with what is said of it.
    Typed {
        form: &'a CardForm,
        notes: &'a [CardNote],
    },
}
