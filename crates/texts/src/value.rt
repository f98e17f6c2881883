//! The values of a command's fields.

use crate::command::{Entered, Name, NewAttempts, SeenValues};
use arrayvec::ArrayVec;
use cube::notation::Moves;
use formats::{Advance, Event, Format};

/// The most fields of a command.
pub(crate) const MOST_FIELDS: usize = 6;

/// What is in a field of a command, as it was read.
#[derive(Drop)]
pub enum FieldValue {
    Number(u16),
    Name(Name),
    Event(Event),
    Round(u8),
    Format(Format),
    Cutoff(Option<(u8, u32)>),
    Limit(Option<u32>),
    Advance(Advance),
    Attempt(u8),
    Moves(Moves),
    Outcome(Entered),
    Edition(u8),
    Was(SeenValues),
    Now(NewAttempts),
}

impl Default for FieldValue {
    /// What is in the places of a list of values that are not taken.
    fn default() -> Self {
        FieldValue::Number(0)
    }
}

/// What is in a field of a command that is there.
#[derive(Drop)]
pub enum LentValue<'a> {
    Number(u16),
    Name(&'a Name),
    Event(Event),
    Round(u8),
    Format(Format),
    Cutoff(Option<(u8, u32)>),
    Limit(Option<u32>),
    Advance(Advance),
    Attempt(u8),
    Moves(&'a Moves),
    Outcome(&'a Entered),
    Edition(u8),
    Was(&'a SeenValues),
    Now(&'a NewAttempts),
}

impl<'a> Default for LentValue<'a> {
    /// What is in the places of a list of values that are not taken.
    fn default() -> Self {
        LentValue::Number(0)
    }
}

/// The values of a command, as they were read.
pub type Values = ArrayVec<FieldValue, MOST_FIELDS>;

/// The values of a command that is there.
pub(crate) type LentValues<'a> = ArrayVec<LentValue<'a>, MOST_FIELDS>;
