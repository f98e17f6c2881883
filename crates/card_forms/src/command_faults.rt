//! What is wrong with a command's form.

ghost use Rattle.std.specs.Prelude.{◌≡◌};
ghost use Rattle.card_forms.specs.Faults.{field_name};

use std::alloc::AllocError;
use std::fmt;
use thiserror::Error;

/// A field of a command's form.
#[derive(Clone, Copy, Debug, PartialEq, Eq)]
pub enum Field {
    /// `command`: the word of the command.
    Command,
    /// `number`: a competitor's number.
    Number,
    /// `name`: a competitor's name.
    Name,
    /// `event`: an event's name, as `333bf`.
    Event,
    /// `round`: an event and a round, as `333-1`.
    Round,
    /// `format`: a format's name, as `ao5`.
    Format,
    /// `after`: the number of attempts after which the cutoff counts.
    After,
    /// `cutoff`: what one of these attempts has to be below.
    Cutoff,
    /// `limit`: the time limit.
    Limit,
    /// `advance`: `top`, `pct` or `final`.
    Advance,
    /// `amount`: how many advance, or how many percent.
    Amount,
    /// `attempt`: the number of an attempt.
    Attempt,
    /// `moves`: a scramble.
    Moves,
    /// `text`: the whole command.
    Text,
}

impl fmt::Display for Field {
    ghost use Rattle.std.specs.Prelude.{Some};
    ghost use Rattle.card_forms.specs.Faults.{field_name};

    ghost output = { λ field. Some (field_name field) };

    fn fmt<W: fmt::Write>(&self, f: &mut fmt::Formatter<W>) -> fmt::Result {
        f.write_str(name_of(*self))
    }
}

/// The name of a field in the form.
fn name_of(field: Field) -> &'static str
    ensures { result.now ≡ field_name field }
{
    match field {
        Field::Command => "command",
        Field::Number => "number",
        Field::Name => "name",
        Field::Event => "event",
        Field::Round => "round",
        Field::Format => "format",
        Field::After => "after",
        Field::Cutoff => "cutoff",
        Field::Limit => "limit",
        Field::Advance => "advance",
        Field::Amount => "amount",
        Field::Attempt => "attempt",
        Field::Moves => "moves",
        Field::Text => "text",
    }
}

/// What is wrong with a field of a command's form. Its text is a few words for the scoretaker.
#[derive(Clone, Copy, Debug, PartialEq, Eq)]
pub enum FieldError {
    /// The word is no command's, or the command has no form.
    NoSuchCommand,
    /// It is no number of this range.
    NotBetween { low: u32, high: u32 },
    /// It is no name of a competitor in any edition; or, in `REN`, it is none in edition 3.
    NotAName,
    /// It is the name of no event.
    NotAnEvent,
    /// It is no event and round, as `333-1`.
    NotARound,
    /// It is the name of no format.
    NotAFormat,
    /// It is no time.
    NotATime,
    /// It is neither `top`, `pct` nor `final`.
    NotAnAdvance,
    /// It is not the tokens of 1 to 400 moves.
    NotMoves,
    /// The text is no command.
    NotACommand,
    /// The command would have more than 600 bytes.
    TooLong,
}

impl fmt::Display for FieldError {
    ghost use Rattle.std.specs.Prelude.{Some};
    ghost use Rattle.card_forms.specs.Faults.{wrong_words};

    ghost output = { λ wrong. Some (wrong_words wrong) };

    fn fmt<W: fmt::Write>(&self, f: &mut fmt::Formatter<W>) -> fmt::Result {
        match self {
            FieldError::NoSuchCommand => f.write_str("there is no such command"),
            FieldError::NotBetween { low, high } => {
                f.write_str("a number of ")?;
                low.fmt(f)?;
                f.write_str(" to ")?;
                high.fmt(f)
            }
            FieldError::NotAName => f.write_str(NAME_WORDS),
            FieldError::NotAnEvent => f.write_str("there is no such event"),
            FieldError::NotARound => f.write_str("there is no such round"),
            FieldError::NotAFormat => f.write_str("there is no such format"),
            FieldError::NotATime => f.write_str("a time is like 10.43 or 1:02.33"),
            FieldError::NotAnAdvance => f.write_str("top, pct or final"),
            FieldError::NotMoves => f.write_str("moves are like R U' F2 Rw x"),
            FieldError::NotACommand => f.write_str("this is no command"),
            FieldError::TooLong => f.write_str("too long"),
        }
    }
}

/// What is said of a text that is no name.
const NAME_WORDS: &str =
    "a name has 1 to 160 bytes that are seen, no quote mark, one space between its parts";

/// Why a form asks for no command.
#[derive(Clone, Copy, Debug, PartialEq, Eq, Error)]
pub enum CommandFormFault {
    /// `id` is no number of 1 to 2^63 - 16,384.
    #[error("the form has no id")]
    BadId,
    /// A field is wrong: the first one, in the order of the command's fields.
    #[error("{field}: {why}")]
    Wrong { field: Field, why: FieldError },
    /// Memory ran out.
    #[error("no memory")]
    NoMemory,
}

impl From<FieldFault> for CommandFormFault {
    ghost use Rattle.std.specs.Prelude.{◌≡◌};
    ghost use Rattle.card_forms.specs.Faults.{form_fault};

    ghost from_gives = { λ at fault. fault ≡ form_fault at };

    fn from(fault: FieldFault) -> CommandFormFault {
        match fault {
            FieldFault::Wrong { field, why } => CommandFormFault::Wrong { field, why },
            FieldFault::NoMemory => CommandFormFault::NoMemory,
        }
    }
}

/// Why the fields of a form ask for no command.
#[derive(Clone, Copy)]
pub(crate) enum FieldFault {
    /// A field is wrong: the first one, in the order of the command's fields.
    Wrong { field: Field, why: FieldError },
    /// Memory ran out.
    NoMemory,
}

impl FieldFault {
    /// The word is none of a command that has a form.
    pub(crate) const NO_FORM: FieldFault = FieldFault::Wrong {
        field: Field::Command,
        why: FieldError::NoSuchCommand,
    };
}

impl From<AllocError> for FieldFault {
    ghost use Rattle.std.specs.Prelude.{◌≡◌};
    ghost use Rattle.card_forms.specs.declared.command_faults.FieldFault.TheVariants.{NoMemory};

    ghost from_gives = { λ _ fault. fault ≡ NoMemory };

    fn from(_: AllocError) -> FieldFault {
        FieldFault::NoMemory
    }
}
