//! What is wrong with a form.

use std::alloc::AllocError;
use thiserror::Error;

/// Why a body is no card at all. A scoretaker cannot mend it: the form's page names its id and its
/// round.
#[derive(Clone, Copy, Debug, PartialEq, Eq, Error)]
pub enum CardFormFault {
    /// `id` is no number of 1 to 2^63 - 16,384.
    #[error("the form has no id")]
    BadId,
    /// The id is good, and `round` is no event and round, as `333-1`.
    #[error("the form names no round")]
    BadRound,
    /// The id and the round are good, and `was` is not what attempts count.
    #[error("the form does not say what stood")]
    BadWas,
    /// Memory ran out.
    #[error("no memory")]
    NoMemory,
}

impl From<AllocError> for CardFormFault {
    ghost use Rattle.std.specs.Prelude.{◌≡◌};
    ghost use Rattle.card_forms.specs.declared.faults.CardFormFault.TheVariants.{NoMemory};

    ghost from_gives = { λ _ fault. fault ≡ NoMemory };

    fn from(_: AllocError) -> CardFormFault {
        CardFormFault::NoMemory
    }
}

/// Why a text is no competitor's number.
#[derive(Clone, Copy, Debug, PartialEq, Eq, Error)]
pub enum NumberFault {
    /// There is nothing but spaces.
    #[error("whose card is it?")]
    Empty,
    /// It is no number of 1 to 9,999.
    #[error("a number is 1 to 9999")]
    NotANumber,
}

/// What is wrong with the fields of a card, each apart from the others: at least one is not read.
#[derive(Clone, Copy, Debug, PartialEq, Eq)]
pub struct FieldFaults {
    /// What is wrong with the competitor's number.
    pub number: Option<NumberFault>,
    /// What is wrong with the fields of the five attempts, in order.
    pub attempts: [Option<scorecard::ScorecardFault>; 5],
}

/// Why fields that are read, each by itself, are no card.
#[derive(Clone, Copy, Debug, PartialEq, Eq, Error)]
pub enum CardFault {
    /// The field of this attempt, from 1 on, is empty, and a later one is not.
    #[error("attempt {field} is empty")]
    Gap { field: u8 },
    /// Nothing was typed: all stays as it is.
    #[error("nothing is typed")]
    Nothing,
    /// The command would have more than 600 bytes, as that of three long solutions.
    #[error("it is too long for one command: enter one attempt after the other")]
    TooLong,
}

/// Why the fields of a card are not read.
#[derive(Clone, Copy, Debug, PartialEq, Eq)]
pub enum CardReading {
    /// These are wrong.
    Unread(FieldFaults),
    /// Each is read, and together they are no card.
    Unfit(CardFault),
    /// Memory ran out.
    NoMemory,
}

impl From<AllocError> for CardReading {
    ghost use Rattle.std.specs.Prelude.{◌≡◌};
    ghost use Rattle.card_forms.specs.declared.faults.CardReading.TheVariants.{NoMemory};

    ghost from_gives = { λ _ fault. fault ≡ NoMemory };

    fn from(_: AllocError) -> CardReading {
        CardReading::NoMemory
    }
}
