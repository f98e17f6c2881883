//! Ids of forms.

ghost use Rattle.std.specs.Prelude.{◌≡◌};
ghost use Rattle.std.specs.Option.{SomeIff};
ghost use Rattle.card_forms.specs.Ids.{IsFormId};

use std::marker::Model;

/// The id of a form: 1 to 2^63 - 16,384, drawn at random when the form is made. The entries of what
/// it asks for have this id or one of the 16,383 above it.
///
/// A contract sees the number.
#[derive(Clone, Copy, Debug, PartialEq, Eq)]
pub struct FormId {
    number: u64,
}

impl Model for FormId {
    ghost use Rattle.std.specs.Prelude.{ℕ};
    ghost use Rattle.card_forms.specs.Ids.{IsFormId};

    ghost Value = { ℕ };

    ghost view = { λ id. id.number };

    ghost invariant = { λ id. IsFormId id.number };

    ghost inverse = { λ number. record { number = number } };
}

impl FormId {
    /// The greatest id, 2^63 - 16,384.
    pub const MOST: u64 = 9_223_372_036_854_759_424;

    /// The id of this number. None: it is 0 or above 2^63 - 16,384.
    pub fn new(number: u64) -> Option<FormId>
        ensures { SomeIff result (IsFormId number) number }
    {
        if number == 0 || number > FormId::MOST {
            return None;
        }
        Some(FormId { number })
    }

    /// Its number.
    pub fn number(self) -> u64
        ensures value { result ≡ self }
        ensures in_range { IsFormId result }
    {
        self.number
    }
}
