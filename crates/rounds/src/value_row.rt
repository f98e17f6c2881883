//! The values of one entrant, in a fixed row of five.

ghost use Rattle.std.specs.Prelude.{◌≡◌, ◌<◌, ◌≤◌, [], ◌∷◌, ◌++◌, length, slice_set};
ghost use Rattle.rounds.specs.Tables.{without_last};

use attempts::Value;
use std::marker::Model;

/// The values of the attempts that are done, in a row that has room for those of any format.
#[derive(Drop)]
pub(crate) struct ValueRow {
    done: u8,
    values: [Value; 5],
}

impl Model for ValueRow {
    ghost use Rattle.rounds.specs.model.ValueRows.{Values};

    ghost Value = { Values };

    ghost use Rattle.rounds.specs.model.KeptRows.{values_of_row, IsRowOfFive};

    ghost view = { values_of_row };

    ghost invariant = { IsRowOfFive };
}

impl ValueRow {
    pub(crate) fn new() -> Self
        ensures { result ≡ [] }
    {
        ValueRow {
            done: 0,
            values: [Value::Dns; 5],
        }
    }

    /// The row of these values.
    pub(crate) fn of(values: &[Value]) -> Self
        requires { length values.now ≤ 5 }
        ensures { result ≡ values.now }
    {
        let mut row = [Value::Dns; 5];
        row[..values.len()].copy_from_slice(values);
        ValueRow {
            done: values.len() as u8,
            values: row,
        }
    }

    /// The values, in order.
    pub(crate) fn values(&self) -> &[Value]
        ensures values { result.now ≡ self.now }
        ensures few { length result.now ≤ 5 }
    {
        &self.values[..self.done as usize]
    }

    /// The row with the next value.
    pub(crate) fn with_next(&self, value: Value) -> Self
        requires { length self.now < 5 }
        ensures { result ≡ self.now ++ value ∷ [] }
    {
        let mut values = self.values;
        values[self.done as usize] = value;
        ValueRow {
            done: self.done + 1,
            values,
        }
    }

    /// The row with another value at an index.
    pub(crate) fn with_other(&self, index: usize, value: Value) -> Self
        requires { index < length self.now }
        ensures { result ≡ slice_set self.now index value }
    {
        let mut values = self.values;
        values[index] = value;
        ValueRow {
            done: self.done,
            values,
        }
    }

    /// The row without its last value.
    pub(crate) fn without_last(&self) -> Self
        requires { 0 < length self.now }
        ensures { result ≡ without_last self.now }
    {
        ValueRow {
            done: self.done - 1,
            values: self.values,
        }
    }
}
