//! What a browser sends from the forms of the score table: a card, or a command.
//!
//! [`Pairs`] are the names and values of a body of `application/x-www-form-urlencoded`. From them
//! [`card_form`] takes a card as it was typed, and [`command_form`] a command as it will be sent.
//! [`card_of`] reads the fields of a card, over what its page showed. [`card_entry`] and
//! [`command_entries`] are the entries of what a form asks for: a card is one, with a remark.
#![tactic(auto)]

mod asking;
mod cards;
mod command_faults;
mod command_fields;
mod command_text;
mod command_texts;
mod entries;
mod faults;
mod form_id;
mod pairs;
mod reading;
mod remarks;
mod typed;
mod values;

pub use asking::{CommandForm, command_form};
pub use cards::{CardForm, card_form, form_id_of, round_of};
pub use command_faults::{CommandFormFault, Field, FieldError};
pub use command_text::CommandText;
pub use command_texts::CommandTexts;
pub use entries::{card_entry, card_in, command_entries, same_where_the_card_is};
pub use faults::{CardFault, CardFormFault, CardReading, FieldFaults, NumberFault};
pub use form_id::FormId;
pub use pairs::{Pair, Pairs};
pub use reading::{card_of, is_untouched, number_of, text_at};
pub use remarks::{is_same_but_remark, noted, remark_alone_is_added};
pub use typed::{Fields, TypedText};
