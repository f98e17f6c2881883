//! The names and values of a form.

ghost use Rattle.std.specs.Prelude.{◌≡◌};

use crate::typed::TypedText;
use form_urlencoded::parse;
use std::alloc::{AllocError, Global};
use std::marker::Model;

/// A name of a form and its value.
#[derive(Drop)]
pub struct Pair {
    pub name: TypedText,
    pub value: TypedText,
}

/// The names and values of a form, in order. A contract sees a list of pairs.
#[derive(Drop)]
pub struct Pairs {
    pairs: Vec<Pair>,
}

impl Model for Pairs {
    ghost use Rattle.std.specs.Prelude.{List};
    ghost use Rattle.card_forms.specs.declared.pairs.Pair.{Pair};

    ghost Value = { List Pair };

    ghost view = { λ pairs. pairs.pairs.items };
}

impl Pairs {
    ghost use Rattle.std.specs.Prelude.{IfOk};
    ghost use Rattle.card_forms.specs.Pairs.{pairs_of, value_of};

    /// The pairs of a body of `application/x-www-form-urlencoded` (URL Standard, section 5). What
    /// is not UTF-8 in them is replaced by U+FFFD.
    pub fn read(alloc: Global, body: &[u8]) -> Result<Pairs, AllocError>
        ensures { IfOk result (λ pairs. pairs ≡ pairs_of body.now) }
    {
        let mut pairs = Vec::new(alloc);
        for pair in parse(alloc, body) {
            let (name, value) = pair?;
            let name = TypedText::copy_of(alloc, name.as_bytes())?;
            let value = TypedText::copy_of(alloc, value.as_bytes())?;
            pairs.push(Pair { name, value })?;
        }
        Ok(Pairs { pairs })
    }

    /// The pairs in order.
    pub fn as_slice(&self) -> &[Pair]
        ensures { result.now ≡ self.now }
    {
        &self.pairs
    }

    /// The value of the first pair of this name; nothing, where there is none.
    pub fn value(&self, name: &str) -> &[u8]
        ensures { result.now ≡ value_of name.now self.now }
    {
        for pair in &self.pairs {
            if pair.name.as_bytes() == name.as_bytes() {
                return pair.value.as_bytes();
            }
        }
        &[]
    }
}
