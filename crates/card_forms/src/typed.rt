//! What a scoretaker typed.

ghost use Rattle.std.specs.Prelude.{◌≡◌};

use std::alloc::{AllocError, Global};
use std::marker::Model;

/// A text as it was typed into a field. A contract sees its bytes.
#[derive(Drop)]
pub struct TypedText {
    bytes: Vec<u8>,
}

impl Model for TypedText {
    ghost use Rattle.std.specs.Prelude.{List, ℕ};

    ghost Value = { List ℕ };

    ghost view = { λ text. text.bytes.items };
}

impl TypedText {
    ghost use Rattle.std.specs.Prelude.{IfOk};

    /// A text of these bytes, without taking memory.
    pub fn new(bytes: Vec<u8>) -> TypedText
        ensures { result ≡ bytes.items }
    {
        TypedText { bytes }
    }

    /// A text that is a copy of these bytes.
    pub fn copy_of(alloc: Global, bytes: &[u8]) -> Result<TypedText, AllocError>
        ensures { IfOk result (λ text. text ≡ bytes.now) }
    {
        let bytes = Vec::from_slice(alloc, bytes)?;
        Ok(TypedText { bytes })
    }

    /// The bytes.
    pub fn as_bytes(&self) -> &[u8]
        ensures { result.now ≡ self.now }
    {
        &self.bytes
    }
}

/// The fields of a card for its attempts, in order: five texts, each as it was typed. A contract
/// sees them as a list.
#[derive(Drop)]
pub struct Fields {
    texts: Vec<TypedText>,
}

impl Model for Fields {
    ghost use Rattle.std.specs.Prelude.{◌≡◌, List, ℕ, length};

    ghost Value = { List (List ℕ) };

    ghost view = { λ fields. fields.texts.items };

    ghost invariant = { λ fields. length fields.texts.items ≡ 5 };
}

impl Fields {
    ghost use Rattle.std.specs.Prelude.{◌∷◌, [], IfOk, length};

    /// These five fields.
    pub fn new(
        alloc: Global,
        first: TypedText,
        second: TypedText,
        third: TypedText,
        fourth: TypedText,
        fifth: TypedText,
    ) -> Result<Fields, AllocError>
        ensures { IfOk result
            (λ fields. fields ≡ first ∷ second ∷ third ∷ fourth ∷ fifth ∷ []) }
    {
        let texts = vec![in alloc; first, second, third, fourth, fifth]?;
        Ok(Fields { texts })
    }

    /// The five fields.
    pub fn as_slice(&self) -> &[TypedText]
        ensures fields { result.now ≡ self.now }
        ensures five { length result.now ≡ 5 }
    {
        &self.texts
    }
}
