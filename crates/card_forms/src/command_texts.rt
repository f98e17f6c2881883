//! The texts of commands that are sent together.

ghost use Rattle.std.specs.Prelude.{◌≡◌, ◌≤◌, ◌∷◌, [], IfOk, length, map};
ghost use Rattle.std.specs.Option.{SomeIff};
ghost use Rattle.card_forms.specs.Remarks.{noted as noted_with};

use crate::command_text::CommandText;
use crate::remarks::noted;
use std::alloc::{AllocError, Global};
use std::marker::Model;

/// The texts of commands that are sent together, in order: 0 to 16,384. A contract sees their
/// bytes.
#[derive(Drop)]
pub struct CommandTexts {
    texts: Vec<CommandText>,
}

impl Model for CommandTexts {
    ghost use Rattle.std.specs.Prelude.{List, ℕ, ◌≤◌, length};

    ghost Value = { List (List ℕ) };

    ghost view = { λ texts. texts.texts.items };

    ghost invariant = { λ texts. length texts.texts.items ≤ 16384 };
}

impl CommandTexts {
    /// The most texts, 16,384.
    pub const MOST: usize = 16_384;

    /// These texts, without taking memory. None: they are more than 16,384.
    pub fn new(texts: Vec<CommandText>) -> Option<CommandTexts>
        ensures { SomeIff result (length texts.items ≤ 16384) texts.items }
    {
        if texts.len() > CommandTexts::MOST {
            return None;
        }
        Some(CommandTexts { texts })
    }

    /// One text.
    pub fn one(alloc: Global, text: CommandText) -> Result<CommandTexts, AllocError>
        ensures { IfOk result (λ texts. texts ≡ text ∷ []) }
    {
        let texts = vec![in alloc; text]?;
        Ok(CommandTexts { texts })
    }

    /// These texts, each with this remark where `noted` adds it.
    pub fn noted(&self, alloc: Global, remark: &[u8]) -> Result<CommandTexts, AllocError>
        ensures { IfOk result (λ texts. texts ≡ map (noted_with remark.now) self.now) }
    {
        let mut texts = Vec::new(alloc);
        for text in self.as_slice() {
            texts.push(noted(alloc, remark, text)?)?;
        }
        match CommandTexts::new(texts) {
            Some(texts) => Ok(texts),
            None => unreachable!(),
        }
    }

    /// The texts.
    pub fn as_slice(&self) -> &[CommandText]
        ensures texts { result.now ≡ self.now }
        ensures most { length result.now ≤ 16384 }
    {
        &self.texts
    }
}
