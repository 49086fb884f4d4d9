// Files in memory that never fail.
ghost use Rattle.std.specs.Prelude.{◌≡◌, ◌≢◌, ℕ, List, [], ◌∷◌, ◌++◌, ◌≤◌, length, take, map, IfOk, OnOk, OnErr, IsSome, Some, Err, string_bytes};
ghost use Rattle.wb_outside.specs.Causes.{Rose};
ghost use Rattle.wb_outside.specs.Told.{Lengthens};

use crate::files::{Files, OutsideError};
use crate::lookup::{front_of, text_of};
use crate::named_text::NamedText;
use std::alloc::Global;
use std::marker::Model;

/// Files in memory that never fail: every name that no text has has the empty text.
#[derive(Drop)]
pub struct QuietFiles {
    texts: Vec<NamedText>,
    asked: Vec<String>,
}

impl Model for QuietFiles {
    ghost use Rattle.std.specs.Prelude.{map, string_bytes};
    ghost use Rattle.wb_outside.specs.Quiet.{QuietTexts};

    ghost Value = { QuietTexts };

    ghost view = { λ f. record { texts = f.texts.items; asked = map string_bytes f.asked.items } };
}

impl QuietFiles {
    ghost use Rattle.wb_outside.specs.Texts.{AreDistinct};

    /// Files with these texts.
    pub fn new(alloc: Global, texts: Vec<NamedText>) -> QuietFiles
        requires { AreDistinct texts.items }
        ensures texts { result.texts ≡ texts.items }
        ensures asked { result.asked ≡ [] }
    {
        QuietFiles {
            texts,
            asked: Vec::new(alloc),
        }
    }
}

impl Files for QuietFiles {
    ghost use Rattle.wb_outside.specs.Quiet.{quiet_text};

    ghost asked = { λ f. Some f.asked };

    ghost text = { λ f name. Some (quiet_text f.texts name) };

    ghost faults = { λ _. 0 };

    fn open_text(&mut self, alloc: Global, name: &str, most: usize) -> Result<Vec<u8>, OutsideError>
        ensures bytes { IfOk result (λ v. v.items
            ≡ take most (quiet_text self.old.texts name.now)) }
        ensures cut { IfOk result (λ v. length v.items ≤ most) }
        ensures never { result ≢ Err OutsideError.Failed }
        ensures texts { self.new.texts ≡ self.old.texts }
        ensures asked { OnOk result (self.new.asked ≡ self.old.asked ++ name.now ∷ []) }
        ensures unasked { OnErr result (self.new.asked ≡ self.old.asked) }
    {
        let bytes = text_of(&self.texts, name).unwrap_or(&[]);
        let front = front_of(alloc, bytes, most)?;
        let name = String::from_str(alloc, name)?;
        self.asked.push(name)?;
        Ok(front)
    }
}
