// Files in memory, which fail at the calls that they are given.
ghost use Rattle.std.specs.Prelude.{◌≡◌, ◌≢◌, ◌↔◌, ℕ, List, [], ◌∷◌, ◌++◌, ◌≤◌, length, take, map, IfOk, OnOk, OnErr, IfErr, IsSome, Some, None, Err, Ok, IsTrue, string_bytes, if◌then◌else◌};
ghost use Rattle.std.specs.Option.{option_map};
ghost use Rattle.wb_outside.specs.Causes.{Rose, raised};
ghost use Rattle.wb_outside.specs.Told.{Lengthens};
ghost use Rattle.wb_outside.specs.Texts.{text_in};

use crate::files::{Files, OutsideError};
use crate::lookup::{front_of, next_count, text_of};
use crate::named_text::NamedText;
use std::alloc::Global;
use std::marker::Model;

/// Files in memory. The calls whose numbers are listed fail, and so do those for a name that no
/// text has.
#[derive(Drop)]
pub struct MemoryFiles {
    texts: Vec<NamedText>,
    failing: Vec<u64>,
    asked: Vec<String>,
    calls: u64,
    faults: u64,
}

impl Model for MemoryFiles {
    ghost use Rattle.std.specs.Prelude.{map, string_bytes};
    ghost use Rattle.wb_outside.specs.Memory.{HeldFiles};

    ghost Value = { HeldFiles };

    ghost view = { λ f. record { texts = f.texts.items; failing = f.failing.items; asked = map string_bytes f.asked.items; calls = f.calls; faults = f.faults } };
}

impl MemoryFiles {
    ghost use Rattle.wb_outside.specs.Texts.{AreDistinct};
    ghost use Rattle.wb_outside.specs.Memory.{HeldFiles, is_listed};

    /// Files with these texts. `failing` lists the numbers of the calls that fail, from 1.
    pub fn new(alloc: Global, texts: Vec<NamedText>, failing: Vec<u64>) -> MemoryFiles
        requires { AreDistinct texts.items }
        ensures texts { result.texts ≡ texts.items }
        ensures failing { result.failing ≡ failing.items }
        ensures asked { result.asked ≡ [] }
        ensures calls { result.calls ≡ 0 }
        ensures faults { result.faults ≡ 0 }
    {
        MemoryFiles {
            texts,
            failing,
            asked: Vec::new(alloc),
            calls: 0,
            faults: 0,
        }
    }

    // The text of a name, unless this call is one that fails.
    fn find(&self, name: &str) -> Option<&[u8]>
        ensures { option_map (λ b. b.now) result
            ≡ (if is_listed self.now.failing self.now.calls then None
            else text_in self.now.texts name.now) }
    {
        if self.failing.contains(&self.calls) {
            None
        } else {
            text_of(&self.texts, name)
        }
    }

    // Keeps the name that was asked for, and counts the failure.
    fn note(&mut self, alloc: Global, name: &str, failed: bool) -> Result<(), OutsideError>
        ensures asked { OnOk result (self.new.asked ≡ self.old.asked ++ name.now ∷ []) }
        ensures count { OnOk result (self.new.faults ≡ (if failed then raised self.old.faults
            else self.old.faults)) }
        ensures unasked { OnErr result (self.new ≡ self.old) }
        ensures later { self.old.faults ≤ self.new.faults }
        ensures memory { IfErr result (λ e. e ≡ OutsideError.Memory) }
        ensures texts { self.new.texts ≡ self.old.texts }
        ensures failing { self.new.failing ≡ self.old.failing }
        ensures calls { self.new.calls ≡ self.old.calls }
    {
        let name = String::from_str(alloc, name)?;
        self.asked.push(name)?;
        if failed {
            self.faults = next_count(self.faults);
        }
        Ok(())
    }
}

impl Files for MemoryFiles {
    ghost use Rattle.wb_outside.specs.Memory.{after_open, after_memory, open_fails};

    ghost asked = { λ f. Some f.asked };

    ghost text = { λ f name. text_in f.texts name };

    ghost faults = { λ f. f.faults };

    fn open_text(&mut self, alloc: Global, name: &str, most: usize) -> Result<Vec<u8>, OutsideError>
        // What the trait asks.
        ensures bytes { IfOk result (λ v. (t : List ℕ) → text_in self.old.texts name.now ≡ Some t →
            v.items ≡ take most t) }
        ensures there { OnOk result (IsSome (text_in self.old.texts name.now)) }
        ensures cut { IfOk result (λ v. length v.items ≤ most) }
        ensures later { self.old.faults ≤ self.new.faults }
        ensures cause { result ≡ Err OutsideError.Failed → Rose self.old.faults self.new.faults }

        // Exactly when the call fails, and what it leaves.
        ensures fails { result ≢ Err OutsideError.Memory → ((result ≡ Err OutsideError.Failed)
            ↔ IsTrue (open_fails self.old name.now)) }
        ensures answered { result ≢ Err OutsideError.Memory →
            self.new ≡ after_open self.old name.now }
        ensures memory { result ≡ Err OutsideError.Memory → self.new ≡ after_memory self.old }
    {
        self.calls = next_count(self.calls);
        let Some(bytes) = self.find(name) else {
            self.note(alloc, name, true)?;
            return Err(OutsideError::Failed);
        };
        let front = front_of(alloc, bytes, most)?;
        self.note(alloc, name, false)?;
        Ok(front)
    }
}
