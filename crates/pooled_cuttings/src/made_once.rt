// Numbers that were made of two numbers, in a hashed map. They are looked up and added to here
// alone.
ghost use Rattle.std.specs.Prelude.{◌≡◌, ◌++◌, ◌∷◌, [], ℕ, List, OnOk, OnErr, MatchOption};
ghost use Rattle.ordered_lists.specs.Members.{IsIn};
ghost use Rattle.pooled_cuttings.specs.MadeOnce.{made_of, pairs_in};

use indexmap::IndexMap;
use std::alloc::{AllocError, Global};
use std::marker::Model;

/// Two numbers.
#[derive(Clone, Copy, Debug, PartialEq, Eq, Hash)]
struct Pair {
    first: usize,
    second: usize,
}

/// What was made of pairs of numbers, by the pairs, in the order in which it was made.
#[derive(Drop)]
pub(crate) struct MadeOnce {
    entries: IndexMap<Pair, usize>,
}

impl Model for MadeOnce {
    ghost use Rattle.std.specs.Prelude.{ℕ, List};

    ghost Value = { List ((ℕ × ℕ) × ℕ) };

    ghost use Rattle.pooled_cuttings.specs.MadeOnce.{made_of};

    ghost view = { λ m. made_of m.entries.entries };
}

impl MadeOnce {
    /// Nothing yet.
    pub fn new(alloc: Global) -> MadeOnce
        ensures { result ≡ [] }
    {
        MadeOnce {
            entries: IndexMap::new(alloc),
        }
    }

    /// Forgets what was made, and keeps the memory.
    pub fn clear(&mut self)
        ensures { self.new ≡ [] }
    {
        self.entries.clear();
    }

    /// What was made of two numbers.
    pub fn get(&self, first: usize, second: usize) -> Option<usize>
        ensures { MatchOption result (IsIn (first, second) (pairs_in self.now) → ⊥)
            (λ made. IsIn ((first, second), made) self.now) }
    {
        self.entries.get(&Pair { first, second }).copied()
    }

    /// Puts what is made of two numbers behind the others.
    pub fn push(&mut self, first: usize, second: usize, made: usize) -> Result<(), AllocError>
        requires { IsIn (first, second) (pairs_in self.old) → ⊥ }
        ensures pushed { OnOk result (self.new ≡ self.old ++ ((first, second), made) ∷ []) }
        ensures unchanged { OnErr result (self.new ≡ self.old) }
    {
        self.entries.insert(Pair { first, second }, made)?;
        Ok(())
    }
}
