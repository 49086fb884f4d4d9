// Constants that are held.
ghost use Rattle.std.specs.Prelude.{◌≡◌, ◌↔◌, [], IfOk, OnOk, OnErr, IsOkUnless, IsTrue, MatchOption, Some, None};
ghost use Rattle.symbol_polys.specs.View.{IsPoly};
ghost use Rattle.twisted_antipode.specs.Held.{weighed_of, with_held, IsHeld};
ghost use Rattle.twisted_antipode.specs.Known.{first_held};

use crate::error::AntipodeError;
use indexmap::IndexMap;
use std::alloc::Global;
use std::marker::Model;
use symbol_polys::Poly;
use tree_pool::TreeId;

/// Polynomials that are held as the constants of trees, by the numbers of the trees. Contracts see
/// the list of both, in the order in which the trees came in.
#[derive(Drop)]
pub struct Constants {
    entries: IndexMap<TreeId, Poly>,
}

impl Model for Constants {
    ghost use Rattle.std.specs.Prelude.{List};
    ghost use Rattle.std.specs.Coded.{coded_list};
    ghost use Rattle.twisted_antipode.specs.Held.{Held, held_code, held_in, ArePolys};

    ghost Value = { List Held };

    ghost coded = { coded_list held_code };

    ghost view = { λ c. held_in c.entries.entries };

    ghost invariant = { λ c. ArePolys c.entries.entries };
}

impl Constants {
    /// Nothing is held. Takes no memory.
    pub fn new(alloc: Global) -> Result<Constants, AntipodeError>
        ensures nothing { IfOk result (λ c. c ≡ []) }
        ensures memory { IsOkUnless result AntipodeError.Memory }
    {
        Ok(Constants {
            entries: IndexMap::new(alloc),
        })
    }

    /// Holds a polynomial as the constant of a tree, with the polynomial's mass, in the place of
    /// one that was held. Fails only for want of memory, and then holds what it held.
    pub fn hold(&mut self, alloc: Global, id: TreeId, value: Poly) -> Result<(), AntipodeError>
        requires { IsPoly value }
        ensures held { OnOk result (self.new ≡ with_held self.old id.0 (weighed_of value)) }
        ensures unchanged { OnErr result (self.new ≡ self.old) }
        ensures memory { IsOkUnless result AntipodeError.Memory }
    {
        let _ = alloc;
        match self.entries.insert(id, value) {
            Ok(_) => Ok(()),
            Err(_) => Err(AntipodeError::Memory),
        }
    }

    /// Whether a polynomial is held for a tree. Takes no memory.
    pub fn held(&self, id: TreeId) -> bool
        ensures { IsTrue result ↔ IsHeld self.now id.0 }
    {
        self.entries.get(&id).is_some()
    }

    /// The polynomial that is held for a tree. Takes no memory.
    pub fn get(&self, id: TreeId) -> Option<&Poly>
        ensures { MatchOption result (first_held self.now id.0 ≡ None)
            (λ p. IsPoly p.now × (first_held self.now id.0 ≡ Some (weighed_of p.now))) }
    {
        self.entries.get(&id)
    }
}
