// Symbols and their order.
ghost use Rattle.std.specs.Prelude.{◌≡◌, ◌≤◌, ◌↔◌, IfOk, IsOkUnless, List, map};
ghost use Rattle.std.specs.Cmp.{IsTotalOrder};
ghost use Rattle.std.specs.List.{AllByRecursion};
ghost use Rattle.std.specs.declared.cmp.Ordering.TheVariants.{Equal};
ghost use Rattle.plain_trees.specs.Plain.{IsSmall, edge_count_of};
ghost use Rattle.plain_trees.specs.View.{plain};
ghost use Rattle.symbol_polys.specs.Symbols.{PlainSymbol, rank, tree_in, symbol_order, monomial_order, HasBoundedTree};
ghost use Rattle.symbol_polys.specs.View.{symbol_of};

use crate::error::PolyError;
use degree_numbers::{Multi, TypeId};
use plain_trees::{Tree, copy_tree, order};
use sqlite_items::Items;
use std::alloc::Global;
use std::cmp::Ordering;

/// A symbol: a parameter by its number; the derivative of the unknown of a kernel, by a multiindex;
/// a noise; a tree; the expectation of a tree. Symbols are ordered by variant in this order, then
/// by content.
#[derive(Drop)]
pub enum Symbol {
    Parameter(u8),
    Variable(TypeId, Multi),
    Noise(TypeId),
    Plain(Tree),
    Expect(Tree),
}

fn rank(s: &Symbol) -> u8
    ensures { result ≡ rank (symbol_of s.now) }
{
    match s {
        Symbol::Parameter(_) => 0,
        Symbol::Variable(_, _) => 1,
        Symbol::Noise(_) => 2,
        Symbol::Plain(_) => 3,
        Symbol::Expect(_) => 4,
    }
}

/// The order of symbols: by variant, then numbers and multiindices in their order and trees in tree
/// order.
pub fn symbol_order(a: &Symbol, b: &Symbol) -> Ordering
    requires small_a { edge_count_of (tree_in (symbol_of a.now)) ≤ 24 }
    requires small_b { edge_count_of (tree_in (symbol_of b.now)) ≤ 24 }
    ensures { result ≡ symbol_order (symbol_of a.now) (symbol_of b.now) }
{
    match (a, b) {
        (Symbol::Parameter(i), Symbol::Parameter(j)) => i.cmp(j),
        (Symbol::Variable(k, m), Symbol::Variable(l, n)) => k.0.cmp(&l.0).then(m.order(n)),
        (Symbol::Noise(k), Symbol::Noise(l)) => k.0.cmp(&l.0),
        (Symbol::Plain(s), Symbol::Plain(t)) => order(s, t),
        (Symbol::Expect(s), Symbol::Expect(t)) => order(s, t),
        _ => rank(a).cmp(&rank(b)),
    }
}

/// The order of monomials, as lists of symbols: by the number of symbols, then lexicographically.
pub fn monomial_order(a: &[Symbol], b: &[Symbol]) -> Ordering
    requires trees_a { AllByRecursion HasBoundedTree (map symbol_of a.now) }
    requires trees_b { AllByRecursion HasBoundedTree (map symbol_of b.now) }
    ensures { result ≡ monomial_order (map symbol_of a.now) (map symbol_of b.now) }
{
    match a.len().cmp(&b.len()) {
        Ordering::Equal => {}
        other => return other,
    }
    for i in 0..a.len().min(b.len()) {
        match symbol_order(&a[i], &b[i]) {
            Ordering::Equal => {}
            other => return other,
        }
    }
    Ordering::Equal
}

fn copied(alloc: Global, t: &Tree) -> Result<Tree, PolyError>
    requires { IsSmall (plain t.now) }
    ensures copy { IfOk result (λ u. u ≡ t.now) }
    ensures memory { IsOkUnless result PolyError.Memory }
{
    match copy_tree(alloc, t) {
        Ok(copy) => Ok(copy),
        Err(_) => Err(PolyError::Memory),
    }
}

/// A copy of a symbol, whose tree is within the bounds. Fails only for want of memory.
pub fn copy_symbol(alloc: Global, s: &Symbol) -> Result<Symbol, PolyError>
    requires { HasBoundedTree (symbol_of s.now) }
    ensures copy { IfOk result (λ t. t ≡ s.now) }
    ensures memory { IsOkUnless result PolyError.Memory }
{
    Ok(match s {
        Symbol::Parameter(i) => Symbol::Parameter(*i),
        Symbol::Variable(k, m) => Symbol::Variable(*k, *m),
        Symbol::Noise(k) => Symbol::Noise(*k),
        Symbol::Plain(t) => Symbol::Plain(copied(alloc, t)?),
        Symbol::Expect(t) => Symbol::Expect(copied(alloc, t)?),
    })
}

/// A copy of a monomial, whose trees are within the bounds. Fails only for want of memory.
pub fn copy_symbols(alloc: Global, symbols: &[Symbol]) -> Result<Items<Symbol>, PolyError>
    requires { AllByRecursion HasBoundedTree (map symbol_of symbols.now) }
    ensures copy { IfOk result (λ copy. copy ≡ symbols.now) }
    ensures memory { IsOkUnless result PolyError.Memory }
{
    let mut copy = Items::new(alloc);
    for s in symbols {
        copy.push(copy_symbol(alloc, s)?)?;
    }
    Ok(copy)
}

/// The laws of the orders of symbols and of monomials: they are total orders, and `Equal` exactly
/// where the two are equal.
pub fn symbol_order_laws()
    ensures symbols { IsTotalOrder symbol_order }
    ensures equal_symbols { (s t : PlainSymbol) → (symbol_order s t ≡ Equal) ↔ (s ≡ t) }
    ensures monomials { IsTotalOrder monomial_order }
    ensures equal_monomials { (m n : List PlainSymbol) → (monomial_order m n ≡ Equal) ↔ (m ≡ n) }
{}
