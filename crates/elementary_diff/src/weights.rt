// The mass of an elementary differential, which is decided before any polynomial is made.
ghost use Rattle.std.specs.Prelude.{◌≡◌, ◌<◌, ◌*◌, ◌^◌, cond, map, length, unsigned_abs, IfOk, IsOkUnless};
ghost use Rattle.equations.specs.Accepted.{IsEquation};
ghost use Rattle.exact_sums.specs.Saturating.{saturated};
ghost use Rattle.degree_numbers.specs.Types.{kind_of};
ghost use Rattle.plain_trees.specs.Plain.{root_of};
ghost use Rattle.tree_pool.specs.Content.{tree_at};
ghost use Rattle.symbol_polys.specs.View.{symbol_of, term_of, terms_of};
ghost use Rattle.elementary_diff.specs.Differentials.{kernel_edge, right_terms};
ghost use Rattle.elementary_diff.specs.Masses.{variable_count, weight, root_mass, mass_of};

use crate::root_edges::left_at_root;
use degree_numbers::{Kind, TypeId, Types};
use equations::Equation;
use exact_sums::Saturated;
use std::alloc::Global;
use symbol_polys::{PolyError, Symbol, Term};
use tree_pool::{Pool, TreeId};

fn variable_count(symbols: &[Symbol]) -> usize
    ensures { result ≡ variable_count (map symbol_of symbols.now) }
{
    let mut count = 0;
    for s in symbols {
        if let Symbol::Variable(_, _) = s {
            count += 1;
        }
    }
    count
}

pub(crate) fn power(base: Saturated, exponent: u32) -> Saturated
    ensures { result ≡ saturated (base ^ exponent) }
{
    let mut power = Saturated::of(1);
    for _ in 0..exponent {
        power = power.times(base);
    }
    power
}

// The absolute coefficient of a term times the number of its variables to a power.
fn term_weight(exponent: u32, term: &Term) -> Saturated
    ensures { result ≡ saturated (unsigned_abs term.now.coefficient
        * variable_count (map symbol_of term.now.symbols) ^ exponent) }
{
    let count = Saturated::of(variable_count(term.symbols.as_slice()) as u128);
    Saturated::of(term.coefficient.unsigned_abs()).times(power(count, exponent))
}

fn weight(exponent: u32, terms: &[Term]) -> Saturated
    ensures { result ≡ saturated (weight exponent (terms_of terms.now)) }
{
    let mut sum = Saturated::of(0);
    for term in terms {
        sum = sum.plus(term_weight(exponent, term));
    }
    sum
}

fn root_mass(
    alloc: Global,
    eq: &Equation,
    kernel: TypeId,
    pool: &Pool<'_>,
    id: TreeId,
) -> Result<Saturated, PolyError>
    requires equation { IsEquation eq.now }
    requires known { id.0 < length pool.now.trees }
    ensures value { IfOk result (λ m. m
        ≡ saturated (root_mass eq.now.types (right_terms eq.now kernel.0)
        (tree_at pool.now id.0))) }
    ensures memory { IsOkUnless result PolyError.Memory }
{
    let (n, _) = pool.node(id);
    let terms = left_at_root(alloc, eq, kernel, pool, id)?;
    Ok(weight(n.total(), terms.as_slice()))
}

// Whether a type is that of a kernel.
pub(crate) fn is_kernel(types: &Types, kind: TypeId) -> bool
    ensures { kernel_edge (kind_of types.now kind.0) ≡ cond result 1 0 }
{
    match types.list.get(kind.0 as usize) {
        Some(entry) => entry.kind == Kind::Kernel,
        None => false,
    }
}

/// The mass of the elementary differential of a tree at a kernel: the product of the masses at its
/// root and at the nodes above kernel edges, of which one that is 0 makes it 0.
pub(crate) fn mass(
    alloc: Global,
    eq: &Equation,
    kernel: TypeId,
    pool: &Pool<'_>,
    id: TreeId,
) -> Result<Saturated, PolyError>
    requires equation { IsEquation eq.now }
    requires known { id.0 < length pool.now.trees }
    ensures value { IfOk result (λ m. m
        ≡ saturated (mass_of eq.now.types (right_terms eq.now) kernel.0 (tree_at pool.now id.0))) }
    ensures memory { IsOkUnless result PolyError.Memory }
{
    let (_, edges) = pool.node(id);
    let mut product = root_mass(alloc, eq, kernel, pool, id)?;
    for e in edges {
        if is_kernel(&eq.types, e.kind) {
            product = product.times(mass(alloc, eq, e.kind, pool, e.child)?);
        }
    }
    Ok(product)
}
