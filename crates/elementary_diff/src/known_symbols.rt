// The symbols of an elementary differential are those of the equation.
ghost use Rattle.std.specs.Prelude.{◌≡◌, ◌<◌, map, length};
ghost use Rattle.std.specs.List.{AllByRecursion};
ghost use Rattle.equations.specs.Accepted.{IsEquation};
ghost use Rattle.tree_pool.specs.Content.{tree_at};
ghost use Rattle.symbol_polys.specs.Polynomials.{HaveSameCoefficients};
ghost use Rattle.symbol_polys.specs.Text.{IsTermOver};
ghost use Rattle.symbol_polys.specs.View.{symbol_of, terms_of, IsPoly};
ghost use Rattle.elementary_diff.specs.Differentials.{differential_terms};
ghost use Rattle.elementary_diff.specs.Known.{IsFiveLong, AreFiveLong};

use degree_numbers::{Multi, TypeId};
use equations::Equation;
use symbol_polys::{Poly, Symbol, Term};
use tree_pool::{Pool, TreeId};

fn read_entries(m: &Multi)
    ensures { length m.now.entries ≡ 5 }
{
    let _ = &m.entries;
}

fn read_symbol(s: &Symbol)
    ensures { IsFiveLong (symbol_of s.now) }
{
    if let Symbol::Variable(_, m) = s {
        read_entries(m);
    }
}

fn read_symbols(symbols: &[Symbol])
    ensures { AllByRecursion IsFiveLong (map symbol_of symbols.now) }
{
    for s in symbols {
        read_symbol(s);
    }
}

fn read_terms(terms: &[Term])
    ensures { AreFiveLong (terms_of terms.now) }
{
    for t in terms {
        read_symbols(t.symbols.as_slice());
    }
}

/// Shows a caller's proof that the symbols of a polynomial that is an elementary differential are
/// those of the equation, so that it can be printed. It is read through for the five entries of its
/// multiindices, and nothing else is done.
pub(crate) fn symbols_are_known(
    eq: &Equation,
    kernel: TypeId,
    pool: &Pool<'_>,
    id: TreeId,
    f: &Poly,
)
    requires equation { IsEquation eq.now }
    requires known { id.0 < length pool.now.trees }
    requires types { pool.now.types ≡ eq.now.types }
    requires poly { IsPoly f.now }
    requires coefficients { HaveSameCoefficients (terms_of f.now.terms)
        (differential_terms eq.now kernel.0 (tree_at pool.now id.0)) }
    ensures { AllByRecursion (IsTermOver eq.now.types eq.now.parameters) (terms_of f.now.terms) }
{
    let _ = pool.node(id);
    read_terms(f.terms.as_slice());
}
