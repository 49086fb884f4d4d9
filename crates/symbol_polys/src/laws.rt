// Laws of polynomials and of lists of terms.
ghost use Rattle.std.specs.Prelude.{◌≡◌, ◌+◌, ℤ, pos, List, [], ◌∷◌, ◌++◌};
ghost use Rattle.std.specs.List.{AllByRecursion};
ghost use Rattle.symbol_polys.specs.Symbols.{PlainSymbol, IsMonomial};
ghost use Rattle.symbol_polys.specs.Polynomials.{PlainTerm, monomials, HaveSameCoefficients, IsPolynomial, times_all};
ghost use Rattle.symbol_polys.specs.Products.{monomial_product, products};
ghost use Rattle.symbol_polys.specs.Derivatives.{power_of, derivatives};

/// The coefficients of its monomials determine a polynomial's terms. What is made of lists of
/// terms, their product and their derivatives, depends on the coefficients of the monomials alone.
pub fn coefficients_determine()
    ensures terms { (a b : ℤ) (ts us : List PlainTerm) → IsPolynomial a ts → IsPolynomial b us →
        HaveSameCoefficients ts us → ts ≡ us }
    ensures products { (ts us vs ws : List PlainTerm) → HaveSameCoefficients ts us →
        HaveSameCoefficients vs ws → HaveSameCoefficients (products ts vs) (products us ws) }
    ensures derivatives { (s : PlainSymbol) (ts us : List PlainTerm) → HaveSameCoefficients ts us →
        HaveSameCoefficients (derivatives s ts) (derivatives s us) }
{}

/// The product of monomials has the symbols of both. The product of lists of terms is commutative,
/// up to the order of what it lists, associative and distributive, and 1 leaves a list as it is.
pub fn product_laws()
    ensures monomial { (m n : List PlainSymbol) → IsMonomial m → IsMonomial n →
        IsMonomial (monomial_product m n) }
    ensures powers { (s : PlainSymbol) (m n : List PlainSymbol) →
        power_of s (monomial_product m n) ≡ power_of s m + power_of s n }
    ensures commutative { (ts us : List PlainTerm) → AllByRecursion IsMonomial (monomials ts) →
        AllByRecursion IsMonomial (monomials us) →
        HaveSameCoefficients (products ts us) (products us ts) }
    ensures associative { (ts us vs : List PlainTerm) → AllByRecursion IsMonomial (monomials ts) →
        AllByRecursion IsMonomial (monomials us) → AllByRecursion IsMonomial (monomials vs) →
        products (products ts us) vs ≡ products ts (products us vs) }
    ensures distributive { (ts us vs : List PlainTerm) →
        products (ts ++ us) vs ≡ products ts vs ++ products us vs }
    ensures multiple { (z : ℤ) (ts us : List PlainTerm) →
        products (times_all z ts) us ≡ times_all z (products ts us) }
    ensures one { (us : List PlainTerm) → products (record { coefficient = pos 1; symbols = [] }
        ∷ []) us ≡ us }
{}

/// The derivative of a sum is the sum of the derivatives, and that of a product is given by
/// Leibniz's rule.
pub fn derivative_laws()
    ensures sum { (s : PlainSymbol) (ts us : List PlainTerm) →
        derivatives s (ts ++ us) ≡ derivatives s ts ++ derivatives s us }
    ensures product { (s : PlainSymbol) (ts us : List PlainTerm) →
        AllByRecursion IsMonomial (monomials ts) → AllByRecursion IsMonomial (monomials us) →
        HaveSameCoefficients (derivatives s (products ts us)) (products (derivatives s ts) us
        ++ products ts (derivatives s us)) }
{}
