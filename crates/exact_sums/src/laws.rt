// Laws that readers and other crates can rely on: each is a clause of a function that does nothing.

ghost use Rattle.std.specs.Prelude.{◌≡◌, ℕ, ◌+◌, ◌*◌, ◌++◌, List, map, sum};
ghost use Rattle.exact_sums.specs.Saturating.{saturated, saturating_plus, saturating_times, saturating_sum, saturating_product, product};
ghost use Rattle.exact_sums.specs.Binomials.{factorial, binomial, multinomial};
ghost use Rattle.exact_sums.specs.Keyed.{IsExactTest, HaveSameSaturatedSums, IsCollected, expanded, products, same_by, sum_at, collected, keys};
ghost use Rattle.std.specs.List.Sorted.{IsPermutation, IsStrictlySortedBy};

/// The value of a sum is the sum of the values, and the same for products and lists.
pub fn saturated_laws()
    ensures sum { (a b : ℕ) → saturating_plus (saturated a) (saturated b) ≡ saturated (a + b) }
    ensures product { (a b : ℕ) → saturating_times (saturated a) (saturated b) ≡ saturated (a * b) }
    ensures sums { (xs : List ℕ) → saturating_sum (map saturated xs) ≡ saturated (sum xs) }
    ensures products { (xs : List ℕ) →
        saturating_product (map saturated xs) ≡ saturated (product xs) }
{}

/// A multinomial is the factorial of the sum of its parts over the product of the factorials of the
/// parts. It does not depend on the order of the parts; that of two lists of parts is the product
/// of theirs and of a binomial.
pub fn multinomial_laws()
    ensures quotient { (xs : List ℕ) →
        multinomial xs * product (map factorial xs) ≡ factorial (sum xs) }
    ensures order { (xs ys : List ℕ) → IsPermutation xs ys → multinomial ys ≡ multinomial xs }
    ensures append { (xs ys : List ℕ) →
        multinomial (xs ++ ys) ≡ multinomial xs * multinomial ys * binomial (sum xs + sum ys)
        (sum ys) }
{}

/// What is made of a formal sum, term by term, depends on its sums by key alone.
pub fn expansion_law<K: PartialEq, J: PartialEq>()
    requires exact { IsExactTest K.eq }
    ensures { (step : K → List (J × ℕ)) (xs ys : List (K × ℕ)) → HaveSameSaturatedSums K.eq xs ys →
        HaveSameSaturatedSums J.eq (expanded step xs) (expanded step ys) }
{}

/// So does the product of two formal sums.
pub fn product_law<K: PartialEq, J: PartialEq, L: PartialEq>()
    requires left { IsExactTest K.eq }
    requires right { IsExactTest J.eq }
    ensures { (factor : K → J → ℕ) (op : K → J → L) (xs us : List (K × ℕ)) (ys vs : List (J × ℕ)) →
        HaveSameSaturatedSums K.eq xs us → HaveSameSaturatedSums J.eq ys vs →
        HaveSameSaturatedSums L.eq (products factor op xs ys) (products factor op us vs) }
{}

/// A collected list of terms is determined by its sums by key.
pub fn collected_law<K: Ord>()
    requires exact { IsExactTest K.eq }
    ensures { (xs ys : List (K × ℕ)) → IsCollected K.cmp xs → IsCollected K.cmp ys →
        HaveSameSaturatedSums K.eq xs ys → xs ≡ ys }
{}

/// Collecting keeps the sums by key, and puts each key once, in order.
pub fn collecting_law<K: Ord>()
    requires exact { IsExactTest K.eq }
    ensures sums { (k : K) (ts : List (K × ℕ)) →
        sum_at (same_by K.cmp) k (collected K.cmp ts) ≡ sum_at (same_by K.cmp) k ts }
    ensures ascending { (ts : List (K × ℕ)) → IsStrictlySortedBy K.cmp (keys (collected K.cmp ts)) }
{}
