// The definition of the elementary differential, evaluated.
ghost use Rattle.std.specs.Prelude.{ℤ};
ghost use Rattle.rule_examples.specs.Known.{kpz_equation, phi43_equation};
ghost use Rattle.differential_examples.specs.Rows.{kpz_rows, derivative_rows, phi43_rows, AreRows};

/// The differentials of the listed trees of the KPZ equation, of trees with decorated roots, and of trees of the dynamic Phi^4 model in three dimensions, as they are
/// worked out by hand.
pub fn rows_law()
    ensures kpz { (a : ℤ) → AreRows (kpz_equation a) kpz_rows }
    ensures derivatives { (a : ℤ) → AreRows (kpz_equation a) derivative_rows }
    ensures phi43 { (a : ℤ) → AreRows (phi43_equation a) phi43_rows }
{}
