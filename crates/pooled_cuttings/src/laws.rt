// Laws of groves and lines: each is a clause of a function that does nothing.
ghost use Rattle.std.specs.Prelude.{◌≡◌, ◌++◌, ℕ, List};
ghost use Rattle.exact_sums.specs.Keyed.{same_by};
ghost use Rattle.plain_trees.specs.Plain.{Plain};
ghost use Rattle.plain_trees.specs.Coproducts.{extracted_order, recentred_order};
ghost use Rattle.tree_pool.specs.Content.{Content, IsPooled, IsGrown};
ghost use Rattle.cutting_tables.specs.Keys.{opened_order};
ghost use Rattle.pooled_cuttings.specs.declared.keys.OpenKey.{OpenKey};
ghost use Rattle.pooled_cuttings.specs.declared.keys.ExtractKey.{ExtractKey};
ghost use Rattle.pooled_cuttings.specs.declared.keys.RightKey.{RightKey};
ghost use Rattle.pooled_cuttings.specs.declared.tables.TableBounds.{TableBounds};
ghost use Rattle.pooled_cuttings.specs.declared.tables.NodeTables.{NodeTables};
ghost use Rattle.pooled_cuttings.specs.Groves.{GroveContent, IsGrove, IsGrownGrove};
ghost use Rattle.pooled_cuttings.specs.Lines.{opened_in, extracted_in, recentred_in, opened_terms_in, extracted_terms_in, recentred_terms_in, IsOpenKey, IsExtractKey, IsRightKey, AreOpenLines, AreExtractLines, AreRightLines};
ghost use Rattle.pooled_cuttings.specs.NodeTables.{AreTables, IsRightTable};

use crate::keys::{ExtractKey, OpenKey, RightKey};

/// A grove grows step by step; what lines and tables mean stays.
pub fn growth_laws()
    ensures same { (g : GroveContent) → IsGrownGrove g g }
    ensures steps { (f g h : GroveContent) → IsGrownGrove f g → IsGrownGrove g h →
        IsGrownGrove f h }
    ensures open_lines { (g h : GroveContent) (ls : List (OpenKey × ℕ)) → IsGrownGrove g h →
        AreOpenLines g ls → AreOpenLines h ls }
    ensures open_terms { (g h : GroveContent) (ls : List (OpenKey × ℕ)) → IsGrove g →
        IsGrownGrove g h → AreOpenLines g ls → opened_terms_in h ls ≡ opened_terms_in g ls }
    ensures extract_lines { (g h : GroveContent) (ls : List (ExtractKey × ℕ)) →
        IsGrownGrove g h → AreExtractLines g ls → AreExtractLines h ls }
    ensures extract_terms { (g h : GroveContent) (ls : List (ExtractKey × ℕ)) → IsGrove g →
        IsGrownGrove g h → AreExtractLines g ls →
        extracted_terms_in h ls ≡ extracted_terms_in g ls }
    ensures tables { (g h : GroveContent) (b : TableBounds) (t : Plain) (x : NodeTables) →
        IsGrove g → IsGrownGrove g h → AreTables g b t x → AreTables h b t x }
{}

/// The same of lines of recentring in a pool.
pub fn right_growth_laws()
    ensures lines { (c d : Content) (ls : List (RightKey × ℕ)) → IsGrown c d →
        AreRightLines c ls → AreRightLines d ls }
    ensures terms { (c d : Content) (ls : List (RightKey × ℕ)) → IsGrown c d →
        AreRightLines c ls → recentred_terms_in d ls ≡ recentred_terms_in c ls }
    ensures table { (c d : Content) (t : Plain) (ls : List (RightKey × ℕ)) → IsGrown c d →
        IsRightTable c t ls → IsRightTable d t ls }
{}

/// Keys are equal exactly where they mean the same.
pub fn equal_keys()
    ensures opened { (g : GroveContent) (k l : OpenKey) → IsGrove g → IsOpenKey g k →
        IsOpenKey g l → same_by opened_order (opened_in g k) (opened_in g l)
        ≡ ⟦<OpenKey as PartialEq>⟧.eq k l }
    ensures extracted { (g : GroveContent) (k l : ExtractKey) → IsGrove g → IsExtractKey g k →
        IsExtractKey g l → same_by extracted_order (extracted_in g k) (extracted_in g l)
        ≡ ⟦<ExtractKey as PartialEq>⟧.eq k l }
    ensures recentred { (c : Content) (k l : RightKey) → IsPooled c → IsRightKey c k →
        IsRightKey c l → same_by recentred_order (recentred_in c k) (recentred_in c l)
        ≡ ⟦<RightKey as PartialEq>⟧.eq k l }
{}
