// Laws of right sides.
ghost use Rattle.std.specs.Prelude.{◌≡◌, ℕ, List, Some};
ghost use Rattle.std.specs.List.{AllByRecursion};
ghost use Rattle.right_side_text.specs.Grammar.{right_side};
ghost use Rattle.right_side_text.specs.WrittenOut.{terms_text, IsWritable};
ghost use Rattle.right_side_text.specs.declared.written.WrittenTerm.{WrittenTerm};

/// Terms that are written out in full are read back: so each list of terms that a text can write is
/// the right side of some text, and the grammar leaves none out.
pub fn written_terms_are_read_back()
    ensures { (dims : ℕ) (ts : List WrittenTerm) → AllByRecursion (IsWritable dims) ts →
        right_side dims (terms_text ts) ≡ Some ts }
{}
