// Laws of conforming trees.
ghost use Rattle.std.specs.Cmp.{IsTotalOrder};
ghost use Rattle.degree_numbers.specs.declared.types.Types.{Types};
ghost use Rattle.plain_trees.specs.Canon.{IsSame, canon};
ghost use Rattle.plain_trees.specs.Plain.{Plain};
ghost use Rattle.normal_rule.specs.declared.rule.Rule.{Rule};
ghost use Rattle.conforming_trees.specs.Conforming.{IsConforming};
ghost use Rattle.conforming_trees.specs.Listed.{listing_order};

/// Whether a tree strongly conforms to a rule does not depend on the order in which its edges are
/// drawn; and with a tree its canonical form conforms.
pub fn conformity_laws()
    ensures drawing { (ty : Types) (rule : Rule) (s t : Plain) → IsSame s t →
        IsConforming ty rule s → IsConforming ty rule t }
    ensures canonical { (ty : Types) (rule : Rule) (t : Plain) → IsConforming ty rule t →
        IsConforming ty rule (canon t) }
{}

/// The order of the listing is total.
pub fn listing_order_laws()
    ensures { (ty : Types) → IsTotalOrder (listing_order ty) }
{}
