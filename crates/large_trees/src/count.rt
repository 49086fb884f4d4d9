// What is counted of a tree.
ghost use Rattle.std.specs.Prelude.{◌≡◌, ◌≤◌, ℕ, IfSome, IfNone};
ghost use Rattle.large_trees.specs.Classes.{most_of, weight_at};
ghost use Rattle.large_trees.specs.Large.{Lacks};

use degree_numbers::Multi;

/// What is counted of a tree, up to the class "more".
#[derive(Clone, Copy, Debug, PartialEq, Eq)]
pub enum Count {
    /// Its edges, up to more than 24.
    Edges,
    /// The entries of its derivative decorations, up to more than 64.
    Decorations,
}

const MOST_EDGES: usize = 24;

const MOST_DECORATIONS: usize = 64;

impl Count {
    /// The class "more".
    pub fn most(self) -> usize
        ensures { result ≡ most_of self }
    {
        match self {
            Count::Edges => MOST_EDGES + 1,
            Count::Decorations => MOST_DECORATIONS + 1,
        }
    }

    /// What an edge with this derivative decoration counts.
    pub fn weight(self, p: &Multi) -> usize
        ensures value { result ≡ weight_at self p.now.entries }
        ensures most { result ≤ 50000000000 }
    {
        match self {
            Count::Edges => 1,
            Count::Decorations => {
                let m = &p.entries;
                m[0] as usize + m[1] as usize + m[2] as usize + m[3] as usize + m[4] as usize
            }
        }
    }

    /// How many entries of a decoration at the root make a tree of this class too large, if any
    /// number does.
    pub fn lack(self, class: usize) -> Option<usize>
        ensures some { IfSome result (λ l. Lacks self class l) }
        ensures none { IfNone result ((l : ℕ) → Lacks self class l → ⊥) }
        ensures most { IfSome result (λ l. l ≤ 65) }
    {
        match self {
            Count::Edges if class == MOST_EDGES + 1 => Some(0),
            Count::Decorations if class <= MOST_DECORATIONS + 1 => Some(
                MOST_DECORATIONS + 1 - class,
            ),
            _ => None,
        }
    }
}
