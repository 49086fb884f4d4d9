// Why there is no listing.
ghost use Rattle.std.specs.Prelude.{◌≡◌};
ghost use Rattle.tree_listing.specs.declared.refusal.ListRefusal.TheVariants.{Memory};

use std::alloc::AllocError;
use tree_pool::PoolError;

/// Why a rule has no listing.
#[derive(Clone, Copy, Debug, PartialEq, Eq)]
pub enum ListRefusal {
    /// More than 4,000 listed trees (`MOST_LISTED_TREES`) have at most 24 edges (`MOST_EDGES`) and
    /// a decoration sum of at most 64 (`MOST_LISTED_DECORATIONS`).
    TooManyTrees,
    /// Some tree that would be listed, or would be of degree 0, has more than 24 edges
    /// (`MOST_EDGES`) or a decoration sum of more than 64 (`MOST_LISTED_DECORATIONS`).
    TreeTooLarge,
    /// Memory is wanted.
    Memory,
}

impl From<AllocError> for ListRefusal {
    ghost from_gives = { λ _ e. e ≡ Memory };

    fn from(_e: AllocError) -> ListRefusal {
        ListRefusal::Memory
    }
}

impl From<PoolError> for ListRefusal {
    ghost from_gives = { λ _ e. e ≡ Memory };

    fn from(_e: PoolError) -> ListRefusal {
        ListRefusal::Memory
    }
}
