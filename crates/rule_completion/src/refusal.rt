// Why there is no completion.
ghost use Rattle.std.specs.Prelude.{◌≡◌};
ghost use Rattle.rule_completion.specs.declared.refusal.StageRefusal.TheVariants.{Memory};

use std::alloc::AllocError;

/// What is too large at a stage.
#[derive(Clone, Copy, Debug, PartialEq, Eq)]
pub enum StageFault {
    /// More than 4,000 listed trees (`MOST_LISTED_TREES`) of the stage have at most 24 edges
    /// (`MOST_EDGES`) and a decoration sum of at most 64 (`MOST_LISTED_DECORATIONS`).
    TooManyTrees,
    /// Some tree that would be listed, or would be of degree 0, has more than 24 edges
    /// (`MOST_EDGES`) or a decoration sum of more than 64 (`MOST_LISTED_DECORATIONS`).
    TreeTooLarge,
    /// The rule of the stage has more than 2,000 node types (`MOST_NODE_TYPES`).
    RuleTooLarge,
}

/// Why there is no completion.
#[derive(Clone, Copy, Debug, PartialEq, Eq)]
pub enum StageRefusal {
    /// The first stage, from 0, at which something is too large.
    Stage { stage: u32, what: StageFault },
    /// Memory is wanted.
    Memory,
}

impl From<AllocError> for StageRefusal {
    ghost from_gives = { λ _ e. e ≡ Memory };

    fn from(_e: AllocError) -> StageRefusal {
        StageRefusal::Memory
    }
}
