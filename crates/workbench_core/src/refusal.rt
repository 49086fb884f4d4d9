// Why a command is refused.
ghost use Rattle.std.specs.Prelude.{◌≡◌};
ghost use Rattle.workbench_core.specs.declared.refusal.Refusal.TheVariants.{Memory};

use crate::fixed::FixedRefusal;
use equation_file::{FileRefusal, Reason, Which};
use plain_trees::TreeError;
use rule_completion::{StageFault, StageRefusal};
use sqlite_items::Items;
use std::alloc::{AllocError, AllocFailed};
use tree_pool::PoolError;

/// Why a tree text is refused. Places count bytes from 0.
#[derive(Clone, Copy, Debug, PartialEq, Eq)]
pub enum TreeReason {
    /// No tree text goes on like this at this byte.
    TreeText { place: u64 },
    /// The name at this byte is that of no type.
    UnknownType { place: u64 },
    /// The tree has more than 24 edges (`MOST_EDGES`).
    TooManyEdges { count: u64 },
    /// The entries of the tree's decorations have a sum of more than 64
    /// (`MOST_LISTED_DECORATIONS`).
    TooManyDecorations { total: u32 },
    /// The text is not the one that is printed for its tree.
    NotCanonical,
    /// A branch of the tree's root has a degree of at most 0.
    NotPositive,
}

/// Why a command is refused. Trees, kernels, node types, degrees, names, quantities, contexts and
/// values are texts as they are printed; counts, places, lines and stages are numbers.
#[derive(Debug, Drop)]
pub enum Refusal {
    /// A file could not be read.
    FileFault,
    /// The file is not UTF-8.
    NotUtf8,
    /// The file is not TOML.
    NotToml,
    /// What is wrong with the first bad entry of the file.
    Malformed {
        entry: Items<u8>,
        reason: Reason,
    },
    /// The file passes a limit. A number past 2^63-1 counts as that.
    Limit {
        which: Which,
        count: i64,
    },
    /// The inequality of regularities fails: `left` is the regularity of the kernel, `right` the
    /// standard part that it has to be smaller than, at the first node type of the first kernel
    /// where it is not.
    NotSubcritical {
        kernel: Items<u8>,
        node: Items<u8>,
        left: Items<u8>,
        right: Items<u8>,
    },
    /// The rule of this stage of the completion, from 0, has more than 2,000 node types
    /// (`MOST_NODE_TYPES`). Stage 0 is the normal rule.
    RuleTooLarge {
        stage: u32,
    },
    /// More than 4,000 listed trees (`MOST_LISTED_TREES`) of this stage have at most 24 edges
    /// (`MOST_EDGES`) and a decoration sum of at most 64 (`MOST_LISTED_DECORATIONS`).
    TooManyTrees {
        stage: u32,
    },
    /// Some tree that would be listed at this stage, or would be of degree 0, has more than 24
    /// edges (`MOST_EDGES`) or a decoration sum of more than 64 (`MOST_LISTED_DECORATIONS`).
    TreeTooLarge {
        stage: u32,
    },
    /// The completed rule has a tree of degree 0: the first one.
    ZeroDegree {
        tree: Items<u8>,
    },
    /// A quantity of a tree passes 2^127-1.
    CoefficientTooLarge {
        tree: Items<u8>,
        quantity: Items<u8>,
    },
    /// No project of this name is kept.
    NoProject {
        name: Items<u8>,
    },
    /// The name is new, and at least 10,000 projects are kept.
    Full,
    /// The store failed.
    StoreFault,
    /// A stored row of this context and tree is not in the grammar.
    StoredRow {
        context: Items<u8>,
        tree: Items<u8>,
    },
    /// The stored value of a tree is not the computed one.
    Differs {
        tree: Items<u8>,
        stored: Items<u8>,
        computed: Items<u8>,
    },
    /// The tree text is refused.
    TreeRefused {
        reason: TreeReason,
    },
    /// This line of the table, from 1, is outside the grammar.
    TableRefused {
        line: u64,
    },
    /// The tree has more than 12 noise edges (`MOST_PAIRED_NOISES`).
    TooManyNoises {
        count: u32,
    },
    /// The table has no row for this tree, which is looked up.
    Missing {
        tree: Items<u8>,
    },
    /// There was no memory.
    Memory,
    /// The store is one of version 1.
    OldStore,
    /// This tree is met on the way, and has more than 24 edges (`MOST_EDGES`) or a decoration sum
    /// of more than 64 (`MOST_LISTED_DECORATIONS`).
    MetTooLarge {
        tree: Items<u8>,
    },
    /// A context of the store of version 1 is not in the grammar.
    StoredContext {
        context: Items<u8>,
    },
    /// The iterated sums of this tree have more than 1,000,000 triples.
    TooManyTriples {
        tree: Items<u8>,
    },
}

impl From<AllocError> for Refusal {
    ghost from_gives = { λ _ e. e ≡ Memory };

    fn from(_: AllocError) -> Self {
        Refusal::Memory
    }
}

impl<T: Drop> From<AllocFailed<T>> for Refusal {
    ghost from_gives = { λ _ e. e ≡ Memory };

    fn from(_: AllocFailed<T>) -> Self {
        Refusal::Memory
    }
}

impl From<PoolError> for Refusal {
    ghost from_gives = { λ _ e. e ≡ Memory };

    fn from(_: PoolError) -> Self {
        Refusal::Memory
    }
}

impl Refusal {
    ghost use Rattle.std.specs.Prelude.{◌≢◌, IfSome};
    ghost use Rattle.workbench_core.specs.declared.refusal.Refusal.TheVariants.{FileFault};
    ghost use Rattle.workbench_core.specs.Fixed.{fixed_status, fixed_line};
    ghost use Rattle.workbench_core.specs.Refusals.{of_file, of_stage, of_completion, of_tree_error, fixed_of, status_of, name_of, line_of};

    /// The refusal of a file that writes down no equation.
    pub fn of_file(refusal: FileRefusal) -> Refusal
        ensures refusal { result ≡ of_file refusal }
        ensures no_fault { result ≢ FileFault }
    {
        match refusal {
            FileRefusal::Limit { which, count } => Refusal::Limit { which, count },
            FileRefusal::NotUtf8 => Refusal::NotUtf8,
            FileRefusal::NotToml => Refusal::NotToml,
            FileRefusal::Malformed { entry, reason } => Refusal::Malformed { entry, reason },
            FileRefusal::Memory => Refusal::Memory,
        }
    }

    /// The refusal where a stage of the completion, from 0, is too large.
    pub fn of_stage(stage: u32, what: StageFault) -> Refusal
        ensures refusal { result ≡ of_stage stage what }
        ensures no_fault { result ≢ FileFault }
    {
        match what {
            StageFault::TooManyTrees => Refusal::TooManyTrees { stage },
            StageFault::TreeTooLarge => Refusal::TreeTooLarge { stage },
            StageFault::RuleTooLarge => Refusal::RuleTooLarge { stage },
        }
    }

    /// The refusal of a text that is not that of a tree.
    pub fn of_tree_error(error: TreeError) -> Refusal
        ensures refusal { result ≡ of_tree_error error }
        ensures no_fault { result ≢ FileFault }
    {
        let reason = match error {
            TreeError::TreeText { place } => TreeReason::TreeText { place },
            TreeError::UnknownType { place } => TreeReason::UnknownType { place },
            TreeError::TooManyEdges { count } => TreeReason::TooManyEdges { count },
            TreeError::TooManyDecorations { total } => TreeReason::TooManyDecorations { total },
            TreeError::NotCanonical => TreeReason::NotCanonical,
            TreeError::Memory => return Refusal::Memory,
        };
        Refusal::TreeRefused { reason }
    }

    /// The refusal where a rule has no completion.
    pub fn of_completion(refusal: StageRefusal) -> Refusal
        ensures refusal { result ≡ of_completion refusal }
        ensures no_fault { result ≢ FileFault }
    {
        match refusal {
            StageRefusal::Stage { stage, what } => Refusal::of_stage(stage, what),
            StageRefusal::Memory => Refusal::Memory,
        }
    }

    /// The refusal with this fixed line, where the line is one.
    pub fn fixed(&self) -> Option<FixedRefusal>
        ensures fixed { result ≡ fixed_of self.now }
        ensures status { IfSome result (λ f. fixed_status f ≡ status_of self.now) }
        ensures line { IfSome result (λ f. fixed_line f ≡ line_of self.now) }
    {
        match self {
            Refusal::FileFault => Some(FixedRefusal::FileFault),
            Refusal::StoreFault => Some(FixedRefusal::StoreFault),
            Refusal::Memory => Some(FixedRefusal::Memory),
            _ => None,
        }
    }

    /// The status with which the program ends.
    pub fn status(&self) -> u8
        ensures status { result ≡ status_of self.now }
        ensures refused { result ≢ 0 }
        ensures words { result ≢ 2 }
        ensures file_fault { result ≡ 3 → self.now ≡ FileFault }
        ensures write_fault { result ≢ 15 }
    {
        match self {
            Refusal::FileFault => FixedRefusal::FileFault.status(),
            Refusal::NotUtf8 | Refusal::NotToml | Refusal::Malformed { .. } => 4,
            Refusal::Limit { .. } => 5,
            Refusal::NotSubcritical { .. } => 6,
            Refusal::RuleTooLarge { .. } => 7,
            Refusal::TooManyTrees { .. } => 7,
            Refusal::TreeTooLarge { .. } => 7,
            Refusal::ZeroDegree { .. } => 8,
            Refusal::CoefficientTooLarge { .. } => 9,
            Refusal::NoProject { .. } | Refusal::Full => 10,
            Refusal::StoreFault => FixedRefusal::StoreFault.status(),
            Refusal::StoredRow { .. } => 12,
            Refusal::Differs { .. } => 13,
            Refusal::TreeRefused { .. } | Refusal::TableRefused { .. } => 14,
            Refusal::TooManyNoises { .. } | Refusal::Missing { .. } => 14,
            Refusal::Memory => FixedRefusal::Memory.status(),
            Refusal::OldStore => 19,
            Refusal::MetTooLarge { .. } => 20,
            Refusal::StoredContext { .. } => 21,
            Refusal::TooManyTriples { .. } => 22,
        }
    }

    /// The name of the refusal, as it stands in its line.
    pub fn name(&self) -> &'static [u8]
        ensures { result.now ≡ name_of self.now }
    {
        match self {
            Refusal::FileFault => b"FileFault",
            Refusal::NotUtf8 => b"NotUtf8",
            Refusal::NotToml => b"NotToml",
            Refusal::Malformed { .. } => b"Malformed",
            Refusal::Limit { .. } => b"Limit",
            Refusal::NotSubcritical { .. } => b"NotSubcritical",
            Refusal::RuleTooLarge { .. } => b"RuleTooLarge",
            Refusal::TooManyTrees { .. } => b"TooManyTrees",
            Refusal::TreeTooLarge { .. } => b"TreeTooLarge",
            Refusal::ZeroDegree { .. } => b"ZeroDegree",
            Refusal::CoefficientTooLarge { .. } => b"CoefficientTooLarge",
            Refusal::NoProject { .. } => b"NoProject",
            Refusal::Full => b"Full",
            Refusal::StoreFault => b"StoreFault",
            Refusal::StoredRow { .. } => b"StoredRow",
            Refusal::Differs { .. } => b"Differs",
            Refusal::TreeRefused { .. } => b"TreeRefused",
            Refusal::TableRefused { .. } => b"TableRefused",
            Refusal::TooManyNoises { .. } => b"TooManyNoises",
            Refusal::Missing { .. } => b"Missing",
            Refusal::Memory => b"Memory",
            Refusal::OldStore => b"OldStore",
            Refusal::MetTooLarge { .. } => b"MetTooLarge",
            Refusal::StoredContext { .. } => b"StoredContext",
            Refusal::TooManyTriples { .. } => b"TooManyTriples",
        }
    }
}
