//! The completion of a rule: the first stage that equals its successor, with its listed trees. The
//! listing and the steps between stages don't know each other; here they meet.
#![tactic(auto)]

mod completion;
mod laws;
mod refusal;
mod stage;

pub use completion::{Completion, complete};
pub use laws::completion_laws;
pub use refusal::{StageFault, StageRefusal};
