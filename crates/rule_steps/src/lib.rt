//! One step of the completion of a rule: from the listed trees to the next stage. It takes these
//! trees as they come, and stands apart from their listing.
#![tactic(auto)]

mod additions;
mod choices;
mod edges;
mod raise;
mod roots;
mod sets;
mod step;
mod sums;
#[cfg(test)]
mod tests;

pub use step::next_stage;
