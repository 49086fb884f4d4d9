//! What the program can be asked for, and what the commands answer: functions of the bytes of
//! files. Stores and streams are known above it alone.
#![tactic(auto)]

mod act;
mod answer;
mod base;
mod completed;
mod compute;
mod detail;
mod fixed;
mod given_table;
mod given_tree;
mod lines;
mod multiply;
mod refusal;
mod request;
mod samples;
mod sums;
mod text;
mod tree_list;
mod trees;
mod verdict;

pub use act::act_of;
pub use answer::{Output, answer_for};
pub use completed::{Completed, complete_file};
pub use compute::{Computed, Reported, compute_of, print_computed, report_of, report_over};
pub use detail::detail_of;
pub use fixed::FixedRefusal;
pub use lines::print_refusal;
pub use multiply::multiply_of;
pub use refusal::{Refusal, TreeReason};
pub use request::{Request, Word};
pub use samples::sample;
pub use text::check_text;
pub use trees::trees_of;
pub use verdict::{check, verdict_on};
