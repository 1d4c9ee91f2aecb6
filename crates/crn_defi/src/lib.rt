//! The deficiencies of a network and of its linkage classes, and the hypotheses of the two deficiency theorems.
#![tactic(auto)]

mod class_rank;
mod classes;
mod deficiency;
mod one;
mod split;
mod terminals;
mod zero;

pub use deficiency::deficiencies;
pub use one::one_hypotheses;
pub use split::first_split;
pub use zero::zero_hypotheses;
