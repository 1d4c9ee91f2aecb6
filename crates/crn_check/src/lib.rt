//! Whether an answer is valid: the tests of the answer to one question, in order.
#![tactic(auto)]

mod check;
mod combs;
mod concordance;
mod confluence;
mod deficiency;
mod duals;
mod exits;
mod facts;
mod fault;
mod kinds;
mod labels;
mod levels;
mod linkage;
mod members;
mod normal;
mod one;
mod positive;
mod ranks;
mod regular;
mod reverses;
mod reversible;
mod sides;
mod signal;
mod skips;
mod space;
mod strong;
mod terminals;
mod ties;
mod trees;
mod ways;
mod weak;
mod zero;

pub use check::{accept_tree, check_answer, check_head, check_signal_answer};
pub use facts::Facts;
pub use fault::CheckFault;
pub use labels::are_numbered;
pub use positive::{amount_change, is_conservation, rules_out_conservation, weight_change};
pub use ranks::check_rank_proof;
