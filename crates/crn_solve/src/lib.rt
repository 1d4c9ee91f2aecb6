//! The answers to the questions about a network: each formed, valid, and true of the network or open as licensed.
#![tactic(auto)]

mod answers;
mod confluence_answer;
mod deficiency_answer;
mod linkage_answer;
mod open;
mod parts;
mod positive;
mod rank_answer;
mod reversible;
mod signal_answer;
mod strong_answer;
mod systems;
mod zero_answer;

pub use answers::{solve, solve_rank, solve_verdicts};
pub use positive::law_or_cut;
