//! The structural hypotheses on robustness, and whether the confluence space is a line.
#![tactic(auto)]

mod case;
mod laws;
mod line;
mod pair;
mod robust;

pub use case::pick;
pub use laws::{cases_are_one, cases_decide_robustness, lines_are_true};
pub use line::is_line;
pub use robust::Robust;
