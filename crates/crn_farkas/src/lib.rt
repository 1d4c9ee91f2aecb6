//! Linear systems that require a sign of each coordinate: a solution, or multipliers that rule every solution out.
#![tactic(auto)]

mod alternative;
mod columns;
mod cut;
mod decision;
mod fault;
mod feasibility;
mod feasible;
mod goal;
mod laws;
mod level;
mod settle;
mod solver;
mod sum;
mod system;
mod targets;
mod tested;
mod units;
mod view;

pub use alternative::Alternative;
pub use cut::Cut;
pub use decision::Decision;
pub use fault::Stop;
pub use feasibility::Feasibility;
pub use laws::{
    decisions_exclude_each_other, narrow_matrices_are_decided, refused_stops_show_a_wide_matrix,
    witnesses_make_solutions,
};
pub use solver::Solver;
pub use system::{System, decide, decide_by};
