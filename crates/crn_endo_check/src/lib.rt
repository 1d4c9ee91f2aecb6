//! The endotactic test of a network: its sign problems, its answers, their text, and what checks them.
#![tactic(auto)]

mod breaks;
mod check;
mod choices;
mod cut;
mod endo;
mod kinds;
mod laws;
mod rows;
mod slopes;
mod trees;

pub use breaks::is_against;
pub use check::SlopeCheck;
pub use choices::{is_small_enough, reactants};
pub use endo::Endo;
pub use laws::{
    feasible_prefixes_decide_endotactic_networks, feasible_prefixes_decide_slopes,
    networks_with_nothing_against_are_endotactic, slopes_are_steady,
    slopes_meet_the_laws_of_sign_problems, slopes_show_not_endotactic,
    valid_answers_on_endotactic_networks_are_true, valid_trees_show_endotactic,
};
pub use slopes::Slopes;
pub use trees::EndoTrees;
