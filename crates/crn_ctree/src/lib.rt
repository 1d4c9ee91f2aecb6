//! Trees of certificates checked node by node, pairs that show a table discordant, and signals.
#![tactic(auto)]

mod check;
mod cut;
mod fault;
mod kinds;
mod known;
mod laws;
mod node;
mod pair;
mod path;
mod problem;
mod shared;
mod signal;
mod spots;
mod worked;

pub use check::TreeCheck;
pub use fault::TreeFault;
pub use known::{KnownCut, KnownCuts};
pub use laws::{
    complete_if_and_only_if_valid, complete_trees_show, first_faults_are_those_of_tests,
    first_signal_faults_are_those_of_tests, nodes_of_valid_trees, signal_nodes_are_of_shape,
};
pub use node::{Node, Step};
pub use pair::check_pair;
pub use path::Path;
pub use problem::{InfluenceTable, Problem};
pub use shared::{SharedCut, SharedTable};
pub use signal::check_signal;
