//! Siphons of a network: the data of an answer on persistence, and the tests and laws of what shows it.
#![tactic(auto)]

mod answer;
mod laws;
mod members;
mod tree;
mod tree_node;
mod weights;

pub use answer::{Outcome, Persist};
pub use laws::{
    longer_siphon_visits, siphon_visits_are_one_list, valid_answers_on_persistence_are_true,
    valid_trees_show_laws,
};
pub use members::{is_siphon, is_void, stops};
pub use tree::SiphonTree;
pub use tree_node::SiphonNode;
pub use weights::is_zero_outside;
