//! Linkage classes, strong classes, reversibility and cut pairs of a network.
#![tactic(auto)]

mod arcs;
mod forests;
mod graph;
mod laws;
mod linkage_data;
mod pair;
mod ranks;
mod reverses;
mod search;
mod strong_data;

pub use arcs::Arc;
pub use forests::forest;
pub use laws::right_labels_are_one;
pub use linkage_data::{LinkageData, linkage};
pub use pair::{CutPair, cut_pair};
pub use reverses::{Reverses, back};
pub use strong_data::{StrongData, strong};
