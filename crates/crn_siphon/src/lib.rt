//! Whether a network is persistent by its siphons: the answer, by a search over sets of species.
#![tactic(auto)]

mod answer;
mod change;
mod changes;
mod dictionary;
mod ends;
mod engine;
mod kinds;
mod known;
mod place;
mod row;
mod search;
mod sets;
mod terms;
mod tree;
mod trial;

pub use answer::persist;
