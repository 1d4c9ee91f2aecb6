//! Reads the document of a certificate line by line, and checks it.
#![tactic(auto)]

mod answer;
mod block;
mod check;
mod document;
mod ending;
mod fact;
mod head;
mod kind;
mod linkage;
mod lists;
mod met;
mod node;
mod numbers;
mod parts;
mod plain;
mod proof;
mod questions;
mod quick;
mod rest;
mod rows;
mod signal_trees;
mod sizes;
mod strong;
mod table;
mod tree;
mod verdict;

pub use check::{Accepted, check_document};
pub use crn_reading::CheckStop;
pub use fact::next_fact;
