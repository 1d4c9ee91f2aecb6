//! The rank of reaction vectors: independent members with a dual vector for each, and each other member as their combination.
#![tactic(auto)]

mod base;
mod combs;
mod duals;
mod matrix;
mod rank_proof;

pub use rank_proof::{rank, rank_by};
