//! The linked pairs within terminal strong classes, the shape of a network and of a vector over its complexes, and the kinds
//! that the sign problem of signals gives.
#![tactic(auto)]

mod kinds;
mod pairs;
mod rows;
mod shape;
mod tops;
mod within;

pub use kinds::{row_kind, shelves};
pub use pairs::LinkedPair;
pub use shape::Shape;
pub use tops::Tops;
pub use within::is_pair;
