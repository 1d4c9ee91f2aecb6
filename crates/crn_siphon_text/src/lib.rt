//! Documents of answers on persistence: their definitions and laws, the writing of them, and what checks them.
#![tactic(auto)]

mod laws;
mod lines;
mod node;
mod tree;
mod verify;
mod weights;
mod write;

pub use laws::{documents_on_persistence_are_judged, written_documents_on_persistence_are_good};
pub use verify::verify_persist;
pub use write::write_persist;
