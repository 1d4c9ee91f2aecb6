//! Documents of the finest independent decomposition: their definitions and laws, the writing of them, and what checks them.
#![tactic(auto)]

mod laws;
mod lines;
mod numbers;
mod proof;
mod seen;
mod verify;
mod write;

pub use laws::{
    documents_on_decompositions_are_judged, written_documents_on_decompositions_are_good,
};
pub use seen::PartsSeen;
pub use verify::verify_parts;
pub use write::write_parts;
