//! Documents of answers on endotactic networks: their definitions and laws, the writing of them, and what checks them.
#![tactic(auto)]

mod laws;
mod lines;
mod node;
mod seen;
mod tree;
mod verify;
mod write;

pub use laws::{
    documents_on_endotactic_networks_are_judged, written_documents_on_endotactic_networks_are_good,
};
pub use seen::EndoSeen;
pub use verify::verify_endo;
pub use write::write_endo;
