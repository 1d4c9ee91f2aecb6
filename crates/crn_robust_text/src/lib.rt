//! Documents on the hypotheses of robustness: what one is, writing it, and reading and checking it.
#![tactic(auto)]

mod laws;
mod lines;
mod verdict;
mod verify;
mod write;

pub use laws::{
    documents_on_robustness_are_judged, valid_answers_on_robustness_are_true,
    written_documents_on_robustness_are_good,
};
pub use verify::{Verified, verify_robust};
pub use write::write_robust;
