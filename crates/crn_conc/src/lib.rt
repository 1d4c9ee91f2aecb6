//! Concordance and strong concordance of a network: its influence tables, and the search that decides them.
#![tactic(auto)]

mod answer;
mod chosen;
mod concordance_answer;
mod influence;
mod kinds;
mod problem;
mod system;

pub use concordance_answer::{ConcordanceAnswers, decide_concordance};
pub use influence::{Influence, concordance_table, strong_table};
pub use kinds::asked_of_row;
pub use system::reaction_matrix;
