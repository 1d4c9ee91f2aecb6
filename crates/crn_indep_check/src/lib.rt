//! The finest independent decomposition of the reactions: what shows it, and the check of that.
#![tactic(auto)]

mod check;
mod laws;
mod links;
mod parts;
mod ranks;
mod ties;

pub use check::check_decomposition;
pub use laws::{shown_decompositions_are_finest, valid_answers_on_decompositions_are_true};
pub use parts::Parts;
pub use ranks::ranks_of_parts;
pub use ties::{draws_at, next_row};
