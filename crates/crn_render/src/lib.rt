//! Reports and the lines of faults: the text that says the verdicts of a network, or why a text is refused.
#![tactic(auto)]

mod classes;
mod details;
mod laws;
mod parts;
mod printed;
mod report;
mod sigma;
mod summary;
mod words;

pub use laws::{
    text_codes_have_their_names, true_verdicts_have_one_line, what_is_written_is_short,
};
pub use printed::{Printed, write_fault};
pub use report::write_report;
pub use summary::write_summary;
