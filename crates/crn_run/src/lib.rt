//! The top call of the program: it reads words and a text, and writes a report, a document, or why a text is refused or rejected.
#![tactic(auto)]

mod laws;
mod network;
mod output;
mod parts;
mod runner;
mod status;
mod summary;
mod verdicts;
mod words;

pub use crn_sample::sample;
pub use crn_vec::{DEFAULT_BUDGET, MAX_BUDGET, MAX_BUDGET_DIGITS};
pub use laws::{
    quiet_devices_meet_no_fault, what_may_be_written_is_one_text, what_may_be_written_is_short,
    words_say_one_command,
};
pub use runner::run;
pub use status::Status;
pub use words::{Command, PartName, command_of};
