//! The program without a process: one run over bytes in memory, exported for a host such as a web page.
//!
//! The host hands in memory of its own, which the export only borrows, and no pointer leaves the library.
#![tactic(auto)]

mod page;
mod words;

pub use page::crn_page_run;
