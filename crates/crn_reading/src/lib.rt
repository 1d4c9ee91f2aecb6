//! Reads a document line by line: its title, its network, its records, and its end.
#![tactic(auto)]

mod ending;
mod fault;
mod network;
mod opening;
mod reading;
mod record;
mod run;

pub use ending::no_more;
pub use fault::CheckStop;
pub use opening::{next_count, next_network, next_part_title, next_version, read_part_head};
pub use reading::{Reading, begin, next_line};
pub use record::{next_part_record, next_record};
pub use run::{free_run, rising_run, small_run};
