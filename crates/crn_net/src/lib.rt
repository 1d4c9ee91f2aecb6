//! Reaction networks, and the builder that collects their reactions.
#![tactic(auto)]

mod buckets;
mod builder;
mod fault;
mod guesses;
mod laws;
mod merge;
mod name;
mod network;
mod reactions;
mod row;
mod same;
mod side_sums;
mod tables;
mod term;

pub use builder::NetBuilder;
pub use fault::NetFault;
pub use laws::statements_fix_what_has_grown;
pub use network::Network;
pub use side_sums::sums_fit;
pub use term::Term;
