//! Signals of a confluence vector: the sign problem of a network's shape, and the searches that decide it.
#![tactic(auto)]

mod answer;
mod choice;
mod kinds;
mod problem;
mod system;

pub use answer::signal;
