//! The sample networks, in which an enzyme works on a substrate step after step.
#![tactic(auto)]

mod laws;
mod limits;
mod samples;

pub use laws::sample_texts_spell_networks;
pub use limits::{MAX_SAMPLE, MAX_SAMPLE_DIGITS};
pub use samples::sample;
