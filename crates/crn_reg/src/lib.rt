//! Whether a network is regular, and its confluence vector.
#![tactic(auto)]

mod columns;
mod confluence_vector;
mod laws;
mod matrix;
mod normal;
mod pairs;
mod regularity;
mod sides;
mod space;
mod ties;

pub use confluence_vector::confluence;
pub use laws::reversible_networks_are_weakly_reversible;
pub use regularity::regular;
