//! The search of a sign problem: a full feasible prefix, or a tree that shows that none is feasible.
#![tactic(auto)]

mod bits;
mod end;
mod fault;
mod finder;
mod fitting;
mod given_signs;
mod kept_signs;
mod kinds;
mod marks;
mod misfits;
mod part;
mod past;
mod place;
mod pool;
mod problem;
mod signs;
mod walk;
mod zeros;

pub use bits::{Bits, NONE, put_asked, put_weak};
pub use end::SearchEnd;
pub use fault::SearchStop;
pub use marks::word_count;
pub use problem::{Asked, FREE, SignProblem, asked_of_sign, coordinates};
pub use signs::Signs;
pub use walk::search;
