//! The tests of the crates below, which see their public items alone. A crate with tests of its own is proved twice.
#![tactic(auto)]

#[cfg(test)]
mod faults;
#[cfg(test)]
mod fractions;
#[cfg(test)]
mod lists;
#[cfg(test)]
mod matrices;
#[cfg(test)]
mod streams;
#[cfg(test)]
mod systems;
#[cfg(test)]
mod tableaus;
