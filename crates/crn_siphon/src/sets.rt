ghost use Rattle.std.specs.Prelude.{◌≡◌, ◌≢◌, ◌↔◌, ◌<◌, ◌≤◌, ◌⊎◌, ℕ, IsTrue, length, pos, IfOk};
ghost use Rattle.crn_vec.specs.Network.{Holds};
ghost use Rattle.crn_vec.specs.Vectors.{entry};
ghost use Rattle.crn_vec.specs.declared.limits.TheConstants.{MAX_SPECIES};
ghost use Rattle.crn_siphon.specs.Inner.Sets.{Has, HasCommon, IsWithin, marks};

use crn_net::Network;
use crn_vec::{Ints, NoMemory};
use std::alloc::Global;

/// A set of species: a bit for each, counted from 0.
#[derive(Clone, Copy)]
pub(crate) struct SpeciesSet {
    pub bits: u64,
}

/// The set without species.
pub(crate) const NONE: SpeciesSet = SpeciesSet { bits: 0 };

impl SpeciesSet {
    /// Whether the set has a species.
    pub(crate) fn has(self, s: usize) -> bool
        requires { s < 64 }
        ensures { IsTrue result ↔ Has self s }
    {
        (self.bits >> s) & 1 == 1
    }

    /// The set with one species more.
    pub(crate) fn with(self, s: usize) -> SpeciesSet
        requires { s < 64 }
        ensures here { Has result s }
        ensures others { (j : ℕ) → j ≢ s → Has result j ↔ Has self j }
    {
        SpeciesSet {
            bits: self.bits | (1 << s),
        }
    }

    /// Whether some species is in both sets.
    pub(crate) fn meets(self, other: SpeciesSet) -> bool
        ensures { IsTrue result ↔ HasCommon self other }
    {
        let both = self.bits & other.bits;
        if both != 0 {
            return true;
        }
        false
    }

    /// Whether each species of the set is in the other one.
    pub(crate) fn is_within(self, other: SpeciesSet) -> bool
        ensures { IsTrue result ↔ IsWithin self other }
    {
        let either = self.bits | other.bits;
        if either == other.bits {
            return true;
        }
        false
    }
}

/// The species that a complex holds.
pub(crate) fn held(net: &Network, c: usize) -> SpeciesSet
    requires { c < length net.now.complexes }
    ensures { (s : ℕ) → Has result s ↔ Holds net.now c s }
{
    let amounts = net.vector(c);
    let mut set = NONE;
    for s in 0..net.species() {
        if amounts[s] >= 1 {
            set = set.with(s);
        }
    }
    set
}

/// The species that have a weight.
pub(crate) fn support(weights: &[i128]) -> SpeciesSet
    requires { length weights.now ≤ MAX_SPECIES }
    ensures { (s : ℕ) → Has result s ↔ (entry weights.now s ≢ pos 0) }
{
    let mut set = NONE;
    for s in 0..weights.len() {
        if weights[s] != 0 {
            set = set.with(s);
        }
    }
    set
}

/// The marks of the first species: 1 for a member of the set, and 0 for another.
pub(crate) fn marks(alloc: Global, set: SpeciesSet, count: usize) -> Result<Ints, NoMemory>
    requires { count ≤ MAX_SPECIES }
    ensures { IfOk result (λ made. made.list ≡ marks set count) }
{
    let mut marks = Ints::with_room(alloc, count)?;
    for s in 0..count {
        marks.push(if set.has(s) { 1 } else { 0 })?;
    }
    Ok(marks)
}
