ghost use Rattle.std.specs.Prelude.{◌≡◌, ◌≢◌, ◌<◌, ◌+◌, ◌↔◌, ◌++◌, ◌∷◌, [], ℕ, Bool, List, IsTrue, length};
ghost use Rattle.crn_vec.specs.declared.limits.TheConstants.{MAX_SPECIES};
ghost use Rattle.crn_siphon_check.specs.Prefixes.{IsVoid};
ghost use Rattle.crn_siphon.specs.Inner.Places.{IsPlace};
ghost use Rattle.crn_siphon.specs.Inner.Sets.{Has};

use crate::sets::{NONE, SpeciesSet};
use crn_net::Network;

/// A prefix of sets of species: how many species are chosen, and which of them are in and out.
#[derive(Clone, Copy)]
pub(crate) struct Place {
    pub chosen: usize,
    pub inside: SpeciesSet,
    pub outside: SpeciesSet,
}

/// The empty prefix.
pub(crate) const ROOT: Place = Place {
    chosen: 0,
    inside: NONE,
    outside: NONE,
};

/// The prefix with one species more in or out.
pub(crate) fn child(place: Place, is_in: bool) -> Place
    requires { place.chosen < MAX_SPECIES }
    ensures count { result.chosen ≡ place.chosen + 1 }
    ensures inside { (s : ℕ) → s ≢ place.chosen → Has result.inside s ↔ Has place.inside s }
    ensures outside { (s : ℕ) → s ≢ place.chosen → Has result.outside s ↔ Has place.outside s }
    ensures place { (p : List Bool) → IsPlace place p → IsPlace result (p ++ is_in ∷ []) }
{
    let next = place.chosen;
    if is_in {
        Place {
            chosen: next + 1,
            inside: place.inside.with(next),
            outside: place.outside,
        }
    } else {
        Place {
            chosen: next + 1,
            inside: place.inside,
            outside: place.outside.with(next),
        }
    }
}

/// Whether all species are chosen, and none is in.
pub(crate) fn is_void(net: &Network, place: Place) -> bool
    ensures { (p : List Bool) → IsPlace place p → IsTrue result ↔ IsVoid net.now p }
{
    place.chosen == net.species() && place.inside.is_within(NONE)
}
