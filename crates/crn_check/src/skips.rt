ghost use Rattle.crn_vec.specs.declared.limits.TheConstants.{MAX_SPECIES};
ghost use Rattle.crn_check.specs.Inner.Bases.{IsBase};
ghost use Rattle.crn_check.specs.Inner.Skips.{AreSkipsOf};

use crate::duals::vector_of;
use crn_net::Network;
use crn_vec::{MAX_SPECIES, Skips, skips_of};

/// Room for the skips of a base.
pub(crate) fn no_skips() -> [Skips; MAX_SPECIES] {
    [[0; MAX_SPECIES + 1]; MAX_SPECIES]
}

/// Writes the places at which the vectors of the first members of a base are not 0.
pub(crate) fn put_skips(net: &Network, base: &[u32], all: &mut [Skips; MAX_SPECIES])
    requires { IsBase net.now base.now }
    ensures { AreSkipsOf net.now base.now all.new }
{
    for j in 0..base.len().min(MAX_SPECIES) {
        all[j] = skips_of(vector_of(net, base[j]));
    }
}
