ghost use Rattle.std.specs.Prelude.{◌≡◌, ◌≤◌, length};
ghost use Rattle.std.specs.List.{AllByRecursion};
ghost use Rattle.crn_vec.specs.declared.limits.TheConstants.{MAX_COMPLEXES, MAX_REACTIONS};
ghost use Rattle.crn_ctext.specs.Expect.{AreSizes};

use crn_ctext::Sizes;
use crn_net::Network;

// The sizes of a network with this many reactions in each linkage class, this many linked pairs within terminal classes, and
// a confluence vector or none. The forms of heads depend on no other sizes, which are 0 here.
pub(crate) fn head_sizes<'a>(
    net: &Network,
    class_reactions: &'a [u32],
    pairs: u32,
    vector: bool,
) -> Sizes<'a>
    requires few { length class_reactions.now ≤ MAX_COMPLEXES }
    requires each { AllByRecursion (λ r. r ≤ MAX_REACTIONS) class_reactions.now }
    requires pairs { pairs ≤ MAX_REACTIONS }
    ensures within { AreSizes result }
    ensures species { result.species ≡ length net.now.names }
    ensures complexes { result.complexes ≡ length net.now.complexes }
    ensures reactions { result.reactions ≡ length net.now.reactions }
    ensures pairs { result.pairs ≡ pairs }
    ensures classes { result.class_reactions.now ≡ class_reactions.now }
    ensures vector { result.vector ≡ vector }
{
    Sizes {
        species: net.species() as u32,
        complexes: net.complexes() as u32,
        reactions: net.reactions() as u32,
        terminal: 0,
        pairs,
        class_reactions,
        vector,
    }
}

// The sizes of a network alone, on which the forms of all other records depend.
pub(crate) fn net_sizes(net: &Network) -> Sizes<'static>
    ensures within { AreSizes result }
    ensures complexes { result.complexes ≡ length net.now.complexes }
{
    head_sizes(net, &[], 0, false)
}
