//! The reactions from each complex, one after another.

ghost use Rattle.std.specs.Prelude.{IfOk};
ghost use Rattle.crn_endo.specs.Inner.Chains.{AreChains};

use crn_net::Network;
use crn_vec::NoMemory;
use std::alloc::Global;

/// For each complex the first reaction from it, and for each reaction the next one from the same complex, or the number of
/// reactions if there is none.
#[derive(Drop)]
pub(crate) struct Chains {
    pub first: Vec<usize>,
    pub next: Vec<usize>,
}

/// The chains of a network.
pub(crate) fn chains_of(alloc: Global, net: &Network) -> Result<Chains, NoMemory>
    ensures { IfOk result (λ made. AreChains net.now 0 made.first.items made.next.items) }
{
    let reactions = net.reactions();
    let mut first = vec![in alloc; reactions; net.complexes()]?;
    let mut next = vec![in alloc; reactions; reactions]?;
    let mut q = reactions;
    while q > 0 {
        q -= 1;
        let c = net.reactant(q);
        next[q] = first[c];
        first[c] = q;
    }
    Ok(Chains { first, next })
}
