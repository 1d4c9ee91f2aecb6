ghost use Rattle.std.specs.Prelude.{◌≡◌, IfOk};
ghost use Rattle.crn_siphon.specs.Inner.Systems.{siphon_kinds};

use crate::sets::SpeciesSet;
use crn_net::Network;
use crn_vec::{Kind, NoMemory};
use std::alloc::Global;

/// The kinds by which the reactions increase each species of the set.
pub(crate) fn siphon_kinds(
    alloc: Global,
    net: &Network,
    set: SpeciesSet,
) -> Result<Vec<Kind>, NoMemory>
    ensures { IfOk result (λ made. made.items ≡ siphon_kinds net.now set) }
{
    let mut kinds = Vec::with_capacity(alloc, net.reactions() + net.species())?;
    kinds.resize(net.reactions(), Kind::Free)?;
    for s in 0..net.species() {
        kinds.push(if set.has(s) { Kind::Pos } else { Kind::Free })?;
    }
    Ok(kinds)
}
