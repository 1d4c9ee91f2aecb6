ghost use Rattle.std.specs.Prelude.{◌≡◌, length, IfOk};
ghost use Rattle.std.specs.List.{range_with_len};
ghost use Rattle.crn_vec.specs.NetSystems.{species_system};
ghost use Rattle.crn_indep_check.specs.Finest.{all_reactions};
ghost use Rattle.crn_indep_check.specs.Parts.{IsPartsAnswer};
ghost use Rattle.crn_rank.specs.Rank.{IsWideStop, ProvesRank};

use crate::ties::tie_arcs;
use crn_cert::RankProof;
use crn_farkas::Stop;
use crn_graph::forest;
use crn_indep_check::Parts;
use crn_net::Network;
use crn_rank::rank;
use crn_vec::NoMemory;
use std::alloc::Global;

// All reactions, counted from 1.
fn all_of(alloc: Global, net: &Network) -> Result<Vec<u32>, NoMemory>
    ensures { IfOk result (λ made. made.items ≡ all_reactions net.now) }
{
    let mut all = Vec::with_capacity(alloc, net.reactions())?;
    for r in 0..net.reactions() {
        all.push(r as u32 + 1)?;
    }
    Ok(all)
}

// The decomposition that the ties of a rank proof give.
fn split_by(alloc: Global, net: &Network, proof: RankProof) -> Result<Parts, NoMemory>
    requires { ProvesRank net.now (all_reactions net.now) proof }
    ensures { IfOk result (λ parts. IsPartsAnswer net.now parts) }
{
    net.meets_definition();
    let arcs = tie_arcs(alloc, net, &proof)?;
    let found = forest(alloc, net.reactions(), arcs)?;
    Ok(Parts::Split {
        rank: proof,
        label: found.label,
        up: found.up,
        depth: found.depth,
    })
}

// The answer that is open because the rank is.
fn open_by(net: &Network, stop: Stop) -> Result<Parts, NoMemory>
    requires { IsWideStop (species_system net.now) stop }
    ensures { IfOk result (λ parts. IsPartsAnswer net.now parts) }
{
    let _ = net;
    match stop {
        Stop::Wide { index, basis } => Ok(Parts::Wide { index, basis }),
        Stop::NoMemory => Err(NoMemory),
    }
}

/// The finest independent decomposition of the reactions of a network, with what shows it.
///
/// The rank proof is that of all reactions; the parts are the classes of reactions that its combinations tie. It is wide
/// only if a basis and an index name a wide vector of the matrix of the reaction vectors. Takes memory.
pub fn decompose(alloc: Global, net: &Network) -> Result<Parts, NoMemory>
    ensures { IfOk result (λ parts. IsPartsAnswer net.now parts) }
{
    let all = all_of(alloc, net)?;
    match rank(alloc, net, &all) {
        Ok(proof) => split_by(alloc, net, proof),
        Err(stop) => open_by(net, stop),
    }
}
