ghost use Rattle.std.specs.Prelude.{◌≡◌, IfOk, IfErr};
ghost use Rattle.crn_vec.specs.Deficiency.{IsLabelled};
ghost use Rattle.crn_rank.specs.Rank.{ProvesRank};
ghost use Rattle.crn_defi.specs.Inner.ClassRanks.{IsClass, IsClassRank, IsClassStop, reactions_of};

use crate::classes::{complexes_of, reactions_of};
use crn_cert::RankProof;
use crn_farkas::Stop;
use crn_net::Network;
use crn_rank::rank;
use crn_vec::{NoMemory, Nums};
use std::alloc::Global;

/// Why the rank of a linkage class is not found.
#[derive(Drop)]
pub(crate) enum ClassStop {
    /// A coordinate and a basis of the class's system name a wide vector.
    Wide { class: u32, index: u32, basis: Nums },
    NoMemory,
}

impl From<NoMemory> for ClassStop {
    ghost use Rattle.crn_defi.specs.declared.class_rank.ClassStop.{ClassStop};

    ghost from_gives = { λ _ e. e ≡ ClassStop.NoMemory };

    fn from(_: NoMemory) -> ClassStop {
        ClassStop::NoMemory
    }
}

/// The deficiency of a linkage class, and the proof of the rank of its reactions.
#[derive(Drop)]
pub(crate) struct ClassRank {
    pub(crate) deficiency: u32,
    pub(crate) proof: RankProof,
}

// The deficiency and the rank of a class, by a proof of the rank.
fn class_rank_by(_net: &Network, label: &[u32], class: u32, proof: RankProof) -> ClassRank
    requires labelled { IsLabelled _net.now label.now }
    requires class { IsClass label.now class }
    requires proves { ProvesRank _net.now (reactions_of _net.now label.now class) proof }
    ensures { IsClassRank _net.now label.now class result.deficiency result.proof }
{
    _net.meets_definition();
    let rank = proof.base.as_slice().len() as u32;
    ClassRank {
        deficiency: complexes_of(label, class) - 1 - rank,
        proof,
    }
}

/// The deficiency of a linkage class: the number of its complexes less 1 less the rank of its reactions.
pub(crate) fn class_rank(
    alloc: Global,
    net: &Network,
    label: &[u32],
    class: u32,
) -> Result<ClassRank, ClassStop>
    requires labelled { IsLabelled net.now label.now }
    requires class { IsClass label.now class }
    ensures found { IfOk result
        (λ found. IsClassRank net.now label.now class found.deficiency found.proof) }
    ensures stop { IfErr result (λ stop. IsClassStop net.now label.now class stop) }
{
    let members = reactions_of(alloc, net, label, class)?;
    match rank(alloc, net, &members) {
        Ok(proof) => Ok(class_rank_by(net, label, class, proof)),
        Err(Stop::Wide { index, basis }) => Err(ClassStop::Wide {
            class,
            index,
            basis,
        }),
        Err(Stop::NoMemory) => Err(ClassStop::NoMemory),
    }
}
