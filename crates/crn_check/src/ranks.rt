ghost use Rattle.std.specs.Prelude.{◌<◌, ◌^◌, ◌⊎◌, length};
ghost use Rattle.std.specs.List.{range_with_len};
ghost use Rattle.crn_vec.specs.Network.{IsNetwork};
ghost use Rattle.crn_cert.specs.Formed.{IsFormedOf};
ghost use Rattle.crn_cert.specs.Parts.{IsRankProof};
ghost use Rattle.crn_cert.specs.Questions.{Earlier, Q5};
ghost use Rattle.crn_cert.specs.RankTests.{rank_tests};
ghost use Rattle.crn_cert.specs.Valid.{rank_rows};
ghost use Rattle.crn_check.specs.Check.{Judges};
ghost use Rattle.crn_check.specs.Inner.Bases.{AreLabelled, members_of};

use crate::combs::check_combs;
use crate::duals::check_duals;
use crate::fault::CheckFault;
use crate::members::Members;
use crate::skips::{no_skips, put_skips};
use crn_cert::{Proof, RankProof, Verdict};
use crn_net::Network;
use crn_vec::{MAX_SPECIES, Skips};

// The tests of the rank of the members; the base is record `part`. What was in `skips` is overwritten.
pub(crate) fn check_members(
    net: &Network,
    members: &Members,
    part: u32,
    proof: &RankProof,
    skips: &mut [Skips; MAX_SPECIES],
) -> Result<(), CheckFault>
    requires network { IsNetwork net.now }
    requires members { AreLabelled net.now members.now }
    requires part { part < 2 ^ 30 }
    requires proof { IsRankProof net.now (members_of net.now members.now)
        (length proof.now.base.list) proof.now }
    ensures { Judges (rank_tests net.now (members_of net.now members.now) part proof.now.base.list
        proof.now.duals proof.now.combs) result }
{
    let base = proof.base.as_slice();
    put_skips(net, base, skips);
    check_duals(net, base, skips, &proof.duals, part + 1)?;
    let first = part + 1 + base.len() as u32;
    check_combs(net, members, base, skips, &proof.combs, first)
}

/// The tests of a proof of the rank of all reactions, in order; its base is record `part`. It takes no memory.
pub fn check_rank_proof(net: &Network, part: u32, proof: &RankProof) -> Result<(), CheckFault>
    requires network { IsNetwork net.now }
    requires part { part < 2 ^ 30 }
    requires proof { IsRankProof net.now (range_with_len 1 (length net.now.reactions))
        (length proof.now.base.list) proof.now }
    ensures { Judges (rank_tests net.now (range_with_len 1 (length net.now.reactions)) part
        proof.now.base.list proof.now.duals proof.now.combs) result }
{
    check_members(net, &Members::All, part, proof, &mut no_skips())
}

// The tests of the records on the rank.
pub(crate) fn check_rank(net: &Network, verdict: &Verdict, proof: &Proof) -> Result<(), CheckFault>
    requires network { IsNetwork net.now }
    requires formed { (earlier : Earlier)
        × IsFormedOf net.now earlier Q5 verdict.now proof.now }
    ensures { Judges (rank_rows net.now verdict.now proof.now) result }
{
    match (verdict, proof) {
        (Verdict::Rank { .. }, Proof::Rank(proof)) => { check_rank_proof(net, 1, proof) }
        _ => Ok(()),
    }
}
