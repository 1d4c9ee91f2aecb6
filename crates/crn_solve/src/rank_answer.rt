ghost use Rattle.std.specs.Prelude.{◌≡◌, ◌≤◌, ℕ, length, IfOk};
ghost use Rattle.std.specs.List.{range_with_len};
ghost use Rattle.crn_vec.specs.declared.limits.TheConstants.{MAX_REACTIONS};
ghost use Rattle.crn_vec.specs.NetSystems.{species_system};
ghost use Rattle.crn_cert.specs.Questions.{Earlier, Q5};
ghost use Rattle.crn_cert.specs.Answered.{IsAnswer};
ghost use Rattle.crn_solve.specs.Inner.Given.{IsRankAnswer};

use crate::open::wide_answer;
use crn_cert::{Answer, Proof, RankProof, Verdict};
use crn_farkas::Stop;
use crn_net::Network;
use crn_rank::rank_by;
use crn_tab::Tableau;
use crn_vec::NoMemory;
use std::alloc::Global;

// All reactions, counted from 1.
fn all_reactions(alloc: Global, net: &Network) -> Result<Vec<u32>, NoMemory>
    ensures { IfOk result
        (λ made. made.items ≡ range_with_len 1 (length net.now.reactions)) }
{
    let mut all = Vec::with_capacity(alloc, net.reactions())?;
    for r in 0..net.reactions() {
        all.push(r as u32 + 1)?;
    }
    Ok(all)
}

// The answer of a proof: the rank is the number of its base, which the verdict holds as well.
fn base_answer(proof: RankProof) -> Result<Answer, NoMemory>
    requires { length proof.base.list ≤ MAX_REACTIONS }
    ensures { IfOk result (λ answer. IsRankAnswer proof answer) }
{
    let base = proof.base.copy()?;
    let rank = base.as_slice().len() as u32;
    Ok(Answer {
        verdict: Verdict::Rank { rank, base },
        proof: Proof::Rank(proof),
    })
}

/// Question 5: the rank of the reaction vectors, with a base and its proof, by a tableau of system 1.
pub(crate) fn rank_answer(
    alloc: Global,
    net: &Network,
    tableau: &mut Tableau,
) -> Result<Answer, NoMemory>
    requires { tableau.old.matrix ≡ species_system net.now }
    ensures matrix { tableau.new.matrix ≡ tableau.old.matrix }
    ensures answer { IfOk result (λ answer. (budget : ℕ) (earlier : Earlier) →
        IsAnswer net.now budget earlier Q5 answer) }
{
    net.meets_definition();
    let all = all_reactions(alloc, net)?;
    match rank_by(alloc, net, &all, tableau) {
        Ok(proof) => base_answer(proof),
        Err(Stop::Wide { index, basis }) => Ok(wide_answer(1, index, basis)),
        Err(Stop::NoMemory) => Err(NoMemory),
    }
}
