ghost use Rattle.std.specs.Prelude.{◌≡◌, IfOk, IfErr, OnOk};
ghost use Rattle.crn_tab.specs.Tableau.{AreEntered, IsRefused};
ghost use Rattle.crn_rank.specs.Rank.{AreMembers, IsWideStop, ProvesRank, member_matrix};

use crate::base::base_members;
use crate::combs::combs;
use crate::duals::duals;
use crate::matrix::member_matrix;
use crn_cert::RankProof;
use crn_farkas::Stop;
use crn_net::Network;
use crn_tab::{Refused, Tableau, entered_rows_give_the_rank};
use crn_vec::NoMemory;
use std::alloc::Global;

// The name of the wide vector of an exchange that was refused.
fn refused_stop(tableau: &Tableau, refused: &Refused) -> Result<Stop, NoMemory>
    requires { IsRefused tableau.now.matrix tableau.now.basis refused.now.leave refused.now.enter
        refused.now.index }
    ensures { IfOk result (λ stop. IsWideStop tableau.now.matrix stop) }
{
    Ok(Stop::Wide {
        index: refused.index,
        basis: tableau.basis_after(refused.leave, refused.enter)?,
    })
}

// The proof of the rank that a basis shows after the rows have entered it.
fn proof_of(
    alloc: Global,
    _net: &Network,
    tableau: &Tableau,
    members: &[u32],
) -> Result<RankProof, Stop>
    requires members { AreMembers _net.now members.now }
    requires matrix { tableau.now.matrix ≡ member_matrix _net.now members.now }
    requires entered { AreEntered tableau.now.matrix tableau.now.basis tableau.now.matrix.cols }
    ensures proof { IfOk result (λ proof. ProvesRank _net.now members.now proof) }
    ensures stop { IfErr result (λ stop. IsWideStop tableau.now.matrix stop) }
{
    entered_rows_give_the_rank();
    tableau.names_rows();
    let mut work = vec![in alloc; 0i128; tableau.coordinates()]?;
    let base = base_members(alloc, tableau, members)?;
    let duals = duals(alloc, tableau, &mut work, members.len())?;
    let combs = combs(alloc, tableau, members.len())?;
    Ok(RankProof { base, duals, combs })
}

/// The rank of the vectors of some reactions, as a base of them with its proof.
///
/// The members count from 1 and ascend, and so does the base. `Stop::Wide` names a wide vector of the matrix
/// whose rows are the members' vectors and whose columns are the species. The duals and combinations
/// are those of the basis that the rows enter in order, each a list of numbers below 2^62.
pub fn rank(alloc: Global, net: &Network, members: &[u32]) -> Result<RankProof, Stop>
    requires { AreMembers net.now members.now }
    ensures proof { IfOk result (λ proof. ProvesRank net.now members.now proof) }
    ensures stop { IfErr result (λ stop. IsWideStop (member_matrix net.now members.now) stop) }
{
    let matrix = member_matrix(alloc, net, members)?;
    let mut tableau = Tableau::new(alloc, &matrix)?;
    rank_by(alloc, net, members, &mut tableau)
}

/// The rank as `rank` gives it, by a tableau of the members' matrix, whose rows enter the basis as far as they can.
pub fn rank_by(
    alloc: Global,
    net: &Network,
    members: &[u32],
    tableau: &mut Tableau,
) -> Result<RankProof, Stop>
    requires members { AreMembers net.now members.now }
    requires matrix { tableau.old.matrix ≡ member_matrix net.now members.now }
    ensures matrix { tableau.new.matrix ≡ tableau.old.matrix }
    ensures proof { IfOk result (λ proof. ProvesRank net.now members.now proof) }
    ensures stop { IfErr result (λ stop. IsWideStop (member_matrix net.now members.now) stop) }
    ensures entered { OnOk result
        (AreEntered tableau.new.matrix tableau.new.basis tableau.new.matrix.cols) }
{
    if let Err(refused) = tableau.enter_rows(tableau.cols()) {
        return Err(refused_stop(tableau, &refused)?);
    }
    proof_of(alloc, net, tableau, members)
}
