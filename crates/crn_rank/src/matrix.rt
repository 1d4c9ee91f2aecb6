ghost use Rattle.std.specs.Prelude.{◌≡◌, IfOk};
ghost use Rattle.std.specs.List.{flat_map};
ghost use Rattle.crn_vec.specs.Vectors.{AreWithin};
ghost use Rattle.crn_cert.specs.RankTests.{vector_of};
ghost use Rattle.crn_rank.specs.Rank.{AreMembers, member_matrix};

use crn_net::Network;
use crn_vec::{MAX_AMOUNT, Matrix, NoMemory};
use std::alloc::Global;

// The vectors of the members, one after another.
fn entries(alloc: Global, net: &Network, members: &[u32]) -> Result<Vec<i128>, NoMemory>
    requires { AreMembers net.now members.now }
    ensures value { IfOk result
        (λ made. made.items ≡ flat_map (vector_of net.now) members.now) }
    ensures small { IfOk result (λ made. AreWithin MAX_AMOUNT made.items) }
{
    let mut entries = Vec::with_capacity(alloc, members.len() * net.species())?;
    for member in members {
        entries.extend_from_slice(net.reaction_vector(*member as usize - 1))?;
    }
    Ok(entries)
}

// The matrix whose rows are the vectors of the members.
pub(crate) fn member_matrix(
    alloc: Global,
    net: &Network,
    members: &[u32],
) -> Result<Matrix, NoMemory>
    requires { AreMembers net.now members.now }
    ensures { IfOk result (λ made. made ≡ member_matrix net.now members.now) }
{
    let entries = entries(alloc, net, members)?;
    Matrix::from_entries(alloc, members.len(), net.species(), entries)
}
