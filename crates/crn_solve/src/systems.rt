ghost use Rattle.std.specs.Prelude.{◌≡◌, IfOk};
ghost use Rattle.std.specs.List.{flat_map};
ghost use Rattle.crn_vec.specs.declared.limits.TheConstants.{MAX_AMOUNT};
ghost use Rattle.crn_vec.specs.Network.{reaction_vector};
ghost use Rattle.crn_vec.specs.Vectors.{AreWithin};
ghost use Rattle.crn_vec.specs.NetSystems.{positive_kinds, species_system};

use crn_net::Network;
use crn_vec::{Kind, MAX_AMOUNT, Matrix, NoMemory};
use std::alloc::Global;

// The vectors of the reactions, one after another.
fn entries_by_reaction(alloc: Global, net: &Network) -> Result<Vec<i128>, NoMemory>
    ensures value { IfOk result
        (λ made. made.items ≡ flat_map (reaction_vector net.now) net.now.reactions) }
    ensures small { IfOk result (λ made. AreWithin MAX_AMOUNT made.items) }
{
    let mut entries = Vec::with_capacity(alloc, net.reactions() * net.species())?;
    for r in 0..net.reactions() {
        entries.extend_from_slice(net.reaction_vector(r))?;
    }
    Ok(entries)
}

/// The matrix of system 1: a column for each species, and a row for each reaction, its vector.
pub(crate) fn species_matrix(alloc: Global, net: &Network) -> Result<Matrix, NoMemory>
    ensures { IfOk result (λ made. made ≡ species_system net.now) }
{
    let entries = entries_by_reaction(alloc, net)?;
    Matrix::from_entries(alloc, net.reactions(), net.species(), entries)
}

/// The kinds by which each column has to be positive and each row zero.
pub(crate) fn positive_kinds(alloc: Global, matrix: &Matrix) -> Result<Vec<Kind>, NoMemory>
    ensures { IfOk result (λ made. made.items ≡ positive_kinds matrix.now) }
{
    let mut kinds = Vec::new(alloc);
    kinds.resize(matrix.cols(), Kind::Pos)?;
    kinds.resize(matrix.cols() + matrix.rows(), Kind::Zero)?;
    Ok(kinds)
}
