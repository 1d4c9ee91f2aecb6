ghost use Rattle.std.specs.Prelude.{◌≡◌, ◌<◌, ◌++◌, length, IfOk, OnOk};
ghost use Rattle.std.specs.List.{flat_map, range_with_len};
ghost use Rattle.crn_vec.specs.declared.limits.TheConstants.{MAX_AMOUNT};
ghost use Rattle.crn_vec.specs.Vectors.{AreWithin, column};
ghost use Rattle.crn_vec.specs.Deficiency.{vectors};
ghost use Rattle.crn_vec.specs.NetSystems.{reaction_system};

use crn_net::Network;
use crn_vec::{MAX_AMOUNT, Matrix, NoMemory};
use std::alloc::Global;

// Puts the entries of a species in the vectors of all reactions at the end.
fn put_species(entries: &mut Vec<i128>, net: &Network, s: usize) -> Result<(), NoMemory>
    requires species { s < length net.now.names }
    requires small { AreWithin MAX_AMOUNT entries.old.items }
    ensures value { OnOk result
        (entries.new.items ≡ entries.old.items ++ column (vectors net.now) s) }
    ensures small { OnOk result (AreWithin MAX_AMOUNT entries.new.items) }
{
    for r in 0..net.reactions() {
        entries.push(net.reaction_vector(r)[s])?;
    }
    Ok(())
}

// For each species its entries in the vectors of the reactions, one list after another.
fn entries_by_species(alloc: Global, net: &Network) -> Result<Vec<i128>, NoMemory>
    ensures value { IfOk result
        (λ made. made.items
        ≡ flat_map (column (vectors net.now)) (range_with_len 0 (length net.now.names))) }
    ensures small { IfOk result (λ made. AreWithin MAX_AMOUNT made.items) }
{
    let mut entries = Vec::with_capacity(alloc, net.species() * net.reactions())?;
    for s in 0..net.species() {
        put_species(&mut entries, net, s)?;
    }
    Ok(entries)
}

/// The matrix of system 2: a column for each reaction, its vector, and a row for each species.
pub fn reaction_matrix(alloc: Global, net: &Network) -> Result<Matrix, NoMemory>
    ensures { IfOk result (λ made. made ≡ reaction_system net.now) }
{
    let entries = entries_by_species(alloc, net)?;
    Matrix::from_entries(alloc, net.species(), net.reactions(), entries)
}
