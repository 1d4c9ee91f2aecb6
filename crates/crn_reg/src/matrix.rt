ghost use Rattle.std.specs.Prelude.{◌≡◌, ◌≤◌, ◌<◌, ◌==◌, ◌++◌, if◌then◌else◌, pos, unsigned_abs, length, IfOk, OnOk};
ghost use Rattle.std.specs.List.{flat_map, range_with_len};
ghost use Rattle.crn_vec.specs.declared.limits.TheConstants.{MAX_AMOUNT};
ghost use Rattle.crn_vec.specs.Vectors.{AreWithin, column};
ghost use Rattle.crn_vec.specs.Sums.{label_marks};
ghost use Rattle.crn_vec.specs.NetSystems.{confluence_system};

use crn_net::Network;
use crn_vec::{MAX_AMOUNT, Matrix, NoMemory};
use std::alloc::Global;

// Puts the amounts of a species in all complexes at the end.
fn put_species(entries: &mut Vec<i128>, net: &Network, s: usize) -> Result<(), NoMemory>
    requires species { s < length net.now.names }
    requires small { AreWithin MAX_AMOUNT entries.old.items }
    ensures value { OnOk result
        (entries.new.items ≡ entries.old.items ++ column net.now.complexes s) }
    ensures small { OnOk result (AreWithin MAX_AMOUNT entries.new.items) }
{
    for c in 0..net.complexes() {
        entries.push(net.vector(c)[s])?;
    }
    Ok(())
}

// 1 for a complex of the class, 0 for another.
fn mark(label: u32, class: u32) -> i128
    ensures value { result ≡ (if label == class then pos 1 else pos 0) }
    ensures small { unsigned_abs result ≤ MAX_AMOUNT }
{
    if label == class { 1 } else { 0 }
}

// Puts the marks of a linkage class at the end.
fn put_marks(entries: &mut Vec<i128>, labels: &[u32], class: u32) -> Result<(), NoMemory>
    requires small { AreWithin MAX_AMOUNT entries.old.items }
    ensures value { OnOk result
        (entries.new.items ≡ entries.old.items ++ label_marks labels.now class) }
    ensures small { OnOk result (AreWithin MAX_AMOUNT entries.new.items) }
{
    for c in 0..labels.len() {
        entries.push(mark(labels[c], class))?;
    }
    Ok(())
}

// Puts the amounts of all species at the end, one species after another.
fn put_amounts(entries: &mut Vec<i128>, net: &Network) -> Result<(), NoMemory>
    requires small { AreWithin MAX_AMOUNT entries.old.items }
    ensures value { OnOk result (entries.new.items ≡ entries.old.items
        ++ flat_map (column net.now.complexes) (range_with_len 0 (length net.now.names))) }
    ensures small { OnOk result (AreWithin MAX_AMOUNT entries.new.items) }
{
    for s in 0..net.species() {
        put_species(entries, net, s)?;
    }
    Ok(())
}

// Puts the marks of all linkage classes at the end, one class after another.
fn put_classes(entries: &mut Vec<i128>, labels: &[u32], count: u32) -> Result<(), NoMemory>
    requires small { AreWithin MAX_AMOUNT entries.old.items }
    ensures value { OnOk result (entries.new.items ≡ entries.old.items
        ++ flat_map (label_marks labels.now) (range_with_len 1 count)) }
    ensures small { OnOk result (AreWithin MAX_AMOUNT entries.new.items) }
{
    for k in 0..count {
        put_marks(entries, labels, k + 1)?;
    }
    Ok(())
}

/// The matrix of system 4: a column for each complex, a row of amounts for each species, and one of marks for each
/// linkage class.
pub(crate) fn confluence_matrix(
    alloc: Global,
    net: &Network,
    labels: &[u32],
    count: u32,
) -> Result<Matrix, NoMemory>
    requires labels { length labels.now ≡ length net.now.complexes }
    requires count { count ≤ length net.now.complexes }
    ensures { IfOk result (λ made. made ≡ confluence_system net.now labels.now count) }
{
    let rows = net.species() + count as usize;
    let mut entries = Vec::with_capacity(alloc, rows * net.complexes())?;
    put_amounts(&mut entries, net)?;
    put_classes(&mut entries, labels, count)?;
    Matrix::from_entries(alloc, rows, net.complexes(), entries)
}
