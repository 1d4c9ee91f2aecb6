ghost use Rattle.std.specs.Prelude.{◌≡◌, ◌<◌, ◌≤◌, ◌+ℤ◌, ℕ, length, IfOk, OnOk};
ghost use Rattle.crn_vec.specs.declared.limits.TheConstants.{MAX_SPECIES};
ghost use Rattle.crn_vec.specs.Vectors.{entry};
ghost use Rattle.crn_siphon.specs.Inner.Changes.{AreChanges, change_at, part_at};

use crate::change::Change;
use crn_net::Network;
use crn_vec::{NoMemory, is_nought};
use std::alloc::Global;

/// The species that a reaction changes, ascending.
#[derive(Drop)]
pub(crate) struct Changes {
    pub list: Vec<Change>,
}

// Puts a change at the end, unless it is 0.
fn put_change(list: &mut Vec<Change>, species: usize, by: i128) -> Result<(), NoMemory>
    requires { species < MAX_SPECIES }
    ensures { OnOk result ((s : ℕ)
        → change_at list.new.items s ≡ change_at list.old.items s +ℤ part_at species by s) }
{
    if is_nought(&by) {
        return Ok(());
    }
    list.push(Change { species, by })?;
    Ok(())
}

// The places at which a vector is not 0.
fn changes_of(alloc: Global, vector: &[i128]) -> Result<Changes, NoMemory>
    requires { length vector.now ≤ MAX_SPECIES }
    ensures { IfOk result (λ made. (s : ℕ) → change_at made.list.items s ≡ entry vector.now s) }
{
    let mut list = Vec::new(alloc);
    for species in 0..vector.len() {
        put_change(&mut list, species, vector[species])?;
    }
    Ok(Changes { list })
}

/// For each reaction the species that it changes.
pub(crate) fn all_changes(alloc: Global, net: &Network) -> Result<Vec<Changes>, NoMemory>
    ensures { IfOk result (λ made. AreChanges net.now (length net.now.reactions) made.items) }
{
    net.meets_definition();
    let mut all = Vec::with_capacity(alloc, net.reactions())?;
    for r in 0..net.reactions() {
        all.push(changes_of(alloc, net.reaction_vector(r))?)?;
    }
    Ok(all)
}
