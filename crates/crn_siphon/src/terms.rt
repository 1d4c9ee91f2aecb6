ghost use Rattle.std.specs.Prelude.{◌<◌, ◌≤◌, length};
ghost use Rattle.crn_vec.specs.declared.limits.TheConstants.{MAX_SPECIES};

use crate::row::Row;
use crn_net::Network;
use crn_vec::NoMemory;
use std::alloc::Global;

/// A species that a reaction changes, and by how much, or one that a law weighs.
#[derive(Clone, Copy)]
pub(crate) struct Term {
    pub species: usize,
    pub change: i64,
    ghost in_range: { species < MAX_SPECIES },
}

// A number that is small, and 0 for one that is not.
fn small(number: &i128) -> i64 {
    if *number >= -1_000 && *number <= 1_000 {
        *number as i64
    } else {
        0
    }
}

/// The species that a reaction changes.
pub(crate) fn terms_of(alloc: Global, net: &Network, r: usize) -> Result<Vec<Term>, NoMemory>
    requires { r < length net.now.reactions }
{
    let mut terms = Vec::new(alloc);
    let vector = net.reaction_vector(r);
    for species in 0..net.species() {
        let change = small(&vector[species]);
        if change != 0 {
            terms.push(Term { species, change })?;
        }
    }
    Ok(terms)
}

/// The species to which a law gives a weight.
pub(crate) fn terms_in(alloc: Global, law: &Row, count: usize) -> Result<Vec<Term>, NoMemory>
    requires { count ≤ MAX_SPECIES }
{
    let mut terms = Vec::new(alloc);
    for species in 0..count {
        let change = law[species];
        if change != 0 {
            terms.push(Term { species, change })?;
        }
    }
    Ok(terms)
}

/// The sum of the products of the numbers and the terms: what a reaction adds to the weight, or what changes add to that of a law.
pub(crate) fn product(numbers: &Row, terms: &[Term]) -> i64 {
    let mut sum = 0i64;
    for term in terms {
        sum = sum.wrapping_add(numbers[term.species].wrapping_mul(term.change));
    }
    sum
}

/// Takes the changes by a multiple of a reaction from a row.
pub(crate) fn take(row: &mut Row, terms: &[Term], factor: i64) {
    for term in terms {
        row[term.species] = row[term.species].wrapping_sub(term.change.wrapping_mul(factor));
    }
}
