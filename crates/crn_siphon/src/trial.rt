ghost use Rattle.std.specs.Prelude.{◌≡◌, ◌≤◌, ◌<◌, ◌+ℤ◌, ◌*ℤ◌, ◌^◌, ℕ, ℤ, pos, ◌≤ℤ◌, IsTrue, IfSome, length, unsigned_abs};
ghost use Rattle.std.specs.List.{AllByRecursion};
ghost use Rattle.crn_vec.specs.Vectors.{dot, entry};
ghost use Rattle.crn_vec.specs.Rank.{combination_at};
ghost use Rattle.crn_vec.specs.Deficiency.{IsConservationLaw, vectors};
ghost use Rattle.crn_cert.specs.Ranges.{AreFree, IsNarrow};
ghost use Rattle.crn_vec.specs.declared.limits.TheConstants.{MAX_SPECIES};
ghost use Rattle.crn_siphon.specs.Inner.Changes.{AreChanges, change_at};
ghost use Rattle.crn_siphon.specs.Inner.Known.{AreIncreased, IsCoverIn, IsLawIn};

use crate::change::Change;
use crate::changes::Changes;
use crate::sets::{NONE, SpeciesSet, support};
use crn_net::Network;
use crn_vec::{MAX_SPECIES, WIDE_SOLUTION, dot_past, is_nought, skips_of};

// Whether each is a number of a certificate.
fn are_narrow(numbers: &[i128]) -> bool
    ensures { IsTrue result → AllByRecursion IsNarrow numbers.now }
{
    for number in numbers {
        if number.unsigned_abs() >= WIDE_SOLUTION {
            return false;
        }
    }
    true
}

// Whether these are as many numbers of a certificate.
fn are_free(numbers: &[i128], count: usize) -> bool
    ensures { IsTrue result → AreFree count numbers.now }
{
    numbers.len() == count && are_narrow(numbers)
}

// Whether each weight is at least 0.
fn are_weights(weights: &[i128]) -> bool
    ensures { IsTrue result → AllByRecursion (λ w. pos 0 ≤ℤ w) weights.now }
{
    for weight in weights {
        if *weight < 0 {
            return false;
        }
    }
    true
}

// Whether each weight is at least 1.
fn are_positive(weights: &[i128]) -> bool
    ensures { IsTrue result → AllByRecursion (λ w. pos 1 ≤ℤ w) weights.now }
{
    for weight in weights {
        if *weight < 1 {
            return false;
        }
    }
    true
}

// Whether each reaction conserves the total weight.
fn is_conserved(net: &Network, weights: &[i128]) -> bool
    requires { AreFree (length net.now.names) weights.now }
    ensures { IsTrue result → AllByRecursion (λ v. dot weights.now v ≡ pos 0) (vectors net.now) }
{
    net.meets_definition();
    let skips = skips_of(weights);
    for r in 0..net.reactions() {
        if dot_past(weights, net.reaction_vector(r), &skips) != 0 {
            return false;
        }
    }
    true
}

/// Whether the weights are those of a law within the set.
pub(crate) fn is_law_within(net: &Network, set: SpeciesSet, weights: &[i128]) -> bool
    ensures { IsTrue result → IsLawIn net.now set weights.now }
{
    net.meets_definition();
    if !are_free(weights, net.species()) || !are_weights(weights) {
        return false;
    }
    let support = support(weights);
    support.meets(set) && support.is_within(set) && is_conserved(net, weights)
}

/// Whether the weights are positive and those of a law.
pub(crate) fn is_positive_law(net: &Network, weights: &[i128]) -> bool
    ensures law { IsTrue result → IsConservationLaw net.now weights.now }
    ensures free { IsTrue result → AreFree (length net.now.names) weights.now }
{
    are_free(weights, net.species()) && are_positive(weights) && is_conserved(net, weights)
}

// Whether the absolute value is below 2^62.
fn is_small(number: &i128) -> bool
    ensures { IsTrue result → unsigned_abs number.now < 2 ^ 62 }
{
    number.unsigned_abs() < 1 << 62
}

// The product of two numbers, unless that is too great: of small ones without a test.
fn product_of(x: &i128, y: &i128) -> Option<i128>
    ensures { IfSome result (λ z. z ≡ x.now *ℤ y.now) }
{
    if is_small(x) && is_small(y) {
        return Some(*x * *y);
    }
    let product = x.checked_mul(*y)?;
    Some(product)
}

// A number with a multiple of another one, unless that is too great.
fn sum_with(x: &i128, number: &i128, y: &i128) -> Option<i128>
    ensures { IfSome result (λ z. z ≡ x.now +ℤ (number.now *ℤ y.now)) }
{
    let product = product_of(number, y)?;
    let sum = x.checked_add(product)?;
    Some(sum)
}

// Adds a multiple of a reaction's changes, unless a sum is too great.
fn add(changes: &mut [i128], number: &i128, reaction: &[Change]) -> Option<()>
    requires { MAX_SPECIES ≤ length changes.old }
    ensures count { length changes.new ≡ length changes.old }
    ensures values { IfSome result (λ _. (s : ℕ)
        → entry changes.new s ≡ entry changes.old s +ℤ (number.now *ℤ change_at reaction.now s)) }
{
    if is_nought(number) {
        return Some(());
    }
    for i in 0..reaction.len() {
        let s = reaction[i].species;
        changes[s] = sum_with(&changes[s], number, &reaction[i].by)?;
    }
    Some(())
}

// The species that increase, of which these are the changes by the reactions with these numbers.
fn increasing(net: &Network, numbers: &[i128], changes: &[i128]) -> SpeciesSet
    requires long { length net.now.names ≤ length changes.now }
    requires changes { (s : ℕ) → s < length net.now.names
        → entry changes.now s ≡ combination_at numbers.now (vectors net.now) s }
    ensures { AreIncreased net.now result numbers.now }
{
    let _ = numbers;
    let mut set = NONE;
    for s in 0..net.species() {
        if changes[s] >= 1 {
            set = set.with(s);
        }
    }
    set
}

// The species that the reactions with these numbers increase, unless a sum is too great.
fn increased_by(net: &Network, all: &[Changes], numbers: &[i128]) -> Option<SpeciesSet>
    requires changes { AreChanges net.now (length net.now.reactions) all.now }
    requires long { length numbers.now ≡ length net.now.reactions }
    ensures { IfSome result (λ set. AreIncreased net.now set numbers.now) }
{
    net.meets_definition();
    let mut changes = [0i128; MAX_SPECIES];
    for r in 0..net.reactions() {
        add(&mut changes, &numbers[r], &all[r].list)?;
    }
    Some(increasing(net, numbers, &changes))
}

/// The species that the reactions with these numbers increase, if each of the set is among them.
pub(crate) fn cover_of(
    net: &Network,
    all: &[Changes],
    set: SpeciesSet,
    numbers: &[i128],
) -> Option<SpeciesSet>
    requires { AreChanges net.now (length net.now.reactions) all.now }
    ensures more { IfSome result (λ species. IsCoverIn net.now species numbers.now) }
    ensures set { IfSome result (λ _. IsCoverIn net.now set numbers.now) }
{
    if !are_free(numbers, net.reactions()) {
        return None;
    }
    let species = increased_by(net, all, numbers)?;
    if set.is_within(species) {
        return Some(species);
    }
    None
}

/// The species that the reactions with these numbers increase, or those of the set, which are increased, if a sum is too great.
pub(crate) fn covered(
    net: &Network,
    all: &[Changes],
    set: SpeciesSet,
    numbers: &[i128],
) -> SpeciesSet
    requires changes { AreChanges net.now (length net.now.reactions) all.now }
    requires cover { IsCoverIn net.now set numbers.now }
    ensures { IsCoverIn net.now result numbers.now }
{
    match cover_of(net, all, set, numbers) {
        Some(species) => species,
        None => set,
    }
}
