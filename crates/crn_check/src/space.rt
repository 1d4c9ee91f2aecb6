ghost use Rattle.std.specs.Prelude.{◌≡◌, ◌↔◌, ◌≤◌, ◌<◌, ◌==◌, ◌*ℤ◌, ℕ, if◌then◌else◌, pos, IsTrue, length, unsigned_abs};
ghost use Rattle.crn_vec.specs.declared.limits.TheConstants.{WIDE_SOLUTION};
ghost use Rattle.crn_vec.specs.Vectors.{dot, entry};
ghost use Rattle.crn_vec.specs.Rank.{combination_at};
ghost use Rattle.crn_vec.specs.Sums.{label_marks};
ghost use Rattle.crn_cert.specs.Ranges.{AreFree, IsFrom};
ghost use Rattle.crn_cert.specs.ConfluenceTests.{IsInSpace};
ghost use Rattle.crn_check.specs.Inner.Spaces.{AreSumsZero, IsApart, IsBalanced};

use crate::combs::{Sums, add_multiple};
use crn_net::Network;
use crn_vec::{MAX_SPECIES, is_nought, skips_of};

// The amounts of the species in the combination of the complexes with these numbers, of which most are 0.
fn combination_of(net: &Network, numbers: &[i128]) -> Sums
    requires { AreFree (length net.now.complexes) numbers.now }
    ensures { (s : ℕ) → s < length net.now.names
        → entry result s ≡ combination_at numbers.now net.now.complexes s }
{
    // It is called for what it says of the network: no network is larger than its limits.
    let _species = net.species();
    let mut sums = [0; MAX_SPECIES];
    for c in 0..net.complexes() {
        if !is_nought(&numbers[c]) {
            let vector = net.vector(c);
            add_multiple(&mut sums, &numbers[c], vector, &skips_of(vector), c);
        }
    }
    sums
}

// The number if the label is that of the class, else 0.
fn class_term(label: u32, class: usize, x: &i128) -> i128
    requires { unsigned_abs x.now < WIDE_SOLUTION }
    ensures value { result ≡ (if label == class then pos 1 else pos 0) *ℤ x.now }
    ensures small { unsigned_abs result ≤ WIDE_SOLUTION }
{
    if label as usize == class { *x } else { 0 }
}

// The sum of numbers over the complexes of a class, which counts from 1.
pub(crate) fn class_sum(net: &Network, labels: &[u32], class: usize, numbers: &[i128]) -> i128
    requires labelled { length labels.now ≡ length net.now.complexes }
    requires numbers { AreFree (length net.now.complexes) numbers.now }
    ensures { result ≡ dot (label_marks labels.now class) numbers.now }
{
    let mut sum = 0;
    for c in 0..net.complexes() {
        sum += class_term(labels[c], class, &numbers[c]);
    }
    sum
}

// Whether the combination of the complexes with these numbers is zero.
fn is_balanced(net: &Network, numbers: &[i128]) -> bool
    requires { AreFree (length net.now.complexes) numbers.now }
    ensures { IsTrue result ↔ IsBalanced net.now numbers.now }
{
    let amounts = combination_of(net, numbers);
    for s in 0..net.species() {
        if !is_nought(&amounts[s]) {
            return false;
        }
    }
    true
}

// Whether numbers sum to zero over each of the first classes.
fn are_sums_zero(net: &Network, labels: &[u32], count: u32, numbers: &[i128]) -> bool
    requires labelled { length labels.now ≡ length net.now.complexes }
    requires numbers { AreFree (length net.now.complexes) numbers.now }
    ensures { IsTrue result ↔ AreSumsZero labels.now count numbers.now }
{
    for k in 0..count as usize {
        if class_sum(net, labels, k + 1, numbers) != 0 {
            return false;
        }
    }
    true
}

// Whether numbers are in the confluence space.
pub(crate) fn is_in_space(net: &Network, labels: &[u32], count: u32, numbers: &[i128]) -> bool
    requires labelled { length labels.now ≡ length net.now.complexes }
    requires numbers { AreFree (length net.now.complexes) numbers.now }
    ensures { IsTrue result ↔ IsInSpace net.now labels.now count numbers.now }
{
    is_balanced(net, numbers) && are_sums_zero(net, labels, count, numbers)
}

// Whether numbers are in the confluence space, not zero at one complex and zero at another, which count from 1.
pub(crate) fn is_apart(
    net: &Network,
    labels: &[u32],
    count: u32,
    own: u32,
    other: u32,
    numbers: &[i128],
) -> bool
    requires labelled { length labels.now ≡ length net.now.complexes }
    requires numbers { AreFree (length net.now.complexes) numbers.now }
    requires own { IsFrom 1 (length net.now.complexes) own }
    requires other { IsFrom 1 (length net.now.complexes) other }
    ensures { IsTrue result ↔ IsApart net.now labels.now count own other numbers.now }
{
    is_in_space(net, labels, count, numbers)
        && numbers[own as usize - 1] != 0
        && numbers[other as usize - 1] == 0
}
