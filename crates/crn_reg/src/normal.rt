ghost use Rattle.std.specs.Prelude.{◌≡◌, ◌≤◌, ◌<◌, ◌==◌, if◌then◌else◌, pos, neg_ℤ, ◌*ℤ◌, unsigned_abs, length, map, IsTrue, false};
ghost use Rattle.crn_vec.specs.declared.limits.TheConstants.{MAX_COMPLEXES, WIDE_ENTRY};
ghost use Rattle.crn_vec.specs.Confluence.{IsNonzero, LeadsPositive};
ghost use Rattle.crn_tab.specs.Tableau.{AreSmall};
ghost use Rattle.crn_reg.specs.Inner.Normal.{class_sum, IsSameOrNegative, IsFirstSum, IsFirstEntry, GathersFirst};

use crate::space::first_place;
use crn_vec::Ints;

// The number if the label is that of the class, else 0.
fn class_term(label: u32, class: u32, x: &i128) -> i128
    requires { unsigned_abs x.now < WIDE_ENTRY }
    ensures value { result ≡ (if label == class then pos 1 else pos 0) *ℤ x.now }
    ensures small { unsigned_abs result ≤ WIDE_ENTRY }
{
    if label == class { *x } else { 0 }
}

// The sum of a vector over the complexes of a strong class.
fn class_sum(labels: &[u32], vector: &[i128], class: u32) -> i128
    requires long { length vector.now ≡ length labels.now }
    requires few { length labels.now ≤ MAX_COMPLEXES }
    requires small { AreSmall vector.now }
    ensures { result ≡ class_sum labels.now vector.now class }
{
    let mut sum = 0;
    for c in 0..labels.len() {
        sum += class_term(labels[c], class, &vector[c]);
    }
    sum
}

// The first sum over a terminal class that is not zero, or zero.
fn first_sum(labels: &[u32], exits: &[u32], vector: &[i128]) -> i128
    requires long { length vector.now ≡ length labels.now }
    requires few { length labels.now ≤ MAX_COMPLEXES }
    requires exits { length exits.now ≤ MAX_COMPLEXES }
    requires small { AreSmall vector.now }
    ensures { IsFirstSum labels.now exits.now vector.now result }
{
    for m in 0..exits.len() {
        if exits[m] == 0 {
            let sum = class_sum(labels, vector, m as u32 + 1);
            if sum != 0 {
                return sum;
            }
        }
    }
    0
}

// The first entry that is not zero.
fn first_entry(vector: &[i128]) -> i128
    requires { IsNonzero vector.now }
    ensures { IsFirstEntry vector.now result }
{
    let place = first_place(vector);
    if place < vector.len() {
        vector[place]
    } else {
        0
    }
}

// The list with each number's negative.
fn negate(vector: Ints) -> Ints
    requires { AreSmall vector.list }
    ensures { result.list ≡ map neg_ℤ vector.list }
{
    let mut items = vector.into_vec();
    for c in 0..items.len() {
        items[c] = -items[c];
    }
    Ints::from_vec(items)
}

// The first entry that is not zero if the network is weakly reversible, and else the first sum.
fn leading_number(vector: &[i128], labels: &[u32], exits: &[u32], weak: bool) -> i128
    requires long { length vector.now ≡ length labels.now }
    requires few { length labels.now ≤ MAX_COMPLEXES }
    requires exits { length exits.now ≤ MAX_COMPLEXES }
    requires small { AreSmall vector.now }
    requires some { IsNonzero vector.now }
    ensures entry { IsTrue weak → IsFirstEntry vector.now result }
    ensures sum { weak ≡ false → IsFirstSum labels.now exits.now vector.now result }
{
    if weak {
        first_entry(vector)
    } else {
        first_sum(labels, exits, vector)
    }
}

/// The vector, or its negative: of a weakly reversible network the one whose first entry that is not zero is positive,
/// and of any other the one whose first sum over a terminal class that is not zero is positive, if there is one.
pub(crate) fn normal_vector(vector: Ints, labels: &[u32], exits: &[u32], weak: bool) -> Ints
    requires long { length vector.list ≡ length labels.now }
    requires few { length labels.now ≤ MAX_COMPLEXES }
    requires exits { length exits.now ≤ MAX_COMPLEXES }
    requires small { AreSmall vector.list }
    requires some { IsNonzero vector.list }
    ensures is { IsSameOrNegative vector.list result.list }
    ensures leads { IsTrue weak → LeadsPositive result.list }
    ensures gathers { weak ≡ false → GathersFirst labels.now exits.now result.list }
{
    let first = leading_number(vector.as_slice(), labels, exits, weak);
    if first < 0 { negate(vector) } else { vector }
}
