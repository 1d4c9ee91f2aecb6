ghost use Rattle.std.specs.Prelude.{◌≡◌, ◌≢◌, ◌↔◌, ◌<◌, ◌^◌, ◌-ℤ◌, ℕ, pos, length, map, unsigned_abs, slice_index_or, IsTrue};
ghost use Rattle.crn_vec.specs.Concordance.{image, sign};
ghost use Rattle.crn_vec.specs.NetSystems.{reaction_system};
ghost use Rattle.crn_vec.specs.Signals.{IsShape, IsSignal, complex_at};
ghost use Rattle.crn_vec.specs.Vectors.{dot, entry};
ghost use Rattle.crn_cert.specs.Ranges.{AreFree, IsNarrow};
ghost use Rattle.crn_shape.specs.Shapes.{no_pair};
ghost use Rattle.crn_ctree.specs.Inner.Signals.{AreOnShelves, AreRightRises};

use crate::kinds::sign_at;
use crate::pair::change_sign;
use crn_net::Network;
use crn_shape::Shape;
use crn_vec::{MAX_COMPLEXES, Sign, dot, has_kind};

/// Writes the signs of numbers.
pub(crate) fn put_signs(numbers: &[i128], into: &mut [Sign])
    requires { length into.old ≡ length numbers.now }
    ensures { into.new ≡ map sign numbers.now }
{
    for k in 0..numbers.len() {
        into[k] = sign_at(&numbers[k]);
    }
}

// A small sum minus a number of a certificate.
fn minus(sum: &i128, number: &i128) -> i128
    requires sum { unsigned_abs sum.now < 2 ^ 126 }
    requires number { IsNarrow number.now }
    ensures { result ≡ sum.now -ℤ number.now }
{
    *sum - *number
}

// How far complex c is above the level.
fn height(shape: &Shape, mu: &[i128], level: &i128, c: usize) -> i128
    requires mu { AreFree shape.now.species mu.now }
    requires level { IsNarrow level.now }
    requires complex { c < length shape.now.complexes }
    ensures { result ≡ dot (complex_at shape.now c) mu.now -ℤ level.now }
{
    let _few = shape.species();
    minus(&dot(mu, shape.complex(c)), level)
}

// By how much the second complex of a linked pair is above the first.
fn rise(shape: &Shape, mu: &[i128], i: usize) -> i128
    requires mu { AreFree shape.now.species mu.now }
    requires pair { i < length shape.now.pairs }
    ensures { let pair = slice_index_or shape.now.pairs i no_pair in
        result ≡ dot (complex_at shape.now pair.high) mu.now
        -ℤ dot (complex_at shape.now pair.low) mu.now }
{
    let _few = shape.species();
    dot(mu, shape.difference(i))
}

// Whether each complex is above, on or below the level by its shelf.
fn are_on_shelves(shape: &Shape, shelves: &[Sign], mu: &[i128], level: &i128) -> bool
    requires mu { AreFree shape.now.species mu.now }
    requires level { IsNarrow level.now }
    ensures { IsTrue result ↔ AreOnShelves shape.now shelves.now mu.now level.now }
{
    for c in 0..shape.complexes() {
        if !has_kind(shape.complex_kind(shelves, c), &height(shape, mu, level, c)) {
            return false;
        }
    }
    true
}

// Whether over each linked pair the numbers of the species rise or fall as its shelf and its sum require.
fn are_right_rises(shape: &Shape, shelves: &[Sign], mu: &[i128]) -> bool
    requires { AreFree shape.now.species mu.now }
    ensures { IsTrue result ↔ AreRightRises shape.now shelves.now mu.now }
{
    for i in 0..shape.pairs() {
        if !has_kind(shape.pair_kind(shelves, i), &rise(shape, mu, i)) {
            return false;
        }
    }
    true
}

// Whether some number is not zero.
fn is_some(numbers: &[i128]) -> bool
    ensures { IsTrue result ↔ ((k : ℕ) × (entry numbers.now k ≢ pos 0)) }
{
    for k in 0..numbers.len() {
        if numbers[k] != 0 {
            return true;
        }
    }
    false
}

fn is_same(left: Sign, right: Sign) -> bool
    ensures { IsTrue result ↔ (left ≡ right) }
{
    left == right
}

// Whether the numbers of the species have the signs of the changes that the weights make.
fn are_alike(net: &Network, mu: &[i128], weights: &[i128]) -> bool
    requires mu { length mu.now ≡ length net.now.names }
    requires weights { AreFree (length net.now.reactions) weights.now }
    ensures { IsTrue result
        ↔ (map sign mu.now ≡ map sign (image (reaction_system net.now) weights.now)) }
{
    for s in 0..net.species() {
        if !is_same(sign_at(&mu[s]), change_sign(net, weights, s)) {
            return false;
        }
    }
    true
}

/// Whether a shelving of the terminal strong classes, numbers of the species, a level and weights of the reactions are
/// a signal over the shape of the network. A shelf is upper if its number is positive, middle if it is zero, and lower
/// if it is negative.
pub fn check_signal(
    net: &Network,
    shape: &Shape,
    shelves: &[i128],
    mu: &[i128],
    m: i128,
    weights: &[i128],
) -> bool
    requires shape { IsShape net.now shape.now }
    requires shelves { length shelves.now ≡ shape.now.count }
    requires mu { AreFree (length net.now.names) mu.now }
    requires m { IsNarrow m }
    requires weights { AreFree (length net.now.reactions) weights.now }
    ensures { IsTrue result
        ↔ IsSignal shape.now (reaction_system net.now) (map sign shelves.now) mu.now m weights.now }
{
    let mut room = [Sign::Zero; MAX_COMPLEXES];
    let (chosen, _) = room.split_at_mut(shape.classes());
    put_signs(shelves, chosen);
    if !are_on_shelves(shape, chosen, mu, &m) {
        return false;
    }
    if !are_right_rises(shape, chosen, mu) {
        return false;
    }
    if !is_some(mu) {
        return false;
    }
    are_alike(net, mu, weights)
}
