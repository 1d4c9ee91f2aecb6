ghost use Rattle.std.specs.Prelude.{◌≡◌, ◌↔◌, ◌+◌, ◌-◌, ◌≤◌, ◌<◌, ◌||◌, ℕ, IsTrue, false, length, slice_index, slice_index_or};
ghost use Rattle.crn_cert.specs.ClassTests.{of_class};
ghost use Rattle.crn_cert.specs.Valid.{is_same_pair, is_least_of_pair};
ghost use Rattle.crn_shape.specs.Pairs.{is_within, is_pair};
ghost use Rattle.crn_shape.specs.Inner.Pairs.{HasSum};

use crn_net::Network;

// The number at this place of a list, or 0 after its end.
fn number_at(list: &[u32], place: usize) -> u32
    ensures { result ≡ slice_index list.now place }
{
    match list.get(place) {
        Some(number) => *number,
        None => 0,
    }
}

// The exit of the class of complex c.
fn exit_of(labels: &[u32], exits: &[u32], c: usize) -> u32
    ensures { result ≡ of_class labels.now exits.now c }
{
    let class = number_at(labels, c) as usize;
    number_at(exits, class.saturating_sub(1))
}

// Whether a reaction, counted from 0, joins two complexes of one terminal strong class.
fn is_within(net: &Network, labels: &[u32], exits: &[u32], r: usize) -> bool
    requires { r < length net.now.reactions }
    ensures { result
        ≡ is_within labels.now exits.now (slice_index_or net.now.reactions r (0, 0)) }
{
    let (y, z) = (net.reactant(r), net.product(r));
    number_at(labels, y) == number_at(labels, z) && exit_of(labels, exits, y) == 0
}

// Whether a reaction, counted from 0, joins complexes y and z. The sum of their numbers is that of few other pairs.
fn joins(net: &Network, q: usize, y: usize, z: usize, sum: usize) -> bool
    requires reaction { q < length net.now.reactions }
    requires sum { sum ≡ y + z }
    ensures { result ≡ is_same_pair (slice_index_or net.now.reactions q (0, 0)) (y, z) }
{
    let (a, b) = (net.reactant(q), net.product(q));
    let _ = net.complexes();
    if a + b != sum {
        return false;
    }
    (a == y && b == z) || (a == z && b == y)
}

// Whether the reaction just before this one, counted from 0, joins the same two complexes, as that of a line of both ways.
fn follows_its_pair(net: &Network, r: usize) -> bool
    requires { r < length net.now.reactions }
    ensures { IsTrue result → is_least_of_pair net.now (r + 1) ≡ false }
{
    if r == 0 {
        return false;
    }
    let (y, z) = (net.reactant(r), net.product(r));
    let _ = net.complexes();
    joins(net, r - 1, y, z, y + z)
}

// Whether one of both holds, by no jump.
fn either(left: bool, right: bool) -> bool
    ensures { result ≡ (left || right) }
{
    left | right
}

// Whether the numbers of the complexes that a reaction, counted from 0, joins have this sum.
fn has_sum(net: &Network, q: usize, sum: usize) -> bool
    requires { q < length net.now.reactions }
    ensures { IsTrue result ↔ HasSum net.now sum q }
{
    let _ = net.complexes();
    net.reactant(q) + net.product(q) == sum
}

// Whether those of some reaction before this one have this sum. It looks at all of them, for a loop that may end at each
// takes longer.
fn has_sum_before(net: &Network, r: usize, sum: usize) -> bool
    requires { r ≤ length net.now.reactions }
    ensures { result ≡ false → (q : ℕ) → q < r → HasSum net.now sum q → ⊥ }
{
    let mut met = false;
    for q in 0..r {
        met = either(met, has_sum(net, q, sum));
    }
    met
}

// Whether no reaction before this one, counted from 0, joins the same two complexes.
fn is_least_of_pair(net: &Network, r: usize) -> bool
    requires { r < length net.now.reactions }
    ensures { result ≡ is_least_of_pair net.now (r + 1) }
{
    if follows_its_pair(net, r) {
        return false;
    }
    let (y, z) = (net.reactant(r), net.product(r));
    let _ = net.complexes();
    let sum = y + z;
    if !has_sum_before(net, r, sum) {
        return true;
    }
    for q in 0..r {
        if joins(net, q, y, z, sum) {
            return false;
        }
    }
    true
}

/// Whether a reaction, counted from 0, is the least that joins some linked pair of complexes within a terminal strong
/// class. `labels` has the strong class of each complex, `exits` an exit of each class, 0 for a terminal one.
pub fn is_pair(net: &Network, labels: &[u32], exits: &[u32], r: usize) -> bool
    requires { r < length net.now.reactions }
    ensures { result ≡ is_pair net.now labels.now exits.now (r + 1) }
{
    is_within(net, labels, exits, r) && is_least_of_pair(net, r)
}
