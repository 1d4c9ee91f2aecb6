ghost use Rattle.std.specs.Prelude.{◌≡◌, ◌↔◌, ◌≤◌, ◌<◌, IsTrue, length, drop};
ghost use Rattle.std.specs.List.{AllByRecursion};
ghost use Rattle.crn_vec.specs.Linkage.{IsLinked};
ghost use Rattle.crn_vec.specs.Walks.{IsAlong};
ghost use Rattle.crn_vec.specs.CutPairs.{IsBetween, IsFreeStep};
ghost use Rattle.crn_cert.specs.Ranges.{IsFrom};
ghost use Rattle.crn_cert.specs.Says.{from_zero};
ghost use Rattle.crn_cert.specs.ClassTests.{IsWayRound};
ghost use Rattle.crn_cert.specs.Data.{IsWalkOf};

use crn_net::Network;

// Whether a step from a to b is one between y and z, in either direction.
pub(crate) fn is_between(y: usize, z: usize, a: usize, b: usize) -> bool
    ensures { IsTrue result ↔ IsBetween y z a b }
{
    (a == y && b == z) || (a == z && b == y)
}

// Whether a reaction joins two complexes, in either direction.
fn are_linked(net: &Network, a: usize, b: usize) -> bool
    ensures { IsTrue result ↔ IsLinked net.now.reactions a b }
{
    for r in 0..net.reactions() {
        if is_between(net.reactant(r), net.product(r), a, b) {
            return true;
        }
    }
    false
}

// Whether a and b are linked, and are not y and z.
fn is_free_step(net: &Network, y: usize, z: usize, a: usize, b: usize) -> bool
    ensures { IsTrue result ↔ IsFreeStep net.now.reactions y z a b }
{
    are_linked(net, a, b) && !is_between(y, z, a, b)
}

// Whether the complexes after the first of a walk lead from y to z by links, none of them between these two.
fn leads_round(net: &Network, y: usize, z: usize, walk: &[u32]) -> bool
    requires some { 1 ≤ length walk.now }
    requires each { AllByRecursion (IsFrom 1 (length net.now.complexes)) walk.now }
    ensures { IsTrue result
        ↔ IsAlong (IsFreeStep net.now.reactions y z) y (from_zero (drop 1 walk.now)) z }
{
    let mut at = y;
    for k in 1..walk.len() {
        let next = walk[k] as usize - 1;
        if !is_free_step(net, y, z, at, next) {
            return false;
        }
        at = next;
    }
    at == z
}

// Whether a walk leads from the reactant of a reaction, counted from 1, to its product by links, none of them between
// these two.
pub(crate) fn is_way_round(net: &Network, reaction: u32, walk: &[u32]) -> bool
    requires number { IsFrom 1 (length net.now.reactions) reaction }
    requires walk { IsWalkOf (length net.now.complexes) walk.now }
    ensures { IsTrue result ↔ IsWayRound net.now reaction walk.now }
{
    let r = reaction as usize - 1;
    let (y, z) = (net.reactant(r), net.product(r));
    walk[0] as usize - 1 == y && leads_round(net, y, z, walk)
}
