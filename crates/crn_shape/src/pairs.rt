ghost use Rattle.std.specs.Prelude.{◌≡◌, ◌<◌, ◌^◌, ℕ, Some, length, map, unsigned_abs, IfOk};
ghost use Rattle.std.specs.List.{AllByRecursion, AllZip};
ghost use Rattle.crn_vec.specs.Confluence.{IsRegular};
ghost use Rattle.crn_vec.specs.NetSignals.{AreTops, top_at};
ghost use Rattle.crn_cert.specs.Ranges.{IsNarrow};
ghost use Rattle.crn_shape.specs.Shapes.{IsPairIn};
ghost use Rattle.crn_shape.specs.Inner.Pairs.{IsFirstAcross, IsPairFor, IsSide, opposite_linked};

use crate::tops::Tops;
use crn_cert::Rows;
use crn_net::Network;
use crn_vec::{NoMemory, dot};
use std::alloc::Global;

/// A linked pair within a terminal strong class: its least reaction, the class, and the sum of the
/// confluence vector over the side of the reaction's product.
#[derive(Clone, Copy)]
pub struct LinkedPair {
    pub reaction: usize,
    pub top: usize,
    pub sum: i128,
}

// The first reaction that joins complexes of different marks.
fn first_across(net: &Network, marks: &[i128]) -> usize
    requires long { length marks.now ≡ length net.now.complexes }
    requires some { (r : ℕ) × IsFirstAcross net.now marks.now r }
    ensures { IsFirstAcross net.now marks.now result }
{
    for r in 0..net.reactions() {
        if marks[net.reactant(r)] != marks[net.product(r)] {
            return r;
        }
    }
    unreachable!()
}

// The terminal strong class of a complex, which is in one.
fn top_of(tops: &Tops, c: usize) -> usize
    requires inside { c < length tops.now.of.items }
    requires some { (k : ℕ) × (top_at tops.now.of.items c ≡ Some k) }
    ensures { top_at tops.now.of.items c ≡ Some result }
{
    match tops.of[c] {
        Some(top) => top,
        None => unreachable!(),
    }
}

// The pair whose side has these marks.
fn linked_pair(net: &Network, tops: &Tops, marks: &[i128], g: &[i128]) -> LinkedPair
    requires regular { IsRegular net.now }
    requires tops { AreTops net.now tops.now.of.items tops.now.count }
    requires side { IsSide net.now marks.now }
    requires long { length g.now ≡ length net.now.complexes }
    requires narrow { AllByRecursion IsNarrow g.now }
    ensures pair { IsPairFor net.now g.now tops.now.of.items marks.now result }
    ensures small { IsPairIn net.now result }
{
    let _ = net.species();
    let _ = net.complexes();
    let reaction = first_across(net, marks);
    LinkedPair {
        reaction,
        top: top_of(tops, net.reactant(reaction)),
        sum: dot(g, marks),
    }
}

/// The pairs whose sides have these marks, in their order.
pub(crate) fn linked_pairs(
    alloc: Global,
    net: &Network,
    tops: &Tops,
    sides: &Rows,
    g: &[i128],
) -> Result<Vec<LinkedPair>, NoMemory>
    requires regular { IsRegular net.now }
    requires tops { AreTops net.now tops.now.of.items tops.now.count }
    requires sides { AllByRecursion (IsSide net.now) sides.now }
    requires long { length g.now ≡ length net.now.complexes }
    requires narrow { AllByRecursion IsNarrow g.now }
    ensures pairs { IfOk result (λ made.
        AllZip (IsPairFor net.now g.now tops.now.of.items) sides.now made.items) }
    ensures small { IfOk result (λ made. AllByRecursion (IsPairIn net.now) made.items) }
{
    let mut pairs = Vec::with_capacity(alloc, sides.len())?;
    for i in 0..sides.len() {
        pairs.push(linked_pair(net, tops, sides.row(i), g))?;
    }
    Ok(pairs)
}

// The same pair with the opposite sum.
fn opposite_of(pair: &LinkedPair) -> LinkedPair
    requires { unsigned_abs pair.now.sum < 2 ^ 127 }
    ensures { result ≡ opposite_linked pair.now }
{
    LinkedPair {
        reaction: pair.reaction,
        top: pair.top,
        sum: -pair.sum,
    }
}

/// Gives each pair the opposite sum.
pub(crate) fn negate_sums(pairs: &mut [LinkedPair])
    requires { AllByRecursion (λ p. unsigned_abs p.sum < 2 ^ 127) pairs.old }
    ensures { pairs.new ≡ map opposite_linked pairs.old }
{
    for i in 0..pairs.len() {
        pairs[i] = opposite_of(&pairs[i]);
    }
}
