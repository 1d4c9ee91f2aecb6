ghost use Rattle.std.specs.Prelude.{◌≡◌, ◌<◌, ℕ, length, IfOk};
ghost use Rattle.crn_vec.specs.CutPairs.{IsBetween};
ghost use Rattle.crn_cert.specs.Ranges.{IsFrom};
ghost use Rattle.crn_cert.specs.Says.{IsReactionNumber};
ghost use Rattle.crn_graph.specs.Pair.{GivesCutPair};
ghost use Rattle.crn_graph.specs.Inner.Search.{label_at, first_found};
ghost use Rattle.crn_graph.specs.Inner.Pair.{IsSearched, IsWalkBack, marks_of};

use crate::arcs::Way;
use crate::graph::Graph;
use crate::search::Search;
use crn_net::Network;
use crn_vec::{Ints, NoMemory, Nums};
use std::alloc::Global;

/// Whether the two complexes of a reaction are a cut pair.
#[derive(Drop)]
pub enum CutPair {
    /// They are: 1 for each complex on the side of the product, 0 for each other.
    Side(Ints),
    /// They are not: the complexes, counted from 1, of a walk along links from the reactant to the product without a
    /// step between the two.
    Walk(Nums),
}

// The marks of the complexes that have a label.
fn side(alloc: Global, label: &[u32]) -> Result<Ints, NoMemory>
    ensures { IfOk result (λ marks. marks.list ≡ marks_of label.now) }
{
    let mut marks = Ints::with_room(alloc, label.len())?;
    for l in label {
        marks.push(if *l > 0 { 1 } else { 0 })?;
    }
    Ok(marks)
}

// The complex of a reaction that is not this one.
fn other_end(net: &Network, reaction: u32, c: usize) -> usize
    requires { IsFrom 1 (length net.now.reactions) reaction }
    ensures other { (a b d : ℕ) →
        IsReactionNumber net.now reaction a b → IsBetween a b d c → d ≡ result }
    ensures inside { result < length net.now.complexes }
{
    let r = reaction as usize - 1;
    if net.reactant(r) == c {
        net.product(r)
    } else {
        net.reactant(r)
    }
}

// The walk from a complex that was found back to where the search began.
fn walk(alloc: Global, net: &Network, search: &Search, from: usize) -> Result<Nums, NoMemory>
    requires searched { IsSearched net.now search.now }
    requires found { label_at search.now from ≡ search.now.newest }
    requires inside { from < length net.now.complexes }
    ensures back { IfOk result (λ steps.
        IsWalkBack net.now search.now from (first_found search.now) steps.list) }
{
    let mut steps = Nums::with_room(alloc, net.complexes())?;
    let mut c = from;
    steps.push(c as u32 + 1)?;
    'back: while search.up[c] > 0 {
        c = other_end(net, search.up[c], c);
        steps.push(c as u32 + 1)?;
    }
    Ok(steps)
}

/// Whether the two complexes of a reaction, counted from 1, are a cut pair, in the sense of Feinberg (1995): every walk
/// along links from one to the other has a step between the two.
///
/// It is found by one search over the links from the product.
pub fn cut_pair(alloc: Global, net: &Network, reaction: u32) -> Result<CutPair, NoMemory>
    requires { IsFrom 1 (length net.now.reactions) reaction }
    ensures { IfOk result (λ found. GivesCutPair net.now reaction found) }
{
    let r = reaction as usize - 1;
    let (y, z) = (net.reactant(r), net.product(r));
    let graph = Graph::new(alloc, net, Way::Round(y, z))?;
    let mut search = Search::new(alloc, net.complexes())?;
    search.spread(&graph, z, 1);
    if search.label[y] == 0 {
        return Ok(CutPair::Side(side(alloc, &search.label)?));
    }
    Ok(CutPair::Walk(walk(alloc, net, &search, y)?))
}
