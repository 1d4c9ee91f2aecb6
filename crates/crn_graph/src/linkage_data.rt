ghost use Rattle.std.specs.Prelude.{◌≡◌, ◌≤◌, ◌<◌, ◌+◌, length, IfOk};
ghost use Rattle.crn_vec.specs.declared.limits.TheConstants.{MAX_REACTIONS};
ghost use Rattle.crn_vec.specs.Linkage.{AreRightLabels};
ghost use Rattle.crn_cert.specs.Ranges.{IsFrom, AreFrom};
ghost use Rattle.crn_cert.specs.Parts.{IsForest};
ghost use Rattle.crn_cert.specs.ClassTests.{AreNumbered, AreEven, AreLinkTrees};
ghost use Rattle.crn_graph.specs.Inner.Search.{IsBlank};
ghost use Rattle.crn_graph.specs.Inner.Linkage.{IsReturning, AreClassesTo};

use crate::arcs::Way;
use crate::graph::Graph;
use crate::search::Search;
use crn_net::Network;
use crn_vec::{NoMemory, Nums};
use std::alloc::Global;

/// The linkage classes of a network: how many there are, the label of each complex in order, and a tree in each class.
///
/// Labels count from 1, in the order in which the classes appear among the complexes. The root of a tree is the first
/// complex of its class, with `up` 0 and `depth` 0. For any other complex `up` is a reaction, counted from 1, that joins
/// it to a complex whose depth is less by one.
#[derive(Drop)]
pub struct LinkageData {
    pub count: u32,
    pub label: Nums,
    pub up: Nums,
    pub depth: Nums,
}

// Labels the class of complex c, unless it has a label. The answer is the new number of labels.
fn label_from(search: &mut Search, graph: &Graph, count: u32, c: usize) -> u32
    requires returning { IsReturning graph.now.arcs }
    requires classes { AreClassesTo graph.now.arcs search.old count c }
    requires long { length search.old.label.items ≡ graph.now.complexes }
    requires small { graph.now.complexes ≤ MAX_REACTIONS }
    requires inside { c < graph.now.complexes }
    ensures classes { AreClassesTo graph.now.arcs search.new result (c + 1) }
    ensures long { length search.new.label.items ≡ graph.now.complexes }
{
    if search.label[c] > 0 {
        return count;
    }
    search.spread(graph, c, count + 1);
    count + 1
}

// Labels all complexes, and counts the labels.
pub(crate) fn label_all(search: &mut Search, graph: &Graph, complexes: usize) -> u32
    requires returning { IsReturning graph.now.arcs }
    requires blank { IsBlank complexes search.old }
    requires long { complexes ≡ graph.now.complexes }
    requires small { graph.now.complexes ≤ MAX_REACTIONS }
    ensures classes { AreClassesTo graph.now.arcs search.new result complexes }
    ensures long { length search.new.label.items ≡ complexes }
{
    let mut count = 0;
    for c in 0..complexes {
        count = label_from(search, graph, count, c);
    }
    count
}

/// The linkage classes of a network, in the sense of Feinberg (2019), found by one search over its links.
pub fn linkage(alloc: Global, net: &Network) -> Result<LinkageData, NoMemory>
    ensures count { IfOk result (λ found. IsFrom 1 (length net.now.complexes) found.count) }
    ensures labels { IfOk result (λ found.
        AreFrom (length net.now.complexes) 1 found.count found.label.list) }
    ensures right { IfOk result (λ found. AreRightLabels net.now.reactions found.label.list) }
    ensures numbered { IfOk result (λ found. AreNumbered found.label.list found.count) }
    ensures even { IfOk result (λ found. AreEven net.now found.label.list) }
    ensures forest { IfOk result (λ found. IsForest net.now found.up.list found.depth.list) }
    ensures trees { IfOk result (λ found.
        AreLinkTrees net.now found.label.list found.up.list found.depth.list) }
{
    let graph = Graph::new(alloc, net, Way::Links)?;
    let mut search = Search::new(alloc, net.complexes())?;
    let count = label_all(&mut search, &graph, net.complexes());
    Ok(LinkageData {
        count,
        label: Nums::from_vec(search.label),
        up: Nums::from_vec(search.up),
        depth: Nums::from_vec(search.depth),
    })
}
