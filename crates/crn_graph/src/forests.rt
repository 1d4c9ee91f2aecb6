ghost use Rattle.std.specs.Prelude.{◌≤◌, IfOk};
ghost use Rattle.crn_vec.specs.declared.limits.TheConstants.{MAX_REACTIONS};
ghost use Rattle.crn_graph.specs.Arcs.{AreInside};
ghost use Rattle.crn_graph.specs.Forest.{AreJoined, DoLeadBack};

use crate::arcs::Arc;
use crate::graph::Graph;
use crate::linkage_data::{LinkageData, label_all};
use crate::search::Search;
use crn_vec::{NoMemory, Nums};
use std::alloc::Global;

/// The classes of nodes that arcs join: how many there are, the label of each node in order, and a tree in each class.
///
/// Labels count from 1, in the order in which the classes appear among the nodes. The root of a tree is the first node
/// of its class, with `up` 0 and `depth` 0. For any other node `up` is the name of an arc that leads to it from a node
/// whose depth is less by one.
pub fn forest(alloc: Global, nodes: usize, arcs: Vec<Arc>) -> Result<LinkageData, NoMemory>
    requires inside { AreInside nodes arcs.items }
    requires back { DoLeadBack arcs.items }
    requires few { nodes ≤ MAX_REACTIONS }
    ensures { IfOk result (λ found. AreJoined arcs.items nodes found.count found.label.list
        found.up.list found.depth.list) }
{
    let graph = Graph::of(alloc, arcs, nodes)?;
    let mut search = Search::new(alloc, nodes)?;
    let count = label_all(&mut search, &graph, nodes);
    Ok(LinkageData {
        count,
        label: Nums::from_vec(search.label),
        up: Nums::from_vec(search.up),
        depth: Nums::from_vec(search.depth),
    })
}
