ghost use Rattle.std.specs.Prelude.{◌<◌, ℕ, IfOk, IfSome, IfNone};
ghost use Rattle.crn_graph.specs.Reverses.{GivesReverses};
ghost use Rattle.crn_graph.specs.Arcs.{HasArc};

use crate::arcs::Way;
use crate::graph::Graph;
use crn_net::Network;
use crn_vec::{NoMemory, Nums};
use std::alloc::Global;

/// Whether with each reaction its reverse is a reaction. Reactions are counted from 1.
#[derive(Drop)]
pub enum Reverses {
    /// The reverse of each reaction in order.
    All(Nums),
    /// A reaction whose reverse is not a reaction.
    Missing(u32),
}

// The reaction of an arc from one complex to another.
fn reaction_between(graph: &Graph, from: usize, to: usize) -> Option<u32>
    requires { from < graph.now.complexes }
    ensures some { IfSome result (λ r. HasArc graph.now.arcs r from to) }
    ensures none { IfNone result ((r : ℕ) → HasArc graph.now.arcs r from to → ⊥) }
{
    let mut chain = graph.first(from);
    while chain > 0 {
        let arc = graph.arc(chain - 1);
        if arc.to == to {
            return Some(arc.reaction);
        }
        chain = graph.next(chain - 1);
    }
    None
}

/// The reverses of all reactions, if the network is reversible, and else a reaction that has none.
///
/// For each reaction it looks through the reactions from its product.
pub fn back(alloc: Global, net: &Network) -> Result<Reverses, NoMemory>
    ensures { IfOk result (λ found. GivesReverses net.now found) }
{
    let graph = Graph::new(alloc, net, Way::Along)?;
    let mut reverses = Nums::with_room(alloc, net.reactions())?;
    for r in 0..net.reactions() {
        match reaction_between(&graph, net.product(r), net.reactant(r)) {
            Some(b) => reverses.push(b)?,
            None => return Ok(Reverses::Missing(r as u32 + 1)),
        }
    }
    Ok(Reverses::All(reverses))
}
