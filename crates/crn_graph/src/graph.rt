ghost use Rattle.std.specs.Prelude.{◌≡◌, ◌≤◌, ◌<◌, length, IfOk};
ghost use Rattle.crn_graph.specs.Arcs.{arc_at, AreInside};
ghost use Rattle.crn_graph.specs.Inner.Arcs.{AreArcsOf, AreArcsWithin};
ghost use Rattle.crn_graph.specs.Inner.Graph.{IsNext};

use crate::arcs::{Arc, Way, arcs_of};
use crn_net::Network;
use crn_vec::NoMemory;
use std::alloc::Global;
use std::marker::Model;

// The steps that a search may take. Those from one complex are a chain, the latest first.
#[derive(Drop)]
pub(crate) struct Graph {
    arcs: Vec<Arc>,
    // one more than the place of the latest arc from a complex, and 0 if there is none
    first: Vec<usize>,
    // the same of the arcs from an arc's complex that come before it
    next: Vec<usize>,
}

impl Model for Graph {
    ghost use Rattle.std.specs.Prelude.{length};
    ghost use Rattle.crn_graph.specs.Inner.Graph.{KeptGraph, IsChained};
    ghost use Rattle.crn_graph.specs.Arcs.{AreInside};

    ghost Value = { KeptGraph };

    ghost view = { λ g. record { complexes = length g.first.items; arcs = g.arcs.items } };

    ghost invariant = { λ g.
        let arcs = g.arcs.items in
        IsChained arcs (length arcs) g.first.items g.next.items
        × AreInside (length g.first.items) arcs };
}

impl Graph {
    // The graph of these arcs.
    pub(crate) fn of(alloc: Global, arcs: Vec<Arc>, complexes: usize) -> Result<Graph, NoMemory>
        requires { AreInside complexes arcs.items }
        ensures complexes { IfOk result (λ made. made.complexes ≡ complexes) }
        ensures arcs { IfOk result (λ made. made.arcs ≡ arcs.items) }
    {
        let mut first = vec![in alloc; 0usize; complexes]?;
        let mut next = vec![in alloc; 0usize; arcs.len()]?;
        for place in 0..arcs.len() {
            let from = arcs[place].from;
            next[place] = first[from];
            first[from] = place + 1;
        }
        Ok(Graph { arcs, first, next })
    }

    // The graph of the steps of a network.
    pub(crate) fn new(alloc: Global, net: &Network, way: Way) -> Result<Graph, NoMemory>
        ensures complexes { IfOk result (λ made. made.complexes ≡ length net.now.complexes) }
        ensures some { IfOk result (λ made. 1 ≤ made.complexes) }
        ensures inside { IfOk result (λ made. AreInside made.complexes made.arcs) }
        ensures arcs { IfOk result (λ made. AreArcsOf net.now way made.arcs) }
    {
        Graph::of(alloc, arcs_of(alloc, net, way)?, net.complexes())
    }

    // The graph of the steps of a network between complexes of equal rank.
    pub(crate) fn within(
        alloc: Global,
        net: &Network,
        way: Way,
        rank: &[u32],
    ) -> Result<Graph, NoMemory>
        requires { length rank.now ≡ length net.now.complexes }
        ensures complexes { IfOk result (λ made. made.complexes ≡ length net.now.complexes) }
        ensures arcs { IfOk result (λ made. AreArcsWithin net.now way rank.now made.arcs) }
    {
        let arcs = arcs_of(alloc, net, way)?;
        let mut within = Vec::with_capacity(alloc, arcs.len())?;
        for arc in &arcs {
            if rank[arc.from] == rank[arc.to] {
                within.push(*arc)?;
            }
        }
        Graph::of(alloc, within, net.complexes())
    }

    // The chain of the arcs from a complex: one more than the place of its first arc, and 0 if there is none.
    pub(crate) fn first(&self, y: usize) -> usize
        requires { y < self.now.complexes }
        ensures { IsNext self.now.arcs y (length self.now.arcs) result }
    {
        self.first[y]
    }

    // The rest of a chain after an arc of it.
    pub(crate) fn next(&self, place: usize) -> usize
        requires { place < length self.now.arcs }
        ensures { IsNext self.now.arcs (arc_at self.now.arcs place).from place result }
    {
        self.next[place]
    }

    // The arc at a place.
    pub(crate) fn arc(&self, place: usize) -> Arc
        requires { place < length self.now.arcs }
        ensures value { result ≡ arc_at self.now.arcs place }
        ensures from { result.from < self.now.complexes }
        ensures to { result.to < self.now.complexes }
    {
        self.arcs[place]
    }
}
