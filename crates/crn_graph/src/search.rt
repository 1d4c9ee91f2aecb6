ghost use Rattle.std.specs.Prelude.{◌≡◌, ◌≤◌, ◌<◌, ◌+◌, length, IfOk};
ghost use Rattle.crn_vec.specs.declared.limits.TheConstants.{MAX_REACTIONS};
ghost use Rattle.crn_graph.specs.Arcs.{arc_at};
ghost use Rattle.crn_graph.specs.Inner.Search.{AreLong, IsReady, IsBlank, IsSpreading, IsReach, GoesOn, KeepsLabels, first_found, label_at, zeros};

use crate::graph::Graph;
use crn_vec::NoMemory;
use std::alloc::Global;

// How far searches over a graph have come. Each has a label of its own for the complexes that it finds.
#[derive(Drop)]
pub(crate) struct Search {
    // the label of each complex, and 0 until it is found
    pub(crate) label: Vec<u32>,
    // the reaction by which it was found, counted from 1, and the number of steps to it
    pub(crate) up: Vec<u32>,
    pub(crate) depth: Vec<u32>,
    // the complexes of the newest search in the order in which they were found
    queue: Vec<usize>,
    pub(crate) found: usize,
    // this many of them had their arcs followed
    done: usize,
    newest: u32,
}

impl Search {
    // No search has begun.
    pub(crate) fn new(alloc: Global, complexes: usize) -> Result<Search, NoMemory>
        ensures { IfOk result (λ made. IsBlank complexes made) }
    {
        Ok(Search {
            label: vec![in alloc; 0u32; complexes]?,
            up: vec![in alloc; 0u32; complexes]?,
            depth: vec![in alloc; 0u32; complexes]?,
            queue: vec![in alloc; 0usize; complexes]?,
            found: 0,
            done: 0,
            newest: 0,
        })
    }

    // Finds the complex to which the arc at a place goes, unless it has been found.
    fn find(&mut self, graph: &Graph, place: usize)
        requires spreading { IsSpreading graph.now.arcs self.old }
        requires long { length self.old.label.items ≡ graph.now.complexes }
        requires small { graph.now.complexes ≤ MAX_REACTIONS }
        requires inside { place < length graph.now.arcs }
        requires from { label_at self.old (arc_at graph.now.arcs place).from ≡ self.old.newest }
        ensures spreading { IsSpreading graph.now.arcs self.new }
        ensures on { GoesOn self.old self.new }
        ensures done { self.new.done ≡ self.old.done }
        ensures found { 1 ≤ label_at self.new (arc_at graph.now.arcs place).to }
    {
        let arc = graph.arc(place);
        if self.label[arc.to] > 0 {
            return;
        }
        self.label[arc.to] = self.newest;
        self.up[arc.to] = arc.reaction;
        self.depth[arc.to] = self.depth[arc.from] + 1;
        self.queue[self.found] = arc.to;
        self.found += 1;
    }

    // Follows the arcs from the next complex that was found.
    fn follow(&mut self, graph: &Graph)
        requires spreading { IsSpreading graph.now.arcs self.old }
        requires long { length self.old.label.items ≡ graph.now.complexes }
        requires small { graph.now.complexes ≤ MAX_REACTIONS }
        requires waits { self.old.done < self.old.found }
        ensures spreading { IsSpreading graph.now.arcs self.new }
        ensures on { GoesOn self.old self.new }
        ensures done { self.new.done ≡ self.old.done + 1 }
    {
        let mut chain = graph.first(self.queue[self.done]);
        while chain > 0 {
            self.find(graph, chain - 1);
            chain = graph.next(chain - 1);
        }
        self.done += 1;
    }

    // Gives a new label to a complex that has none, and to all without a label to which arcs lead from it.
    pub(crate) fn spread(&mut self, graph: &Graph, start: usize, label: u32)
        requires ready { IsReady label self.old }
        requires long { length self.old.label.items ≡ graph.now.complexes }
        requires small { graph.now.complexes ≤ MAX_REACTIONS }
        requires inside { start < graph.now.complexes }
        requires free { label_at self.old start ≡ 0 }
        ensures spreading { IsSpreading graph.now.arcs self.new }
        ensures all { self.new.done ≡ self.new.found }
        ensures keeps { KeepsLabels label self.old self.new }
        ensures newest { self.new.newest ≡ label }
        ensures start { first_found self.new ≡ start }
        ensures count { self.new.found + zeros self.new.label.items ≡ zeros self.old.label.items }
    {
        self.label[start] = label;
        self.up[start] = 0;
        self.depth[start] = 0;
        self.queue[0] = start;
        self.found = 1;
        self.done = 0;
        self.newest = label;
        while self.done < self.found {
            self.follow(graph);
        }
    }

    // Takes the labels from all complexes.
    fn clear(&mut self)
        requires { AreLong self.old }
        ensures { IsBlank (length self.old.label.items) self.new }
    {
        for y in 0..self.label.len() {
            self.label[y] = 0;
        }
    }

    // Finds the complexes to which arcs lead from one, and no others.
    pub(crate) fn reach(&mut self, graph: &Graph, start: usize)
        requires lists { AreLong self.old }
        requires long { length self.old.label.items ≡ graph.now.complexes }
        requires small { graph.now.complexes ≤ MAX_REACTIONS }
        requires inside { start < graph.now.complexes }
        ensures reach { IsReach graph.now.arcs self.new start }
        ensures long { length self.new.label.items ≡ graph.now.complexes }
    {
        self.clear();
        self.spread(graph, start, 1);
    }
}
