ghost use Rattle.std.specs.Prelude.{◌≡◌, ◌≤◌, ◌<◌, ◌+◌, ◌-◌, ◌↔◌, ℕ, length, slice_index, IfOk, IsTrue};
ghost use Rattle.crn_vec.specs.declared.limits.TheConstants.{MAX_COMPLEXES};
ghost use Rattle.crn_graph.specs.Arcs.{arc_at, AreInside};
ghost use Rattle.crn_graph.specs.Inner.Graph.{IsNext};
ghost use Rattle.crn_graph.specs.Inner.Ranks.{AreLongRanks, IsPath, IsRanking, HasEntered, HasCome, HasMerged, HasClosed, IsOpenEnd, KeepsPlaces, IsUnranked, AreRanks, weight, rank_at, place_at, path_at, start_at, open_at, rest_at};

use crate::graph::Graph;
use crn_vec::NoMemory;
use std::alloc::Global;

// A search that ranks strong classes: a reaction between two of them goes to the one of smaller rank.
//
// It keeps a path of complexes whose classes are not known yet. Each leads to all after it. The path is in parts, and the
// complexes of a part lead to one another. An arc back to an earlier part joins the parts from there on. When all arcs
// from the last part are followed, it is a class. See Gabow (2000), "Path-based depth-first search for strong and
// biconnected components".
#[derive(Drop)]
pub(crate) struct Ranking {
    // the rank of the class of each complex, and 0 until it is known
    pub(crate) rank: Vec<u32>,
    // one more than the place on the path that a complex has or had, and 0 until it is reached
    place: Vec<usize>,
    path: Vec<usize>,
    held: usize,
    // the places at which the parts of the path begin
    start: Vec<usize>,
    parts: usize,
    // the complexes of the path that may have arcs to be followed, in the order of the path
    waiting: Vec<usize>,
    left: usize,
    // the chain of the arcs from each complex that are to be followed
    rest: Vec<usize>,
    // the number of classes that are known
    count: u32,
}

// The chains of the arcs from all complexes.
fn chains(alloc: Global, graph: &Graph, complexes: usize) -> Result<Vec<usize>, NoMemory>
    requires { complexes ≡ graph.now.complexes }
    ensures long { IfOk result (λ made. length made.items ≡ complexes) }
    ensures chains { IfOk result (λ made. (y : ℕ) → y < complexes →
        IsNext graph.now.arcs y (length graph.now.arcs) (slice_index made.items y)) }
{
    let mut rest = vec![in alloc; 0usize; complexes]?;
    for y in 0..complexes {
        rest[y] = graph.first(y);
    }
    Ok(rest)
}

impl Ranking {
    // No complex is reached.
    fn new(alloc: Global, graph: &Graph, complexes: usize) -> Result<Ranking, NoMemory>
        requires { complexes ≡ graph.now.complexes }
        ensures { IfOk result (λ made. IsUnranked graph.now.arcs complexes made) }
    {
        Ok(Ranking {
            rank: vec![in alloc; 0u32; complexes]?,
            place: vec![in alloc; 0usize; complexes]?,
            path: vec![in alloc; 0usize; complexes]?,
            held: 0,
            start: vec![in alloc; 0usize; complexes]?,
            parts: 0,
            waiting: vec![in alloc; 0usize; complexes]?,
            left: 0,
            rest: chains(alloc, graph, complexes)?,
            count: 0,
        })
    }

    // Puts a complex that was not reached at the end of the path, as a part of its own.
    fn enter(&mut self, y: usize)
        requires inside { y < length self.old.place.items }
        requires path { self.old.held < length self.old.path.items }
        requires start { self.old.parts < length self.old.start.items }
        requires opened { self.old.left < length self.old.waiting.items }
        ensures { HasEntered self.old self.new y }
    {
        self.place[y] = self.held + 1;
        self.path[self.held] = y;
        self.start[self.parts] = self.held;
        self.waiting[self.left] = y;
        self.held += 1;
        self.parts += 1;
        self.left += 1;
    }

    // Joins the parts from that of a place, counted from 1, to the last.
    fn join(&mut self, place: usize)
        requires some { 1 ≤ self.old.parts }
        requires first { start_at self.old 0 < place }
        requires room { self.old.parts ≤ length self.old.start.items }
        ensures rest { self.new ≡ record self.old { parts = self.new.parts } }
        ensures merged { HasMerged place self.old self.new.parts }
        ensures last { start_at self.old (self.new.parts - 1) < place }
    {
        while self.start[self.parts - 1] >= place {
            self.parts -= 1;
        }
    }

    // Comes to the end of an arc from a complex in the last part.
    fn come(&mut self, graph: &Graph, y: usize, place: usize)
        requires ranking { IsRanking graph.now.arcs self.old }
        requires long { length self.old.rank.items ≡ graph.now.complexes }
        requires last { IsOpenEnd self.old }
        requires some { 1 ≤ self.old.parts }
        requires here { y ≡ open_at self.old (self.old.left - 1) }
        requires inside { place < length graph.now.arcs }
        requires from { (arc_at graph.now.arcs place).from ≡ y }
        ensures { HasCome graph.now.arcs self.old self.new y (arc_at graph.now.arcs place).to }
    {
        let z = graph.arc(place).to;
        if self.place[z] == 0 {
            self.enter(z);
            return;
        }
        if self.rank[z] > 0 {
            return;
        }
        let first = self.place[z];
        self.join(first);
    }

    // Follows the next arc of a complex in the last part.
    fn follow(&mut self, graph: &Graph, y: usize)
        requires ranking { IsRanking graph.now.arcs self.old }
        requires long { length self.old.rank.items ≡ graph.now.complexes }
        requires last { IsOpenEnd self.old }
        requires some { 1 ≤ self.old.parts }
        requires here { y ≡ open_at self.old (self.old.left - 1) }
        requires more { 1 ≤ rest_at self.old y }
        ensures ranking { IsRanking graph.now.arcs self.new }
        ensures keeps { KeepsPlaces self.old self.new }
        ensures less { weight self.new < weight self.old }
    {
        let place = self.rest[y] - 1;
        self.come(graph, y, place);
        self.rest[y] = graph.next(place);
    }

    // The last part is a class.
    fn close(&mut self)
        requires lists { AreLongRanks (length self.old.rank.items) self.old }
        requires path { IsPath self.old }
        requires some { 1 ≤ self.old.parts }
        requires room { self.old.parts ≤ length self.old.start.items }
        requires held { self.old.held ≤ length self.old.rank.items }
        requires inside { start_at self.old (self.old.parts - 1) ≤ self.old.held }
        requires few { self.old.count < MAX_COMPLEXES }
        ensures rest { self.new ≡ record self.old {
          parts = self.old.parts - 1;
          count = self.old.count + 1;
          held = start_at self.old (self.old.parts - 1);
          rank = self.new.rank;
        } }
        ensures closed { HasClosed self.old self.new
            (start_at self.old (self.old.parts - 1)) (self.old.count + 1) }
    {
        self.parts -= 1;
        self.count += 1;
        let first = self.start[self.parts];
        while self.held > first {
            self.held -= 1;
            let y = self.path[self.held];
            self.rank[y] = self.count;
        }
    }

    // Whether a complex of the last part may have arcs to be followed.
    fn is_open(&self) -> bool
        requires lists { AreLongRanks (length self.now.rank.items) self.now }
        requires some { 1 ≤ self.now.parts }
        requires parts { self.now.parts ≤ length self.now.rank.items }
        requires left { self.now.left ≤ length self.now.rank.items }
        requires inside { (i : ℕ) → i < self.now.left →
            open_at self.now i < length self.now.rank.items }
        ensures { IsTrue result ↔ IsOpenEnd self.now }
    {
        self.left > 0 && self.place[self.waiting[self.left - 1]] > self.start[self.parts - 1]
    }

    // Goes on with the last complex that may have arcs to be followed, which is in the last part.
    fn go_on(&mut self, graph: &Graph)
        requires ranking { IsRanking graph.now.arcs self.old }
        requires long { length self.old.rank.items ≡ graph.now.complexes }
        requires last { IsOpenEnd self.old }
        requires some { 1 ≤ self.old.parts }
        ensures ranking { IsRanking graph.now.arcs self.new }
        ensures keeps { KeepsPlaces self.old self.new }
        ensures less { weight self.new < weight self.old }
    {
        let y = self.waiting[self.left - 1];
        if self.rest[y] == 0 {
            self.left -= 1;
            return;
        }
        self.follow(graph, y);
    }

    // Goes on in the last part, or ends it.
    fn step(&mut self, graph: &Graph)
        requires ranking { IsRanking graph.now.arcs self.old }
        requires long { length self.old.rank.items ≡ graph.now.complexes }
        requires small { graph.now.complexes ≤ MAX_COMPLEXES }
        requires some { 1 ≤ self.old.parts }
        ensures ranking { IsRanking graph.now.arcs self.new }
        ensures keeps { KeepsPlaces self.old self.new }
        ensures less { weight self.new < weight self.old }
    {
        if self.is_open() {
            self.go_on(graph);
            return;
        }
        self.close();
    }

    // Ranks the classes of all complexes to which arcs lead from one that was not reached.
    fn explore(&mut self, graph: &Graph, c: usize)
        requires ranking { IsRanking graph.now.arcs self.old }
        requires long { length self.old.rank.items ≡ graph.now.complexes }
        requires small { graph.now.complexes ≤ MAX_COMPLEXES }
        requires inside { c < graph.now.complexes }
        requires free { place_at self.old c ≡ 0 }
        requires none { self.old.parts ≡ 0 }
        ensures ranking { IsRanking graph.now.arcs self.new }
        ensures keeps { KeepsPlaces self.old self.new }
        ensures reached { 1 ≤ place_at self.new c }
        ensures none { self.new.parts ≡ 0 }
    {
        self.enter(c);
        while self.parts > 0 {
            self.step(graph);
        }
    }

    // Ranks the classes of all complexes.
    fn explore_all(&mut self, graph: &Graph, complexes: usize)
        requires ranking { IsRanking graph.now.arcs self.old }
        requires long { length self.old.rank.items ≡ graph.now.complexes }
        requires count { complexes ≡ graph.now.complexes }
        requires small { graph.now.complexes ≤ MAX_COMPLEXES }
        requires none { self.old.parts ≡ 0 }
        requires inside { AreInside complexes graph.now.arcs }
        ensures ranks { AreRanks graph.now.arcs complexes self.new.rank.items }
    {
        for c in 0..complexes {
            if self.place[c] > 0 {
                continue;
            }
            self.explore(graph, c);
        }
    }
}

// The ranks of the strong classes of a graph, one for each complex.
pub(crate) fn ranks(alloc: Global, graph: &Graph, complexes: usize) -> Result<Vec<u32>, NoMemory>
    requires count { complexes ≡ graph.now.complexes }
    requires small { graph.now.complexes ≤ MAX_COMPLEXES }
    requires inside { AreInside complexes graph.now.arcs }
    ensures { IfOk result (λ made. AreRanks graph.now.arcs complexes made.items) }
{
    let mut ranking = Ranking::new(alloc, graph, complexes)?;
    ranking.explore_all(graph, complexes);
    Ok(ranking.rank)
}
