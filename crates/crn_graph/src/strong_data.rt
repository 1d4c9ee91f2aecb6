ghost use Rattle.std.specs.Prelude.{◌≡◌, ◌≤◌, ◌<◌, ◌-◌, ℕ, List, length, slice_index, IfOk};
ghost use Rattle.crn_vec.specs.declared.limits.TheConstants.{MAX_COMPLEXES};
ghost use Rattle.crn_vec.specs.Strong.{AreRightStrongLabels};
ghost use Rattle.crn_cert.specs.Ranges.{IsFrom, AreFrom};
ghost use Rattle.crn_cert.specs.Parts.{IsForest};
ghost use Rattle.crn_cert.specs.ClassTests.{AreNumbered, AreFromTrees, AreToTrees, DoLevelsFall, AreAllExits, of_class, zeros_in};
ghost use Rattle.crn_graph.specs.declared.arcs.Arc.{Arc};
ghost use Rattle.crn_graph.specs.Inner.Arcs.{AreArcsWithin};
ghost use Rattle.crn_graph.specs.Inner.Linkage.{IsReturning, AreClassesTo};

use crate::arcs::Way;
use crate::graph::Graph;
use crate::linkage_data::label_all;
use crate::ranks::ranks;
use crate::search::Search;
use crn_net::Network;
use crn_vec::{NoMemory, Nums};
use std::alloc::Global;

/// The strong linkage classes of a network: how many there are and how many of them are terminal, the label of each
/// complex in order, two trees in each class, and for each class an exit and a level.
///
/// Labels count from 1, in the order in which the classes appear among the complexes. In both trees of a class the root
/// is its first complex, with no reaction and depth 0. Any other complex is the product of its `from`, whose reactant is
/// in the class and has a `from_depth` less by one, and the reactant of its `to`, whose product is in the class and has
/// a `to_depth` less by one. The `exit` of a class is a reaction that leaves it, and 0 if none does. A reaction between
/// two classes goes to one of smaller `level`. Reactions are counted from 1.
#[derive(Drop)]
pub struct StrongData {
    pub count: u32,
    pub terminal: u32,
    pub label: Nums,
    pub exit: Nums,
    pub from: Nums,
    pub from_depth: Nums,
    pub to: Nums,
    pub to_depth: Nums,
    pub level: Nums,
}

// The searches of all classes, by arcs within them.
#[derive(Drop)]
struct Trees {
    // the number of classes
    count: u32,
    search: Search,
}

impl Trees {
    // Searches each class from its first complex.
    fn new(alloc: Global, net: &Network, way: Way, rank: &[u32]) -> Result<Trees, NoMemory>
        requires long { length rank.now ≡ length net.now.complexes }
        requires returning { (arcs : List Arc) →
            AreArcsWithin net.now way rank.now arcs → IsReturning arcs }
        ensures long { IfOk result (λ made.
            length made.search.label.items ≡ length net.now.complexes) }
        ensures classes { IfOk result (λ made. (arcs : List Arc) ×
            AreArcsWithin net.now way rank.now arcs
            × AreClassesTo arcs made.search made.count (length net.now.complexes)) }
    {
        let graph = Graph::within(alloc, net, way, rank)?;
        let mut search = Search::new(alloc, net.complexes())?;
        let count = label_all(&mut search, &graph, net.complexes());
        Ok(Trees { count, search })
    }
}

// Gives each class its level, which is less by one than its rank.
fn find_levels(label: &[u32], rank: &[u32], level: &mut Vec<u32>)
    requires labels { AreFrom (length rank.now) 1 (length level.old.items) label.now }
    requires ranks { (y : ℕ) → y < length rank.now → 1 ≤ slice_index rank.now y }
    requires even { (y z : ℕ) → y < length rank.now → z < length rank.now →
        slice_index label.now y ≡ slice_index label.now z →
        slice_index rank.now y ≡ slice_index rank.now z }
    ensures long { length level.new.items ≡ length level.old.items }
    ensures levels { (y : ℕ) → y < length rank.now →
        of_class label.now level.new.items y ≡ slice_index rank.now y - 1 }
{
    for y in 0..label.len() {
        level[label[y] as usize - 1] = rank[y] - 1;
    }
}

// Gives each class a reaction that leaves it, if there is one.
fn find_exits(net: &Network, label: &[u32], exit: &mut Vec<u32>)
    requires labels { AreFrom (length net.now.complexes) 1 (length exit.old.items) label.now }
    requires none { (k : ℕ) → slice_index exit.old.items k ≡ 0 }
    ensures long { length exit.new.items ≡ length exit.old.items }
    ensures exits { AreAllExits net.now label.now exit.new.items }
{
    for r in 0..net.reactions() {
        let class = label[net.reactant(r)];
        if class == label[net.product(r)] {
            continue;
        }
        exit[class as usize - 1] = r as u32 + 1;
    }
}

// How many exits are 0.
fn count_zeros(exit: &[u32]) -> u32
    requires { length exit.now ≤ MAX_COMPLEXES }
    ensures { result ≡ zeros_in exit.now }
{
    let mut count = 0;
    for e in exit {
        if *e == 0 {
            count += 1;
        }
    }
    count
}

/// The strong linkage classes of a network, in the sense of Feinberg (2019), found by one search that ranks them, and two
/// within them, along the reactions and against them.
pub fn strong(alloc: Global, net: &Network) -> Result<StrongData, NoMemory>
    ensures count { IfOk result (λ found. IsFrom 1 (length net.now.complexes) found.count) }
    ensures labels { IfOk result (λ found.
        AreFrom (length net.now.complexes) 1 found.count found.label.list) }
    ensures right { IfOk result (λ found. AreRightStrongLabels net.now.reactions found.label.list) }
    ensures numbered { IfOk result (λ found. AreNumbered found.label.list found.count) }
    ensures from_forest { IfOk result (λ found.
        IsForest net.now found.from.list found.from_depth.list) }
    ensures from_trees { IfOk result (λ found.
        AreFromTrees net.now found.label.list found.from.list found.from_depth.list) }
    ensures to_forest { IfOk result (λ found. IsForest net.now found.to.list found.to_depth.list) }
    ensures to_trees { IfOk result (λ found.
        AreToTrees net.now found.label.list found.to.list found.to_depth.list) }
    ensures levels { IfOk result (λ found.
        AreFrom found.count 0 (length net.now.complexes) found.level.list) }
    ensures falls { IfOk result (λ found.
        DoLevelsFall net.now found.label.list found.level.list) }
    ensures exit_numbers { IfOk result (λ found.
        AreFrom found.count 0 (length net.now.reactions) found.exit.list) }
    ensures exits { IfOk result (λ found. AreAllExits net.now found.label.list found.exit.list) }
    ensures terminal { IfOk result (λ found. zeros_in found.exit.list ≡ found.terminal) }
    ensures terminal_number { IfOk result (λ found. IsFrom 1 found.count found.terminal) }
{
    let graph = Graph::new(alloc, net, Way::Along)?;
    let rank = ranks(alloc, &graph, net.complexes())?;
    let outward = Trees::new(alloc, net, Way::Along, &rank)?;
    let inward = Trees::new(alloc, net, Way::Against, &rank)?;
    let count = outward.count;
    let mut level = vec![in alloc; 0u32; count as usize]?;
    find_levels(&outward.search.label, &rank, &mut level);
    let mut exit = vec![in alloc; 0u32; count as usize]?;
    find_exits(net, &outward.search.label, &mut exit);
    let terminal = count_zeros(&exit);
    Ok(StrongData {
        count,
        terminal,
        label: Nums::from_vec(outward.search.label),
        exit: Nums::from_vec(exit),
        from: Nums::from_vec(outward.search.up),
        from_depth: Nums::from_vec(outward.search.depth),
        to: Nums::from_vec(inward.search.up),
        to_depth: Nums::from_vec(inward.search.depth),
        level: Nums::from_vec(level),
    })
}
