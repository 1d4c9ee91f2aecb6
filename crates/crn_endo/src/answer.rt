ghost use Rattle.std.specs.Prelude.{◌≡◌, ◌≤◌, ◌<◌, length, map, neg_ℤ, IfOk};
ghost use Rattle.std.specs.List.{AllByRecursion};
ghost use Rattle.crn_vec.specs.declared.limits.TheConstants.{MAX_BUDGET};
ghost use Rattle.crn_cert.specs.Ranges.{IsNarrow};
ghost use Rattle.crn_cert.specs.Trees.{node_count};
ghost use Rattle.crn_endo_check.specs.Slopes.{IsSmallEnough, reactants};
ghost use Rattle.crn_endo_check.specs.SlopeLaws.{slope_by};
ghost use Rattle.crn_endo.specs.Answer.{IsEndoAnswer};
ghost use Rattle.crn_endo.specs.Inner.Decided.{IsDecidedAt};

use crate::problem::search_slopes;
use crn_cert::Tree;
use crn_endo_check::{Endo, EndoTrees, Slopes, is_small_enough, reactants};
use crn_net::Network;
use crn_sign::{SearchEnd, SearchStop};
use crn_vec::{Ints, NoMemory, Sign};
use std::alloc::Global;

/// What the search for a slope against one reaction gives.
#[derive(Drop)]
pub(crate) enum Decided {
    /// A tree which shows that there is none.
    Refuted(Tree),
    /// The answer.
    Ended(Endo),
}

// The negatives of these numbers.
fn negatives(alloc: Global, values: &[i128]) -> Result<Ints, NoMemory>
    requires { AllByRecursion IsNarrow values.now }
    ensures { IfOk result (λ made. made.list ≡ map neg_ℤ values.now) }
{
    let mut made = Ints::with_room(alloc, values.len())?;
    for k in 0..values.len() {
        made.push(-values[k])?;
    }
    Ok(made)
}

// The slope of a solution of part A: its negative if the first option is plus.
fn slope_by(alloc: Global, pattern: &[Sign], x: &[i128]) -> Result<Ints, NoMemory>
    requires { AllByRecursion IsNarrow x.now }
    ensures { IfOk result (λ made. made.list ≡ slope_by pattern.now x.now) }
{
    match pattern {
        [] => Ints::from_slice(alloc, x),
        [first, ..] => match first {
            Sign::Plus => negatives(alloc, x),
            _ => Ints::from_slice(alloc, x),
        },
    }
}

// What a reaction gives, counted from 0, with at most `left` visits.
fn decide_at(
    alloc: Global,
    net: &Network,
    given: &[usize],
    r: usize,
    left: u32,
    budget: u32,
) -> Result<Decided, NoMemory>
    requires given { given.now ≡ reactants net.now }
    requires small { IsSmallEnough net.now }
    requires inside { r < length net.now.reactions }
    requires left { left ≤ MAX_BUDGET }
    ensures { IfOk result (λ d. IsDecidedAt net.now r left budget d) }
{
    net.meets_definition();
    let reaction = r as u32 + 1;
    if left == 0 {
        return Ok(Decided::Ended(Endo::Spent {
            reaction,
            nodes: budget,
        }));
    }
    let slopes = Slopes::new(alloc, net, given, r)?;
    match search_slopes(alloc, net, given, r, &slopes, left) {
        Ok(SearchEnd::Found { pattern, a, .. }) => {
            let slope = slope_by(alloc, pattern.as_slice(), a.as_slice())?;
            Ok(Decided::Ended(Endo::No { reaction, slope }))
        }
        Ok(SearchEnd::Refuted(tree)) => Ok(Decided::Refuted(tree)),
        Ok(SearchEnd::Infeasible) => unreachable!(),
        Ok(SearchEnd::Spent) => Ok(Decided::Ended(Endo::Spent {
            reaction,
            nodes: budget,
        })),
        Err(SearchStop::WideA { index, basis }) => Ok(Decided::Ended(Endo::Wide {
            reaction,
            index,
            basis,
        })),
        Err(SearchStop::WideB { .. }) => unreachable!(),
        Err(SearchStop::NoMemory) => Err(NoMemory),
    }
}

// The number of nodes of a tree.
fn nodes_of(tree: &Tree) -> u32
    requires { node_count tree.now ≤ MAX_BUDGET }
    ensures { result ≡ node_count tree.now }
{
    tree.nodes().len() as u32
}

/// Whether a network is endotactic.
///
/// Reactions are tried in order. The budget bounds the visits of all of them together: each search has what the
/// earlier ones left, and the first that does not refute its reaction decides.
pub fn endotactic(alloc: Global, net: &Network, budget: u32) -> Result<Endo, NoMemory>
    requires low { 1 ≤ budget }
    requires high { budget ≤ MAX_BUDGET }
    ensures { IfOk result (λ answer. IsEndoAnswer net.now budget answer) }
{
    net.meets_definition();
    let given = reactants(alloc, net)?;
    if !is_small_enough(net, &given) {
        return Ok(Endo::Large);
    }
    let mut trees = EndoTrees::new(alloc)?;
    let mut left = budget;
    for r in 0..net.reactions() {
        match decide_at(alloc, net, &given, r, left, budget)? {
            Decided::Refuted(tree) => {
                left -= nodes_of(&tree);
                trees.push(tree)?;
            }
            Decided::Ended(answer) => return Ok(answer),
        }
    }
    Ok(Endo::Yes(trees))
}
