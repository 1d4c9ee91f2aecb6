ghost use Rattle.std.specs.Prelude.{◌≡◌, ◌≤◌, ◌<◌, ◌↔◌, IsTrue, length, map, true, IfOk};
ghost use Rattle.std.specs.List.{AllByRecursion};
ghost use Rattle.crn_vec.specs.declared.limits.TheConstants.{MAX_BUDGET};
ghost use Rattle.crn_vec.specs.Confluence.{HasConfluenceLine, IsNormalVector, IsRegular, negative};
ghost use Rattle.crn_vec.specs.NetSignals.{HasNoSignal, IsShapeOf};
ghost use Rattle.crn_vec.specs.Strong.{IsWeaklyReversible};
ghost use Rattle.crn_cert.specs.Ranges.{IsNarrow};
ghost use Rattle.crn_cert.specs.Says.{AreStrongClasses};
ghost use Rattle.crn_cert.specs.Questions.{Earlier, IsOpen, Q13};
ghost use Rattle.crn_cert.specs.Licensed.{PassForSignals};
ghost use Rattle.crn_cert.specs.Answered.{IsAnswer};
ghost use Rattle.crn_cert.specs.TreeSizes.{HasFewNodes};
ghost use Rattle.crn_shape.specs.Sides.{AreSides};
ghost use Rattle.crn_shelf.specs.Given.{GiveVector};
ghost use Rattle.crn_shelf.specs.Order.{IsForNegative};
ghost use Rattle.crn_shelf.specs.Visits.{ListSignalVisits};
ghost use Rattle.crn_shelf.specs.Inner.Shapes.{EndsFor};
ghost use Rattle.crn_sign.specs.declared.end.SearchEnd.{SearchEnd};
ghost use Rattle.crn_shelf.specs.Inner.Answers.{IsFoundAnswer, IsStopAnswer, one_answer, shelf_number, two_answer};

use crate::problem::search_over;
use crn_cert::{Answer, Gap, Proof, Rows, Tree, Verdict};
use crn_graph::StrongData;
use crn_net::Network;
use crn_shape::{Shape, shelves};
use crn_sign::{SearchEnd, SearchStop};
use crn_vec::{Ints, NoMemory, Sign};
use std::alloc::Global;

// A shelf as a number: 1 is upper, 0 middle, -1 lower.
fn shelf_number(shelf: Sign) -> i128
    ensures { result ≡ shelf_number shelf }
{
    match shelf {
        Sign::Zero => 0,
        Sign::Plus => 1,
        Sign::Minus => -1,
    }
}

// Shelves as numbers.
fn shelf_numbers(alloc: Global, shelves: &[Sign]) -> Result<Ints, NoMemory>
    ensures { IfOk result (λ made. made.list ≡ map shelf_number shelves.now) }
{
    let mut numbers = Ints::with_room(alloc, shelves.len())?;
    for k in 0..shelves.len() {
        numbers.push(shelf_number(shelves[k]))?;
    }
    Ok(numbers)
}

// The yes of a full feasible prefix and of the solutions of its parts.
fn found_answer(
    alloc: Global,
    net: &Network,
    strong: &StrongData,
    turn: i32,
    pattern: &[Sign],
    a: &Ints,
    b: Ints,
) -> Result<Answer, NoMemory>
    requires { length net.now.names < length a.now.list }
    ensures { IfOk result (λ answer. IsFoundAnswer turn strong.now.terminal
        (length net.now.names) pattern.now a.now.list b.list answer) }
{
    let shelves = shelf_numbers(alloc, shelves(pattern, strong.terminal as usize))?;
    let (mu, _) = a.as_slice().split_at(net.species());
    Ok(Answer::plain(Verdict::YesSignal {
        turn,
        shelves,
        mu: Ints::from_slice(alloc, mu)?,
        m: a.as_slice()[net.species()],
        weights: b,
    }))
}

// The answer that the stop of a search gives.
fn stop_answer(stop: SearchStop) -> Result<Answer, NoMemory>
    ensures { IfOk result (λ answer. IsStopAnswer stop answer) }
{
    match stop {
        SearchStop::WideA { index, basis } => Ok(Answer::plain(Verdict::Unknown(Gap::Wide {
            system: 5,
            class: 0,
            index,
            basis,
        }))),
        SearchStop::WideB { index, basis, .. } => Ok(Answer::plain(Verdict::Unknown(Gap::Wide {
            system: 2,
            class: 0,
            index,
            basis,
        }))),
        SearchStop::NoMemory => Err(NoMemory),
    }
}

// The no of the tree for the vector alone.
fn one_answer(tree: Tree) -> Answer
    ensures { result ≡ one_answer tree }
{
    Answer {
        verdict: Verdict::No,
        proof: Proof::One(tree),
    }
}

// The no of the trees for the vector and its negative.
fn two_answer(tree: Tree, second: Tree) -> Answer
    ensures { result ≡ two_answer tree second }
{
    Answer {
        verdict: Verdict::No,
        proof: Proof::Two(tree, second),
    }
}

// The answer of a weakly reversible network in which g has no signal: that of the search for -g.
fn by_negative(
    alloc: Global,
    net: &Network,
    strong: &StrongData,
    mut shape: Shape,
    g: &[i128],
    budget: u32,
    tree: Tree,
) -> Result<Answer, NoMemory>
    requires low { 1 ≤ budget }
    requires high { budget ≤ MAX_BUDGET }
    requires regular { IsRegular net.now }
    requires line { HasConfluenceLine net.now }
    requires strong { AreStrongClasses net.now strong.now.count strong.now.terminal
        strong.now.label.list strong.now.exit.list }
    requires shape { IsShapeOf net.now g.now shape }
    requires vector { IsNormalVector net.now g.now }
    requires weak { IsWeaklyReversible net.now.reactions }
    requires tree { EndsFor net.now g.now budget (SearchEnd.Refuted tree) }
    ensures answer { IfOk result (λ answer. (earlier : Earlier) →
        GiveVector net.now earlier g.now true → IsAnswer net.now budget earlier Q13 answer) }
    ensures nodes { IfOk result (λ answer. HasFewNodes budget answer.proof) }
    ensures visits { IfOk result (λ answer. ListSignalVisits net.now g.now answer.proof) }
    ensures spent { IfOk result (λ answer.
        PassForSignals net.now (negative g.now) budget → IsOpen answer.verdict) }
{
    let _ = net.species();
    let _ = g;
    shape.negate();
    match search_over(alloc, net, &shape, budget) {
        Ok(SearchEnd::Found { pattern, a, b }) => {
            found_answer(alloc, net, strong, -1, pattern.as_slice(), &a, b)
        }
        Ok(SearchEnd::Refuted(second)) => Ok(two_answer(tree, second)),
        Ok(SearchEnd::Infeasible) => unreachable!(),
        Ok(SearchEnd::Spent) => Ok(Answer::plain(Verdict::Unknown(Gap::Budget { nodes: budget }))),
        Err(stop) => stop_answer(stop),
    }
}

/// Question 13: whether some confluence vector of a regular network has a signal, given its normal
/// confluence vector g and the sides of question 11.
///
/// It tries g first and, if the network is weakly reversible and g has no signal, -g. The budget
/// bounds each of the two searches by itself: if the visits of one of them exceed it, the question is
/// open. If the search for g stops early, -g is not tried, so a yes for -g is given only if g has no
/// signal. A tree has one node for each visit of its search.
pub fn signal(
    alloc: Global,
    net: &Network,
    strong: &StrongData,
    sides: &Rows,
    g: &[i128],
    weak: bool,
    budget: u32,
) -> Result<Answer, NoMemory>
    requires low { 1 ≤ budget }
    requires high { budget ≤ MAX_BUDGET }
    requires regular { IsRegular net.now }
    requires line { HasConfluenceLine net.now }
    requires strong { AreStrongClasses net.now strong.now.count strong.now.terminal
        strong.now.label.list strong.now.exit.list }
    requires sides { AreSides net.now sides.now }
    requires vector { IsNormalVector net.now g.now }
    requires narrow { AllByRecursion IsNarrow g.now }
    requires weak { IsTrue weak ↔ IsWeaklyReversible net.now.reactions }
    ensures answer { IfOk result (λ answer. (earlier : Earlier) →
        GiveVector net.now earlier g.now weak → IsAnswer net.now budget earlier Q13 answer) }
    ensures nodes { IfOk result (λ answer. HasFewNodes budget answer.proof) }
    ensures visits { IfOk result (λ answer. ListSignalVisits net.now g.now answer.proof) }
    ensures spent { IfOk result (λ answer.
        PassForSignals net.now g.now budget → IsOpen answer.verdict) }
    ensures first { IfOk result (λ answer.
        IsForNegative answer.verdict → HasNoSignal net.now g.now) }
    ensures second { IfOk result (λ answer. IsTrue weak → HasNoSignal net.now g.now →
        PassForSignals net.now (negative g.now) budget → IsOpen answer.verdict) }
{
    let _ = net.species();
    let labels = strong.label.as_slice();
    let exits = strong.exit.as_slice();
    let shape = Shape::new(alloc, net, labels, exits, sides, g)?;
    match search_over(alloc, net, &shape, budget) {
        Ok(SearchEnd::Found { pattern, a, b }) => {
            found_answer(alloc, net, strong, 1, pattern.as_slice(), &a, b)
        }
        Ok(SearchEnd::Refuted(tree)) => {
            if weak {
                by_negative(alloc, net, strong, shape, g, budget, tree)
            } else {
                Ok(one_answer(tree))
            }
        }
        Ok(SearchEnd::Infeasible) => unreachable!(),
        Ok(SearchEnd::Spent) => Ok(Answer::plain(Verdict::Unknown(Gap::Budget { nodes: budget }))),
        Err(stop) => stop_answer(stop),
    }
}
