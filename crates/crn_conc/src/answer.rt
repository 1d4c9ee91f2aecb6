ghost use Rattle.std.specs.Prelude.{◌≡◌, ◌≤◌, ◌⊎◌, IfOk, IfSome};
ghost use Rattle.crn_vec.specs.declared.limits.TheConstants.{MAX_BUDGET};
ghost use Rattle.crn_vec.specs.Influence.{plain_table, strong_table};
ghost use Rattle.crn_vec.specs.NetSystems.{reaction_system};
ghost use Rattle.crn_cert.specs.Questions.{Q14, Q15};
ghost use Rattle.crn_sign.specs.declared.fault.SearchStop.{SearchStop as GivenStop};
ghost use Rattle.crn_conc.specs.Answers.{AnswersTable};
ghost use Rattle.crn_conc.specs.Inner.Answers.{IsNameOf, IsNamed, IsStopAnswer, end_answer};

use crate::chosen::columns_by_choice;
use crate::influence::Influence;
use crate::problem::TableProblem;
use crn_cert::{Answer, Gap, Proof, Verdict};
use crn_farkas::Solver;
use crn_net::Network;
use crn_sign::{SearchEnd, SearchStop, coordinates, search};
use crn_vec::{Matrix, NoMemory, Nums};
use std::alloc::Global;
use std::mem::drop;

// The name of a wide vector of system 2.
#[derive(Drop)]
pub(crate) struct WideName {
    pub index: u32,
    pub basis: Nums,
}

// The answer of the search over one table of a network, and the wide vector that stopped it, if the search over the other table
// stops at it, too.
//
// Each search first visits the prefixes of zeros, at which 0 solves both parts, and then that with a plus at the last species
// alone. There part B is decided first, and its kinds do not depend on the table. So the first system of part B that is
// left to the solver is the same for both tables.
#[derive(Drop)]
pub(crate) struct Searched {
    pub answer: Answer,
    pub shared: Option<WideName>,
}

// The answer that the end of a search gives.
pub(crate) fn end_answer(end: SearchEnd, budget: u32) -> Answer
    ensures { result ≡ end_answer budget end }
{
    match end {
        SearchEnd::Found { a, b, .. } => Answer::plain(Verdict::NoPair {
            alpha: a,
            weights: b,
        }),
        SearchEnd::Refuted(tree) => Answer {
            verdict: Verdict::Yes,
            proof: Proof::One(tree),
        },
        SearchEnd::Infeasible => Answer::plain(Verdict::Yes),
        SearchEnd::Spent => Answer::plain(Verdict::Unknown(Gap::Budget { nodes: budget })),
    }
}

// The name of the wide vector that stopped part B, if it is that of the other table's search.
fn shared_name(index: u32, basis: &Nums, is_first: bool) -> Result<Option<WideName>, NoMemory>
    ensures { IfOk result (λ made. IfSome made
        (λ name. (name.index ≡ index) × (name.basis.list ≡ basis.now.list))) }
{
    if !is_first {
        return Ok(None);
    }
    let basis = basis.copy()?;
    Ok(Some(WideName { index, basis }))
}

// The answer of a search that a wide vector of system 2 stops.
fn stopped_at(index: u32, basis: Nums, is_first: bool) -> Result<Searched, NoMemory>
    ensures answer { IfOk result
        (λ made. IsStopAnswer (GivenStop.WideB index basis is_first) made.answer) }
    ensures shared { IfOk result
        (λ made. IfSome made.shared (IsNameOf (GivenStop.WideB index basis is_first))) }
{
    let shared = shared_name(index, &basis, is_first)?;
    let answer = Answer::plain(Verdict::Unknown(Gap::Wide {
        system: 2,
        class: 0,
        index,
        basis,
    }));
    Ok(Searched { answer, shared })
}

// The answer that the stop of a search gives.
fn stop_answer(stop: SearchStop) -> Result<Searched, NoMemory>
    ensures answer { IfOk result (λ made. IsStopAnswer stop made.answer) }
    ensures shared { IfOk result (λ made. IfSome made.shared (IsNameOf stop)) }
{
    match stop {
        SearchStop::WideA { index, basis } => stopped_at(index, basis, false),
        SearchStop::WideB {
            index,
            basis,
            is_first,
        } => stopped_at(index, basis, is_first),
        SearchStop::NoMemory => Err(NoMemory),
    }
}

// The answer that the search over a table gives, with its tree if it is kept. A solver is dropped by a call, as a way out
// drops it field by field.
pub(crate) fn answer_by<'a>(
    alloc: Global,
    net: &Network,
    matrix: &'a Matrix,
    table: &'a Influence,
    solver: Solver,
    budget: u32,
    keeps: bool,
) -> Result<Searched, NoMemory>
    requires matrix { matrix.now ≡ reaction_system net.now }
    requires solver { solver.matrix ≡ matrix.now }
    requires low { 1 ≤ budget }
    requires high { budget ≤ MAX_BUDGET }
    requires table { (table.now ≡ plain_table net.now) ⊎ (table.now ≡ strong_table net.now) }
    ensures plain { table.now ≡ plain_table net.now → IfOk result
        (λ made. AnswersTable keeps net.now budget Q14 (plain_table net.now) made.answer) }
    ensures strong { table.now ≡ strong_table net.now → IfOk result
        (λ made. AnswersTable keeps net.now budget Q15 (strong_table net.now) made.answer) }
    ensures shared { IfOk result (λ made. IsNamed net.now made.shared) }
{
    let _ = net.species();
    let Ok(columns) = columns_by_choice(alloc, matrix, table) else {
        drop(solver);
        return Err(NoMemory);
    };
    let Ok(coordinates) = coordinates(alloc, matrix) else {
        drop(solver);
        return Err(NoMemory);
    };
    let problem = TableProblem {
        matrix,
        table,
        columns,
        coordinates,
    };
    match search(alloc, &problem, solver, budget, keeps) {
        Ok(end) => Ok(Searched {
            answer: end_answer(end, budget),
            shared: None,
        }),
        Err(stop) => stop_answer(stop),
    }
}
