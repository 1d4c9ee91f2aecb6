ghost use Rattle.std.specs.Prelude.{◌≡◌, ◌≤◌, ◌<◌, ◌↔◌, ℕ, IfOk, IfSome, MatchResult};
ghost use Rattle.crn_vec.specs.Lists.{IsIn};
ghost use Rattle.crn_vec.specs.declared.limits.TheConstants.{MAX_SIGNED};
ghost use Rattle.crn_vec.specs.NetSystems.{positive_kinds, reaction_system, species_system};
ghost use Rattle.crn_cert.specs.Questions.{Earlier, Q7, Q8};
ghost use Rattle.crn_farkas.specs.Decision.{IsDecision, IsStop};
ghost use Rattle.crn_cert.specs.Answered.{IsAnswer};
ghost use Rattle.crn_solve.specs.Inner.Given.{vector_answer};
ghost use Rattle.crn_solve.specs.Laws.{IsLawDecision, IsLawStop};

use crate::open::wide_answer;
use crate::parts::is_open;
use crate::systems::{positive_kinds, species_matrix};
use crn_cert::{Answer, Verdict};
use crn_farkas::{Decision, Solver, Stop};
use crn_net::Network;
use crn_tab::Tableau;
use crn_vec::{Matrix, NoMemory};
use std::alloc::Global;
use std::mem::drop;

// The answer to question 7, and the solver by which it was decided.
#[derive(Drop)]
pub(crate) struct Dependence {
    pub answer: Answer,
    pub solver: Solver,
}

// A solution with positive columns and zero rows, or multipliers that rule every one out, by a solver whose basis is
// the columns. An answer in plain view is looked for in `viewed`, if it is there. A tableau or a solver is dropped by a call,
// as a way out drops it field by field.
fn decide_positive(
    alloc: Global,
    matrix: &Matrix,
    solver: &mut Solver,
    viewed: Option<Tableau>,
) -> Result<Decision, Stop>
    requires matrix { solver.old.matrix ≡ matrix.now }
    requires columns { (k : ℕ) → IsIn k solver.old.basis ↔ (k < matrix.now.cols) }
    requires viewed { IfSome viewed (λ t. t.matrix ≡ matrix.now) }
    requires few { matrix.now.cols ≤ MAX_SIGNED }
    ensures matrix { solver.new.matrix ≡ matrix.now }
    ensures answer { MatchResult result
        (λ d. IsDecision matrix.now (positive_kinds matrix.now) d)
        (λ s. IsStop matrix.now (positive_kinds matrix.now) s) }
{
    let Ok(kinds) = positive_kinds(alloc, matrix) else {
        drop(viewed);
        return Err(Stop::NoMemory);
    };
    match viewed {
        Some(tableau) => solver.decide_by(Some(tableau), &kinds),
        None => solver.settle(&kinds),
    }
}

// The answer of a decision: yes with the solution, or no with the multipliers.
fn vector_answer(decision: Decision) -> Answer
    ensures { result ≡ vector_answer decision }
{
    let verdict = match decision {
        Decision::Feasible(vector) => Verdict::YesVec { vector },
        Decision::Infeasible(multipliers) => Verdict::NoVec { multipliers },
    };
    Answer::plain(verdict)
}

/// Question 7: a positive dependence of the reaction vectors, or multipliers that rule each one out. The matrix is that of
/// system 2, and so is the solver's, which has the basis where the question ended.
///
/// If the rank is open, rows of system 1 could not enter its basis, and those of system 2 mostly can't either: so nothing is looked for in plain view.
pub(crate) fn positively_dependent(
    alloc: Global,
    net: &Network,
    matrix: &Matrix,
    rank: &Verdict,
) -> Result<Dependence, NoMemory>
    requires { matrix.now ≡ reaction_system net.now }
    ensures answer { IfOk result (λ made. (budget : ℕ) (earlier : Earlier) →
        IsAnswer net.now budget earlier Q7 made.answer) }
    ensures solver { IfOk result (λ made. made.solver.matrix ≡ matrix.now) }
{
    net.meets_definition();
    let mut solver = Solver::new(alloc, matrix)?;
    let viewed = if is_open(rank) {
        None
    } else {
        let Ok(tableau) = Tableau::new(alloc, matrix) else {
            drop(solver);
            return Err(NoMemory);
        };
        Some(tableau)
    };
    let answer = match decide_positive(alloc, matrix, &mut solver, viewed) {
        Ok(decision) => vector_answer(decision),
        Err(Stop::Wide { index, basis }) => wide_answer(2, index, basis),
        Err(Stop::NoMemory) => {
            drop(solver);
            return Err(NoMemory);
        }
    };
    Ok(Dependence { answer, solver })
}

/// Question 8: a conservation law with positive weights, or multipliers that rule each one out. The matrix is that of
/// system 1, and the tableau that by which question 5 is answered, unless that question is open.
pub(crate) fn conservative(
    alloc: Global,
    net: &Network,
    matrix: &Matrix,
    viewed: Option<Tableau>,
) -> Result<Answer, NoMemory>
    requires matrix { matrix.now ≡ species_system net.now }
    requires viewed { IfSome viewed (λ t. t.matrix ≡ matrix.now) }
    ensures { IfOk result (λ answer. (budget : ℕ) (earlier : Earlier) →
        IsAnswer net.now budget earlier Q8 answer) }
{
    net.meets_definition();
    let Ok(mut solver) = Solver::new(alloc, matrix) else {
        drop(viewed);
        return Err(NoMemory);
    };
    let decided = decide_positive(alloc, matrix, &mut solver, viewed);
    drop(solver);
    match decided {
        Ok(decision) => Ok(vector_answer(decision)),
        Err(Stop::Wide { index, basis }) => Ok(wide_answer(1, index, basis)),
        Err(Stop::NoMemory) => Err(NoMemory),
    }
}

/// A conservation law with positive weights, or numbers that rule each one out: what question 8 asks, alone. Takes memory.
pub fn law_or_cut(alloc: Global, net: &Network) -> Result<Decision, Stop>
    ensures { MatchResult result (λ d. IsLawDecision net.now d) (λ s. IsLawStop net.now s) }
{
    net.meets_definition();
    let matrix = species_matrix(alloc, net)?;
    let mut solver = Solver::new(alloc, &matrix)?;
    let decided = decide_positive(alloc, &matrix, &mut solver, None);
    drop(solver);
    decided
}
