ghost use Rattle.std.specs.Prelude.{◌≡◌, ◌≤◌, IsTrue, IfOk};
ghost use Rattle.crn_vec.specs.declared.limits.TheConstants.{MAX_BUDGET};
ghost use Rattle.crn_vec.specs.Concordance.{concordance};
ghost use Rattle.crn_vec.specs.Influence.{plain_table, strong_table};
ghost use Rattle.crn_vec.specs.NetSystems.{reaction_system};
ghost use Rattle.crn_vec.specs.Visits.{PassesBudget};
ghost use Rattle.crn_cert.specs.Questions.{Q14, Q15};
ghost use Rattle.crn_conc.specs.Answers.{AnswersTable};
ghost use Rattle.crn_conc.specs.Inner.Answers.{IsNamed};

use crate::answer::{WideName, answer_by, end_answer};
use crate::influence::{concordance_table, strong_table};
use crn_cert::{Answer, Gap, Verdict};
use crn_farkas::Solver;
use crn_net::Network;
use crn_sign::SearchEnd;
use crn_vec::{Matrix, NoMemory};
use std::alloc::Global;
use std::mem::drop;

/// The answers to questions 14 and 15.
#[derive(Drop)]
pub struct ConcordanceAnswers {
    /// Whether the network is concordant.
    pub plain: Answer,
    /// Whether it is strongly concordant.
    pub strong: Answer,
}

// Whether the visits with which each search begins exceed the budget: those of the prefixes of zeros, and
// of one with a single plus.
fn is_soon_spent(net: &Network, budget: u32) -> bool
    ensures plain { IsTrue result →
        PassesBudget (concordance (reaction_system net.now) (plain_table net.now)) budget }
    ensures strong { IsTrue result →
        PassesBudget (concordance (reaction_system net.now) (strong_table net.now)) budget }
{
    let visits = net.species() + 2;
    if budget as usize >= visits {
        return false;
    }
    true
}

// The answer to question 15, by the wide vector that stopped both searches if there is one.
fn strong_answer(
    alloc: Global,
    net: &Network,
    matrix: &Matrix,
    budget: u32,
    keeps: bool,
    shared: Option<WideName>,
) -> Result<Answer, NoMemory>
    requires matrix { matrix.now ≡ reaction_system net.now }
    requires low { 1 ≤ budget }
    requires high { budget ≤ MAX_BUDGET }
    requires shared { IsNamed net.now shared }
    ensures { IfOk result
        (λ answer. AnswersTable keeps net.now budget Q15 (strong_table net.now) answer) }
{
    if let Some(name) = shared {
        return Ok(Answer::plain(Verdict::Unknown(Gap::Wide {
            system: 2,
            class: 0,
            index: name.index,
            basis: name.basis,
        })));
    }
    let table = strong_table(alloc, net)?;
    let solver = Solver::new(alloc, matrix)?;
    let searched = answer_by(alloc, net, matrix, &table, solver, budget, keeps)?;
    Ok(searched.answer)
}

/// Question 14, whether a network is concordant, and question 15, whether it is strongly concordant. The
/// matrix is that of system 2, and the solver its, which question 7 may have led to a basis. Question 15 begins with one of its own.
///
/// A no has a discordance of the plain or the strong table, and a yes a tree that shows that there is none, with one node for
/// each visit of its search; where trees are not kept, only the verdicts are those of such answers, and it takes less memory.
/// If the visits exceed the budget, the question is open.
pub fn decide_concordance(
    alloc: Global,
    net: &Network,
    matrix: &Matrix,
    solver: Solver,
    budget: u32,
    keeps: bool,
) -> Result<ConcordanceAnswers, NoMemory>
    requires matrix { matrix.now ≡ reaction_system net.now }
    requires solver { solver.matrix ≡ matrix.now }
    requires low { 1 ≤ budget }
    requires high { budget ≤ MAX_BUDGET }
    ensures plain { IfOk result
        (λ made. AnswersTable keeps net.now budget Q14 (plain_table net.now) made.plain) }
    ensures strong { IfOk result
        (λ made. AnswersTable keeps net.now budget Q15 (strong_table net.now) made.strong) }
{
    if is_soon_spent(net, budget) {
        drop(solver);
        let plain = end_answer(SearchEnd::Spent, budget);
        let strong = end_answer(SearchEnd::Spent, budget);
        return Ok(ConcordanceAnswers { plain, strong });
    }
    let Ok(table) = concordance_table(alloc, net) else {
        drop(solver);
        return Err(NoMemory);
    };
    let searched = answer_by(alloc, net, matrix, &table, solver, budget, keeps)?;
    let plain = searched.answer;
    let Ok(strong) = strong_answer(alloc, net, matrix, budget, keeps, searched.shared) else {
        drop(plain);
        return Err(NoMemory);
    };
    Ok(ConcordanceAnswers { plain, strong })
}
