ghost use Rattle.std.specs.Prelude.{◌≡◌, ◌≤◌, ◌<◌, ◌++◌, ◌∷◌, ℕ, List, [], length, take, IfOk};
ghost use Rattle.std.specs.List.{AllByRecursion};
ghost use Rattle.crn_vec.specs.declared.limits.TheConstants.{MAX_BUDGET};
ghost use Rattle.crn_vec.specs.NetSystems.{reaction_system};
ghost use Rattle.crn_cert.specs.Answered.{IsAnswer};
ghost use Rattle.crn_cert.specs.Questions.{Earlier, IsOpen, Q5, Q8};
ghost use Rattle.crn_cert.specs.declared.answer.Answer.{Answer as GivenAnswer};
ghost use Rattle.crn_cert.specs.Answers.{verdicts_of};
ghost use Rattle.crn_cert.specs.Built.{built};
ghost use Rattle.crn_cert.specs.Formed.{AreFormed};
ghost use Rattle.crn_cert.specs.Valid.{AreValid};
ghost use Rattle.crn_cert.specs.Licensed.{AllTrueOrLicensed};
ghost use Rattle.crn_cert.specs.TreeSizes.{HaveFewNodes};
ghost use Rattle.crn_solve.specs.OnRank.{AreRankAnswers};
ghost use Rattle.crn_solve.specs.Spent.{AreOpenIfSpent};
ghost use Rattle.crn_solve.specs.Turns.{PreferTheVector};
ghost use Rattle.crn_solve.specs.Visits.{HaveNodeForEachVisit};
ghost use Rattle.crn_solve.specs.Inner.Solved.{AreFirstAnswers};

use crate::confluence_answer::confluence_answer;
use crate::deficiency_answer::deficiency_answer;
use crate::linkage_answer::linkage_answer;
use crate::open::rests_on;
use crate::parts::is_open;
use crate::positive::{conservative, positively_dependent};
use crate::rank_answer::rank_answer;
use crate::reversible::{reversible, weakly_reversible};
use crate::signal_answer::signal_answer;
use crate::strong_answer::strong_answer;
use crate::systems::species_matrix;
use crate::zero_answer::zero_answer;
use crn_cert::{Answer, Answers, Verdict, Verdicts};
use crn_conc::{decide_concordance, reaction_matrix};
use crn_defi::one_hypotheses;
use crn_farkas::Solver;
use crn_graph::{linkage, strong};
use crn_net::Network;
use crn_reg::regular;
use crn_tab::Tableau;
use crn_vec::{Matrix, NoMemory};
use std::alloc::Global;
use std::mem::drop;

// The answers to questions 5 and 8.
#[derive(Drop)]
struct OnSpecies {
    rank: Answer,
    conservation: Answer,
}

// The answers to the questions before the two on concordance, and the matrix of system 2 with the solver by which
// question 7 was decided.
#[derive(Drop)]
struct First {
    answers: Answers,
    matrix: Matrix,
    solver: Solver,
}

// The answers to questions 5 and 8, which share the matrix of system 1. It is let go before that of
// system 2 is made. Here and below large values are dropped by calls: a way out drops what it owns field by field, and each
// of these drops is proved.
fn on_species(alloc: Global, net: &Network) -> Result<OnSpecies, NoMemory>
    ensures rank { IfOk result (λ made. (budget : ℕ) (earlier : Earlier) →
        IsAnswer net.now budget earlier Q5 made.rank) }
    ensures conservation { IfOk result (λ made. (budget : ℕ) (earlier : Earlier) →
        IsAnswer net.now budget earlier Q8 made.conservation) }
{
    let matrix = species_matrix(alloc, net)?;
    let mut tableau = Tableau::new(alloc, &matrix)?;
    let Ok(rank) = rank_answer(alloc, net, &mut tableau) else {
        drop(tableau);
        return Err(NoMemory);
    };
    let viewed = if is_open(&rank.verdict) {
        drop(tableau);
        None
    } else {
        Some(tableau)
    };
    let Ok(conservation) = conservative(alloc, net, &matrix, viewed) else {
        drop(rank);
        return Err(NoMemory);
    };
    Ok(OnSpecies { rank, conservation })
}

// The answers to the questions before the two on concordance.
fn first_answers(alloc: Global, net: &Network, budget: u32) -> Result<First, NoMemory>
    requires some { 1 ≤ budget }
    requires most { budget ≤ MAX_BUDGET }
    ensures answers { IfOk result (λ made. AreFirstAnswers net.now budget made.answers) }
    ensures matrix { IfOk result (λ made. made.matrix ≡ reaction_system net.now) }
    ensures solver { IfOk result (λ made. made.solver.matrix ≡ made.matrix) }
{
    net.meets_definition();
    let linkage = linkage(alloc, net)?;
    let strong = strong(alloc, net)?;
    let reversible = reversible(alloc, net)?;
    let weakly_reversible = weakly_reversible(net, strong.label.as_slice());
    let on_species = on_species(alloc, net)?;
    let rank = on_species.rank;
    let conservation = on_species.conservation;
    let deficiency = deficiency_answer(alloc, net, &linkage, &rank.verdict)?;
    let matrix = reaction_matrix(alloc, net)?;
    let decided = positively_dependent(alloc, net, &matrix, &rank.verdict)?;
    let dependence = decided.answer;
    let solver = decided.solver;
    let regular = regular(alloc, net, &linkage, &strong, &dependence.verdict)?;
    let confluence = confluence_answer(
        alloc,
        net,
        &linkage,
        &strong,
        &weakly_reversible.verdict,
        &regular.verdict,
    )?;
    let signal = signal_answer(
        alloc,
        net,
        &strong,
        &weakly_reversible.verdict,
        &regular.proof,
        &confluence.verdict,
        budget,
    )?;
    let mut answers = Answers::new(alloc)?;
    // These two take no memory. Nothing below runs out of it, so no way out drops them.
    let zero = zero_answer(net, &linkage, &weakly_reversible.verdict, &rank.verdict);
    let one = one_hypotheses(net, &linkage, &strong, &deficiency.verdict);
    answers.push(linkage_answer(linkage));
    answers.push(strong_answer(strong));
    answers.push(reversible);
    answers.push(weakly_reversible);
    answers.push(rank);
    answers.push(deficiency);
    answers.push(dependence);
    answers.push(conservation);
    answers.push(zero);
    answers.push(one);
    answers.push(regular);
    answers.push(confluence);
    answers.push(signal);
    Ok(First {
        answers,
        matrix,
        solver,
    })
}

/// The answers to the questions that are built, in order. The budget is the most prefixes that a search may visit.
///
/// Each answer is formed and valid, and its verdict is true of the network, or open and licensed with this budget.
/// The first four are never open. Each tree has one node for each visit of its search, so at most as many as the budget, and
/// a question is open if the visits of its search exceed it. A signal is sought for the vector of question 12 first, and question 13 is a yes for the negative
/// only if the vector has none.
pub fn solve(alloc: Global, net: &Network, budget: u32) -> Result<Answers, NoMemory>
    requires some { 1 ≤ budget }
    requires most { budget ≤ MAX_BUDGET }
    ensures formed { IfOk result (λ answers. AreFormed net.now [] built answers) }
    ensures valid { IfOk result (λ answers. AreValid net.now [] built answers) }
    ensures answered { IfOk result (λ answers.
        AllTrueOrLicensed net.now budget [] built (verdicts_of answers)) }
    ensures decided { IfOk result (λ answers.
        AllByRecursion (λ v. IsOpen v → ⊥) (take 4 (verdicts_of answers))) }
    ensures nodes { IfOk result (λ answers. HaveFewNodes budget answers) }
    ensures visits { IfOk result (λ answers. HaveNodeForEachVisit net.now answers) }
    ensures spent { IfOk result (λ answers.
        AreOpenIfSpent net.now budget (verdicts_of answers)) }
    ensures first { IfOk result (λ answers. PreferTheVector net.now (verdicts_of answers)) }
{
    let first = first_answers(alloc, net, budget)?;
    let mut answers = first.answers;
    let matrix = first.matrix;
    let on_tables = decide_concordance(alloc, net, &matrix, first.solver, budget, true)?;
    answers.push(on_tables.plain);
    answers.push(on_tables.strong);
    Ok(answers)
}

// The answer to question 5. It has a call of its own so that the matrix and the tableau are let go where no other answer is
// owned.
fn rank_alone(alloc: Global, net: &Network) -> Result<Answer, NoMemory>
    ensures { IfOk result (λ made. (budget : ℕ) (earlier : Earlier) →
        IsAnswer net.now budget earlier Q5 made) }
{
    let matrix = species_matrix(alloc, net)?;
    let mut tableau = Tableau::new(alloc, &matrix)?;
    let rank = rank_answer(alloc, net, &mut tableau);
    drop(tableau);
    rank
}

/// Five answers: those to questions 1, 2 and 5, on linkage classes, strong classes and the rank, each in the place of its
/// question, and open ones in the places of questions 3 and 4. There is no sixth.
pub fn solve_rank(alloc: Global, net: &Network) -> Result<Answers, NoMemory>
    ensures { IfOk result (λ answers. (budget : ℕ) → AreRankAnswers net.now budget answers) }
{
    net.meets_definition();
    let mut answers = Answers::new(alloc)?;
    let linkage = linkage(alloc, net)?;
    answers.push(linkage_answer(linkage));
    let strong = strong(alloc, net)?;
    answers.push(strong_answer(strong));
    answers.push(rests_on(5));
    answers.push(rests_on(5));
    let rank = rank_alone(alloc, net)?;
    answers.push(rank);
    Ok(answers)
}

// Adds a verdict.
fn push_verdict(verdicts: &mut Verdicts, verdict: Verdict)
    requires { length verdicts.old < 15 }
    ensures { verdicts.new ≡ verdicts.old ++ verdict ∷ [] }
{
    verdicts.push(verdict);
}

/// The verdicts on the questions that are built, in order, without proofs. The budget is that of `solve`.
///
/// There are answers with these verdicts that are formed and valid. Each verdict is true of the network, or open and
/// licensed with this budget; what `solve` says of the first four, of spent budgets and of question 13 holds of these, too.
/// It takes less memory than `solve`: the searches of questions 14 and 15 keep no trees, and those of question 13 are let go
/// before them.
pub fn solve_verdicts(alloc: Global, net: &Network, budget: u32) -> Result<Verdicts, NoMemory>
    requires some { 1 ≤ budget }
    requires most { budget ≤ MAX_BUDGET }
    ensures answers { IfOk result (λ verdicts. (answers : List GivenAnswer)
        × (verdicts ≡ verdicts_of answers)
        × AreFormed net.now [] built answers × AreValid net.now [] built answers) }
    ensures answered { IfOk result (λ verdicts.
        AllTrueOrLicensed net.now budget [] built verdicts) }
    ensures decided { IfOk result (λ verdicts.
        AllByRecursion (λ v. IsOpen v → ⊥) (take 4 verdicts)) }
    ensures spent { IfOk result (λ verdicts. AreOpenIfSpent net.now budget verdicts) }
    ensures first { IfOk result (λ verdicts. PreferTheVector net.now verdicts) }
{
    let first = first_answers(alloc, net, budget)?;
    let Ok(mut verdicts) = first.answers.into_verdicts() else {
        drop(first.solver);
        return Err(NoMemory);
    };
    let matrix = first.matrix;
    let on_tables = decide_concordance(alloc, net, &matrix, first.solver, budget, false)?;
    let plain = on_tables.plain;
    let strong = on_tables.strong;
    push_verdict(&mut verdicts, plain.verdict);
    push_verdict(&mut verdicts, strong.verdict);
    drop(plain.proof);
    drop(strong.proof);
    Ok(verdicts)
}
