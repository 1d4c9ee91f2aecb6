ghost use Rattle.std.specs.Prelude.{◌≡◌, ◌≤◌, ◌↔◌, ℕ, List, [], IsTrue, true};
ghost use Rattle.crn_vec.specs.declared.limits.TheConstants.{MAX_BUDGET};
ghost use Rattle.crn_siphon_check.specs.Answers.{said_of};
ghost use Rattle.crn_siphon_check.specs.declared.answer.Outcome.TheVariants.{Undecided};
ghost use Rattle.crn_siphon_text.specs.Document.{outcome_of};
ghost use Rattle.crn_indep_text.specs.Document.{seen_of};
ghost use Rattle.crn_robust.specs.Pick.{IsPicked};
ghost use Rattle.crn_robust.specs.declared.robust.Robust.TheVariants as robust;
ghost use Rattle.crn_robust_text.specs.Document.{blocks_of, rests_on};
ghost use Rattle.crn_ctext.specs.PartBlocks.{verdicts_on};
ghost use Rattle.crn_cert.specs.Formed.{AreFormed};
ghost use Rattle.crn_cert.specs.Questions.{Q5, on};
ghost use Rattle.crn_cert.specs.Valid.{AreValid};
ghost use Rattle.crn_endo_text.specs.Document.{seen_of as endo_seen_of};
ghost use Rattle.crn_endo_text.specs.declared.seen.EndoSeen.TheVariants as endo;
ghost use Rattle.crn_run.specs.Run.{RunGives};
ghost use Rattle.crn_run.specs.Words.{IsCommand};
ghost use Rattle.crn_run.specs.Inner.Steps.{NetworkGives};
ghost use Rattle.crn_run.specs.declared.words.Command.TheVariants.{Prove, Verify};
ghost use Rattle.crn_run.specs.declared.words.PartName.TheVariants.{Persist as PersistPart, Robust as RobustPart, Decomposition, Endo as EndoPart};

use crate::output::{end_without_document, status_by};
use crate::status::Status;
use crate::verdicts::{write_decomposition, write_endotactic, write_persistence, write_robustness};
use crate::words::PartName;
use crn_cert::Answers;
use crn_endo::endotactic;
use crn_endo_check::{Endo, valid_answers_on_endotactic_networks_are_true};
use crn_endo_text::{verify_endo, write_endo, written_documents_on_endotactic_networks_are_good};
use crn_indep::decompose;
use crn_indep_check::{Parts, valid_answers_on_decompositions_are_true};
use crn_indep_text::{verify_parts, write_parts, written_documents_on_decompositions_are_good};
use crn_io::{Sink, Source};
use crn_net::Network;
use crn_robust::{Robust, cases_decide_robustness, pick};
use crn_robust_text::{
    valid_answers_on_robustness_are_true, verify_robust, write_robust,
    written_documents_on_robustness_are_good,
};
use crn_siphon::persist;
use crn_siphon_check::{Persist, valid_answers_on_persistence_are_true};
use crn_siphon_text::{verify_persist, write_persist, written_documents_on_persistence_are_good};
use crn_solve::solve_rank;
use std::alloc::Global;

/// Answers the question of a part on a network, and writes the document of the answer. Takes memory, before it writes.
pub(crate) fn prove<K: Sink>(
    alloc: Global,
    part: PartName,
    net: &Network,
    budget: u32,
    sink: &mut K,
) -> Status
    requires some { 1 ≤ budget }
    requires most { budget ≤ MAX_BUDGET }
    ensures { NetworkGives (Prove part budget) result net.now (K.seen sink.old) (K.seen sink.new) }
{
    match part {
        PartName::Persist => prove_persist(alloc, net, budget, sink),
        PartName::Robust => prove_robust(alloc, net, sink),
        PartName::Decomposition => prove_parts(alloc, net, sink),
        PartName::Endo => prove_endo(alloc, net, budget, sink),
    }
}

/// Reads a document of a part to its end and checks it, and writes its verdict or why it is rejected.
pub(crate) fn verify<S: Source, K: Sink>(
    alloc: Global,
    part: PartName,
    source: &mut S,
    sink: &mut K,
) -> Status
    ensures { (words : List (List ℕ)) → IsCommand words (Verify part) → RunGives result words
        (record { source = S.seen source.old; sink = K.seen sink.old })
        (record { source = S.seen source.new; sink = K.seen sink.new }) }
{
    match part {
        PartName::Persist => check_persist(alloc, source, sink),
        PartName::Robust => check_robust(alloc, source, sink),
        PartName::Decomposition => check_parts(alloc, source, sink),
        PartName::Endo => check_endo(alloc, source, sink),
    }
}

// ---- the part `persist`

// Whether an answer on persistence is open.
fn is_undecided(answer: &Persist) -> bool
    ensures { IsTrue result ↔ (outcome_of (said_of answer.now) ≡ Undecided) }
{
    match answer {
        Persist::Wide { .. } => true,
        Persist::Spent { .. } => true,
        _ => false,
    }
}

// Answers whether a network is persistent by its siphons, and writes the document of the answer.
fn prove_persist<K: Sink>(alloc: Global, net: &Network, budget: u32, sink: &mut K) -> Status
    requires some { 1 ≤ budget }
    requires most { budget ≤ MAX_BUDGET }
    ensures { NetworkGives (Prove PersistPart budget) result net.now
        (K.seen sink.old) (K.seen sink.new) }
{
    let answer = match persist(alloc, net, budget) {
        Ok(answer) => answer,
        Err(_) => return Status::NoMemory,
    };
    let whole = status_by(is_undecided(&answer));
    written_documents_on_persistence_are_good();
    match write_persist(net, &answer, sink) {
        Ok(()) => whole,
        Err(_) => Status::WriteFault,
    }
}

// Checks a document on persistence, and writes its verdict or why it is rejected.
fn check_persist<S: Source, K: Sink>(alloc: Global, source: &mut S, sink: &mut K) -> Status
    ensures { (words : List (List ℕ)) → IsCommand words (Verify PersistPart) → RunGives result words
        (record { source = S.seen source.old; sink = K.seen sink.old })
        (record { source = S.seen source.new; sink = K.seen sink.new }) }
{
    valid_answers_on_persistence_are_true();
    match verify_persist(alloc, source) {
        Ok(outcome) => write_persistence(outcome, sink),
        Err(stop) => end_without_document(stop, sink),
    }
}

// ---- the part `parts`

// Whether a decomposition is open.
fn is_open(answer: &Parts) -> bool
    ensures { IsTrue result ↔ ((seen_of answer.now).undecided ≡ true) }
{
    matches!(answer, Parts::Wide { .. })
}

// Finds the finest independent decomposition of a network, and writes its document. No search is bounded by a budget.
fn prove_parts<K: Sink>(alloc: Global, net: &Network, sink: &mut K) -> Status
    ensures { (budget : ℕ) → NetworkGives (Prove Decomposition budget) result net.now
        (K.seen sink.old) (K.seen sink.new) }
{
    let answer = match decompose(alloc, net) {
        Ok(answer) => answer,
        Err(_) => return Status::NoMemory,
    };
    let whole = status_by(is_open(&answer));
    written_documents_on_decompositions_are_good();
    match write_parts(net, &answer, sink) {
        Ok(()) => whole,
        Err(_) => Status::WriteFault,
    }
}

// Checks a document on the finest independent decomposition, and writes its verdict or why it is rejected.
fn check_parts<S: Source, K: Sink>(alloc: Global, source: &mut S, sink: &mut K) -> Status
    ensures { (words : List (List ℕ)) → IsCommand words (Verify Decomposition) →
        RunGives result words
        (record { source = S.seen source.old; sink = K.seen sink.old })
        (record { source = S.seen source.new; sink = K.seen sink.new }) }
{
    valid_answers_on_decompositions_are_true();
    match verify_parts(alloc, source) {
        Ok(seen) => write_decomposition(&seen, sink),
        Err(stop) => end_without_document(stop, sink),
    }
}

// ---- the part `endo`

// Whether an answer on endotactic networks is open.
fn is_left_open(answer: &Endo) -> bool
    ensures { IsTrue result ↔ (endo_seen_of answer.now ≡ endo.Undecided) }
{
    match answer {
        Endo::Wide { .. } => true,
        Endo::Spent { .. } => true,
        Endo::Large => true,
        _ => false,
    }
}

// Answers whether a network is endotactic, and writes the document of the answer.
fn prove_endo<K: Sink>(alloc: Global, net: &Network, budget: u32, sink: &mut K) -> Status
    requires some { 1 ≤ budget }
    requires most { budget ≤ MAX_BUDGET }
    ensures { NetworkGives (Prove EndoPart budget) result net.now
        (K.seen sink.old) (K.seen sink.new) }
{
    let answer = match endotactic(alloc, net, budget) {
        Ok(answer) => answer,
        Err(_) => return Status::NoMemory,
    };
    let whole = status_by(is_left_open(&answer));
    valid_answers_on_endotactic_networks_are_true();
    written_documents_on_endotactic_networks_are_good();
    match write_endo(net, &answer, sink) {
        Ok(()) => whole,
        Err(_) => Status::WriteFault,
    }
}

// Checks a document on endotactic networks, and writes its verdict or why it is rejected.
fn check_endo<S: Source, K: Sink>(alloc: Global, source: &mut S, sink: &mut K) -> Status
    ensures { (words : List (List ℕ)) → IsCommand words (Verify EndoPart) → RunGives result words
        (record { source = S.seen source.old; sink = K.seen sink.old })
        (record { source = S.seen source.new; sink = K.seen sink.new }) }
{
    valid_answers_on_endotactic_networks_are_true();
    match verify_endo(alloc, source) {
        Ok(seen) => write_endotactic(&seen, sink),
        Err(stop) => end_without_document(stop, sink),
    }
}

// ---- the part `robust`

// Whether an answer on robustness is open.
fn rests(answer: &Robust) -> bool
    ensures { IsTrue result ↔ (answer.now ≡ robust.Rests) }
{
    matches!(answer, Robust::Rests)
}

// The case that holds of a network, by valid answers on its linkage classes, its strong classes and its rank.
fn case_by(net: &Network, answers: &Answers) -> Robust
    requires formed { AreFormed net.now [] rests_on (blocks_of answers.now) }
    requires valid { AreValid net.now [] rests_on (blocks_of answers.now) }
    ensures { let earlier = verdicts_on rests_on (blocks_of answers.now) in
        IsPicked net.now (on earlier Q5) result }
{
    net.meets_definition();
    let linkage = answers.get(1);
    let strong = answers.get(2);
    let rank = answers.get(5);
    pick(net, &linkage.verdict, &strong.verdict, &rank.verdict)
}

// Answers whether the structural hypotheses on robustness hold, and writes the document of the answer. No search is bounded
// by a budget.
fn prove_robust<K: Sink>(alloc: Global, net: &Network, sink: &mut K) -> Status
    ensures { (budget : ℕ) → NetworkGives (Prove RobustPart budget) result net.now
        (K.seen sink.old) (K.seen sink.new) }
{
    let answers = match solve_rank(alloc, net) {
        Ok(answers) => answers,
        Err(_) => return Status::NoMemory,
    };
    let robust = case_by(net, &answers);
    let whole = status_by(rests(&robust));
    cases_decide_robustness();
    valid_answers_on_robustness_are_true();
    written_documents_on_robustness_are_good();
    match write_robust(net, &answers, &robust, sink) {
        Ok(()) => whole,
        Err(_) => Status::WriteFault,
    }
}

// Checks a document on robustness, and writes its verdict or why it is rejected.
fn check_robust<S: Source, K: Sink>(alloc: Global, source: &mut S, sink: &mut K) -> Status
    ensures { (words : List (List ℕ)) → IsCommand words (Verify RobustPart) → RunGives result words
        (record { source = S.seen source.old; sink = K.seen sink.old })
        (record { source = S.seen source.new; sink = K.seen sink.new }) }
{
    cases_decide_robustness();
    valid_answers_on_robustness_are_true();
    match verify_robust(alloc, source) {
        Ok(verified) => write_robustness(&verified.net, &verified.answer, sink),
        Err(stop) => end_without_document(stop, sink),
    }
}
