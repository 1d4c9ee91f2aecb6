ghost use Rattle.std.specs.Prelude.{◌≡◌, ◌≤◌, ℕ, List, [], IfOk};
ghost use Rattle.crn_vec.specs.declared.limits.TheConstants.{MAX_BUDGET};
ghost use Rattle.crn_cert.specs.Built.{built};
ghost use Rattle.crn_cert.specs.Formed.{AreFormed};
ghost use Rattle.crn_cert.specs.Valid.{AreValid};
ghost use Rattle.crn_cert.specs.TreeSizes.{HaveFewNodes};
ghost use Rattle.crn_ctext.specs.Judged.{IsGood};
ghost use Rattle.crn_text.specs.Spells.{Spells};
ghost use Rattle.crn_sample.specs.Sample.{sample_text};
ghost use Rattle.crn_sample.specs.declared.limits.TheConstants.{MAX_SAMPLE};
ghost use Rattle.crn_run.specs.Run.{certificate};
ghost use Rattle.crn_run.specs.Inner.Steps.{OutputGives};
ghost use Rattle.crn_run.specs.declared.words.Command.TheVariants.{Sample};

use crate::output::{certificate_is_good, status_of};
use crate::status::Status;
use crn_cert::{Answers, share_of};
use crn_ctext::{document2_length, good_documents_are_read, write_document2};
use crn_document::{CheckStop, check_document};
use crn_io::{NoMemory, QuietSink, QuietSource, Sink};
use crn_net::Network;
use crn_render::write_summary;
use crn_solve::solve;
use std::alloc::Global;

// The document of a network and of answers, with equal lists written once, in a sink of just its length.
fn document_of(alloc: Global, net: &Network, answers: &Answers) -> Result<QuietSink, NoMemory>
    requires formed { AreFormed net.now [] built answers.now }
    requires valid { AreValid net.now [] built answers.now }
    requires few { HaveFewNodes MAX_BUDGET answers.now }
    ensures { IfOk result (λ sink. sink.bytes ≡ certificate net.now answers.now) }
{
    let share = share_of(alloc, answers)?;
    certificate_is_good(net, answers);
    let length = document2_length(net, answers, &share);
    let mut sink = QuietSink::new(alloc, length as usize)?;
    match write_document2(net, answers, &share, &mut sink) {
        Ok(()) => Ok(sink),
        Err(_) => unreachable!(),
    }
}

// Checks a good document in memory, which is accepted unless memory runs out.
fn accept_document(alloc: Global, document: &[u8]) -> Result<(), NoMemory>
    requires { IsGood document.now }
{
    good_documents_are_read();
    let mut source = QuietSource::new(document);
    match check_document(alloc, &mut source) {
        Ok(_) => Ok(()),
        Err(stop) => match stop {
            CheckStop::NoMemory => Err(NoMemory),
            _ => unreachable!(),
        },
    }
}

// Writes the document of a network and of answers into memory, and checks it there.
fn check_answers(alloc: Global, net: &Network, answers: &Answers) -> Result<(), NoMemory>
    requires formed { AreFormed net.now [] built answers.now }
    requires valid { AreValid net.now [] built answers.now }
    requires few { HaveFewNodes MAX_BUDGET answers.now }
    ensures { IsGood (certificate net.now answers.now) }
{
    certificate_is_good(net, answers);
    let document = document_of(alloc, net, answers)?;
    accept_document(alloc, document.bytes())
}

// Answers the questions on a network, checks the document of the answers, and writes the summary.
fn summarize<K: Sink>(
    alloc: Global,
    number: u32,
    net: &Network,
    budget: u32,
    sink: &mut K,
) -> Status
    requires spells { Spells (sample_text number) net.now }
    requires some { 1 ≤ budget }
    requires most { budget ≤ MAX_BUDGET }
    ensures { (text : List ℕ) →
        OutputGives (Sample number budget) result text (K.seen sink.old) (K.seen sink.new) }
{
    let answers = match solve(alloc, net, budget) {
        Ok(answers) => answers,
        Err(_) => return Status::NoMemory,
    };
    if check_answers(alloc, net, &answers).is_err() {
        return Status::NoMemory;
    }
    let whole = status_of(&answers);
    let verdicts = match answers.into_verdicts() {
        Ok(verdicts) => verdicts,
        Err(_) => return Status::NoMemory,
    };
    match write_summary(net, &verdicts, number, sink) {
        Ok(()) => whole,
        Err(_) => Status::WriteFault,
    }
}

/// Answers the questions on a sample network, checks the document of the answers in memory, and writes the summary.
/// Takes memory, before it writes.
pub(crate) fn summarize_sample<K: Sink>(
    alloc: Global,
    number: u32,
    budget: u32,
    sink: &mut K,
) -> Status
    requires first { 1 ≤ number }
    requires last { number ≤ MAX_SAMPLE }
    requires some { 1 ≤ budget }
    requires most { budget ≤ MAX_BUDGET }
    ensures { (text : List ℕ) →
        OutputGives (Sample number budget) result text (K.seen sink.old) (K.seen sink.new) }
{
    match crn_sample::sample(alloc, number) {
        Ok(net) => summarize(alloc, number, &net, budget, sink),
        Err(_) => Status::NoMemory,
    }
}
