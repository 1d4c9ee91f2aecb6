ghost use Rattle.std.specs.Prelude.{◌≡◌, ◌≤◌, ℕ, List, map, string_bytes};
ghost use Rattle.crn_vec.specs.declared.limits.TheConstants.{MAX_BUDGET};
ghost use Rattle.crn_io.specs.Device.{SinkSeen};
ghost use Rattle.crn_run.specs.Inner.Steps.{StopGives};
ghost use Rattle.crn_run.specs.Run.{IsComplete, RunGives};
ghost use Rattle.crn_run.specs.Words.{IsCommand, SayACommand};
ghost use Rattle.crn_run.specs.declared.words.Command.TheVariants.{Report, Certify, Check, Sample, Prove};

use crate::network::{Stop, read_network};
use crate::status::Status;
use crate::summary::summarize_sample;
use crate::words::{Command, PartName, command_of};
use crate::{output, parts};
use crn_ctext::{answers_are_as_their_records, good_documents_are_read};
use crn_document::{CheckStop, check_document};
use crn_io::{Sink, Source};
use std::alloc::Global;

/// All that the program does, from its words to what it writes and how it ends. Takes memory.
///
/// The words begin with the program's name. All memory is taken before the first byte is written.
pub fn run<S: Source, K: Sink>(
    alloc: Global,
    words: &[String],
    source: &mut S,
    sink: &mut K,
) -> Status
    ensures gives { RunGives result (map string_bytes words.now)
        (record { source = S.seen source.old; sink = K.seen sink.old })
        (record { source = S.seen source.new; sink = K.seen sink.new }) }
    ensures complete { IsComplete result (map string_bytes words.now)
        (record { source = S.seen source.old; sink = K.seen sink.old })
        (record { source = S.seen source.new; sink = K.seen sink.new }) }
    ensures unread { (SayACommand (map string_bytes words.now) → ⊥) → source.new ≡ source.old }
    ensures untouched { (number budget : ℕ) →
        IsCommand (map string_bytes words.now) (Sample number budget) → source.new ≡ source.old }
{
    match command_of(alloc, words) {
        Ok(Some(Command::Report { budget })) => report(alloc, budget, source, sink),
        Ok(Some(Command::Certify { budget })) => certify(alloc, budget, source, sink),
        Ok(Some(Command::Check)) => check(alloc, source, sink),
        Ok(Some(Command::Sample { number, budget })) => {
            summarize_sample(alloc, number, budget, sink)
        }
        Ok(Some(Command::Prove { part, budget })) => prove(alloc, part, budget, source, sink),
        Ok(Some(Command::Verify { part })) => parts::verify(alloc, part, source, sink),
        Ok(None) => output::usage(sink),
        Err(_) => Status::NoMemory,
    }
}

// Ends a run that read no network.
fn end_without_network<K: Sink>(stop: Stop, sink: &mut K) -> Status
    ensures { StopGives stop result (K.seen sink.old) (K.seen sink.new) }
{
    match stop {
        Stop::Fault { code, line } => output::refuse(code, line, sink),
        Stop::Failed => Status::ReadFault,
        Stop::NoMemory => Status::NoMemory,
    }
}

// Reads a network text, and writes its report or why it is refused.
fn report<S: Source, K: Sink>(alloc: Global, budget: u32, source: &mut S, sink: &mut K) -> Status
    requires some { 1 ≤ budget }
    requires most { budget ≤ MAX_BUDGET }
    ensures { (words : List (List ℕ)) → IsCommand words (Report budget) → RunGives result words
        (record { source = S.seen source.old; sink = K.seen sink.old })
        (record { source = S.seen source.new; sink = K.seen sink.new }) }
{
    match read_network(alloc, source) {
        Ok(net) => output::report(alloc, &net, budget, sink),
        Err(stop) => end_without_network(stop, sink),
    }
}

// Reads a network text, and writes a document of it or why it is refused.
fn certify<S: Source, K: Sink>(alloc: Global, budget: u32, source: &mut S, sink: &mut K) -> Status
    requires some { 1 ≤ budget }
    requires most { budget ≤ MAX_BUDGET }
    ensures { (words : List (List ℕ)) → IsCommand words (Certify budget) → RunGives result words
        (record { source = S.seen source.old; sink = K.seen sink.old })
        (record { source = S.seen source.new; sink = K.seen sink.new }) }
{
    match read_network(alloc, source) {
        Ok(net) => output::certify(alloc, &net, budget, sink),
        Err(stop) => end_without_network(stop, sink),
    }
}

// Reads a network text, and writes a document of a part on it or why it is refused.
fn prove<S: Source, K: Sink>(
    alloc: Global,
    part: PartName,
    budget: u32,
    source: &mut S,
    sink: &mut K,
) -> Status
    requires some { 1 ≤ budget }
    requires most { budget ≤ MAX_BUDGET }
    ensures { (words : List (List ℕ)) → IsCommand words (Prove part budget) → RunGives result words
        (record { source = S.seen source.old; sink = K.seen sink.old })
        (record { source = S.seen source.new; sink = K.seen sink.new }) }
{
    match read_network(alloc, source) {
        Ok(net) => parts::prove(alloc, part, &net, budget, sink),
        Err(stop) => end_without_network(stop, sink),
    }
}

// Reads a document to its end and checks it, and writes the report of what it says or why it is rejected.
fn check<S: Source, K: Sink>(alloc: Global, source: &mut S, sink: &mut K) -> Status
    ensures { (words : List (List ℕ)) → IsCommand words Check → RunGives result words
        (record { source = S.seen source.old; sink = K.seen sink.old })
        (record { source = S.seen source.new; sink = K.seen sink.new }) }
{
    good_documents_are_read();
    answers_are_as_their_records();
    match check_document(alloc, source) {
        Ok(accepted) => output::accept(&accepted, sink),
        Err(CheckStop::Rejected { code, line }) => output::reject(code, line, sink),
        Err(CheckStop::Failed) => Status::ReadFault,
        Err(CheckStop::NoMemory) => Status::NoMemory,
    }
}
