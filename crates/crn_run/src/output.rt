ghost use Rattle.std.specs.Prelude.{◌≡◌, ◌↔◌, ◌≤◌, List, [], IfOk, IsTrue};
ghost use Rattle.crn_vec.specs.declared.limits.TheConstants.{MAX_BUDGET};
ghost use Rattle.crn_cert.specs.declared.answer.Answer.{Answer};
ghost use Rattle.crn_cert.specs.Answers.{verdicts_of};
ghost use Rattle.crn_cert.specs.Built.{built};
ghost use Rattle.crn_cert.specs.Formed.{AreFormed};
ghost use Rattle.crn_cert.specs.Questions.{IsOpen};
ghost use Rattle.crn_cert.specs.Valid.{AreValid};
ghost use Rattle.crn_cert.specs.Shares.{share_of as share_of_answers};
ghost use Rattle.crn_cert.specs.TreeSizes.{HaveFewNodes};
ghost use Rattle.crn_io.specs.declared.lines.TheConstants.{MAX_SHARED};
ghost use Rattle.crn_ctext.specs.Documents.{FitsShare, share_of};
ghost use Rattle.crn_ctext.specs.Shares.{as_share};
ghost use Rattle.crn_ctext.specs.Judged.{IsGood};
ghost use Rattle.crn_ctext.specs.Linked.{records_of};
ghost use Rattle.crn_cert.specs.FormedVerdicts.{AreFormedVerdicts};
ghost use Rattle.crn_render.specs.Faults.{IsDocumentCode, usage_line};
ghost use Rattle.crn_render.specs.Length.{Has32Bits};
ghost use Rattle.crn_render.specs.Report.{render};
ghost use Rattle.crn_run.specs.Run.{AreLeftBy, HasOpen, certificate, refused_line, rejected_line};
ghost use Rattle.crn_run.specs.Parts.{IsLeftBy};
ghost use Rattle.crn_run.specs.Inner.Steps.{DocumentStopGives, HasNamedCode, LineGives, NetworkGives};
ghost use Rattle.crn_run.specs.declared.words.Command.TheVariants.{Report, Certify};
ghost use Rattle.crn_run.specs.declared.status.Status.TheVariants.{Done, Refused, Rejected, Usage};

use crate::status::Status;
use crn_cert::{Answers, Verdict, Verdicts, share_of};
use crn_ctext::{shares_are_of_records, write_document2, written_documents_are_good};
use crn_document::{Accepted, CheckStop};
use crn_io::Sink;
use crn_net::Network;
use crn_render::{Printed, write_fault, write_report};
use crn_solve::{solve, solve_verdicts};
use crn_text::TextCode;
use std::alloc::Global;

/// Writes how the program is used. Takes no memory.
pub(crate) fn usage<K: Sink>(sink: &mut K) -> Status
    ensures { LineGives Usage result usage_line (K.seen sink.old) (K.seen sink.new) }
{
    match write_fault(&Printed::Usage, sink) {
        Ok(()) => Status::Usage,
        Err(_) => Status::WriteFault,
    }
}

/// Writes the line that says why a network text is refused. Takes no memory.
pub(crate) fn refuse<K: Sink>(code: TextCode, line: u32, sink: &mut K) -> Status
    ensures { LineGives Refused result (refused_line code line)
        (K.seen sink.old) (K.seen sink.new) }
{
    let code = code.number();
    match write_fault(&Printed::Refused { code, line }, sink) {
        Ok(()) => Status::Refused,
        Err(_) => Status::WriteFault,
    }
}

/// Writes the line that says why a document is rejected. Takes no memory.
pub(crate) fn reject<K: Sink>(code: u32, line: u32, sink: &mut K) -> Status
    requires { IsDocumentCode code }
    ensures gives { LineGives Rejected result (rejected_line code line)
        (K.seen sink.old) (K.seen sink.new) }
    ensures line_is_short { Has32Bits line }
    ensures code_is_short { Has32Bits code }
{
    match write_fault(&Printed::Rejected { code, line }, sink) {
        Ok(()) => Status::Rejected,
        Err(_) => Status::WriteFault,
    }
}

/// Ends a run that read no document: it writes why it is rejected, if it is. Takes no memory.
pub(crate) fn end_without_document<K: Sink>(stop: CheckStop, sink: &mut K) -> Status
    requires { HasNamedCode stop }
    ensures { DocumentStopGives stop result (K.seen sink.old) (K.seen sink.new) }
{
    match stop {
        CheckStop::Rejected { code, line } => reject(code, line, sink),
        CheckStop::Failed => Status::ReadFault,
        CheckStop::NoMemory => Status::NoMemory,
    }
}

/// Writes the report of what an accepted document says. Takes no memory.
pub(crate) fn accept<K: Sink>(accepted: &Accepted, sink: &mut K) -> Status
    requires { AreFormedVerdicts accepted.now.net [] built accepted.now.verdicts }
    ensures { LineGives Done result (render built accepted.now.net accepted.now.verdicts)
        (K.seen sink.old) (K.seen sink.new) }
{
    match write_report(&accepted.net, &accepted.verdicts, sink) {
        Ok(()) => Status::Done,
        Err(_) => Status::WriteFault,
    }
}

// Whether a verdict is open.
fn is_open(verdict: &Verdict) -> bool
    ensures { IsTrue result ↔ IsOpen verdict.now }
{
    matches!(verdict, Verdict::Unknown(_))
}

// Whether some answer is open.
fn has_open(answers: &Answers) -> bool
    ensures { IsTrue result ↔ HasOpen (verdicts_of answers.now) }
{
    for question in 0..answers.len() {
        if is_open(&answers.get(question + 1).verdict) {
            return true;
        }
    }
    false
}

// Whether some verdict of these is open.
fn some_open(verdicts: &Verdicts) -> bool
    ensures { IsTrue result ↔ HasOpen verdicts.now }
{
    for question in 0..verdicts.len() {
        if is_open(verdicts.get(question + 1)) {
            return true;
        }
    }
    false
}

/// The status of a run that wrote answers, by whether some of them is open.
pub(crate) fn status_by(is_left: bool) -> Status
    ensures { IsLeftBy (IsTrue is_left) result }
{
    if is_left {
        Status::OpenLeft
    } else {
        Status::Done
    }
}

/// The status of a run that wrote these answers.
pub(crate) fn status_of(answers: &Answers) -> Status
    ensures { AreLeftBy result answers.now }
{
    let is_left = has_open(answers);
    status_by(is_left)
}

// The status of a run that wrote these verdicts.
fn status_of_verdicts(verdicts: &Verdicts) -> Status
    ensures { (answers : List Answer) → verdicts.now ≡ verdicts_of answers →
        AreLeftBy result answers }
{
    let is_left = some_open(verdicts);
    status_by(is_left)
}

/// Answers the questions on a network, and writes the report. Takes memory, before it writes.
///
/// A report says verdicts alone, so no proof is kept.
pub(crate) fn report<K: Sink>(alloc: Global, net: &Network, budget: u32, sink: &mut K) -> Status
    requires some { 1 ≤ budget }
    requires most { budget ≤ MAX_BUDGET }
    ensures { NetworkGives (Report budget) result net.now (K.seen sink.old) (K.seen sink.new) }
{
    let verdicts = match solve_verdicts(alloc, net, budget) {
        Ok(verdicts) => verdicts,
        Err(_) => return Status::NoMemory,
    };
    let whole = status_of_verdicts(&verdicts);
    match write_report(net, &verdicts, sink) {
        Ok(()) => whole,
        Err(_) => Status::WriteFault,
    }
}

/// What is written for a network and valid answers to its questions, with the share of the answers, is a good document
/// if no tree of theirs has more nodes than a budget may allow.
pub(crate) fn certificate_is_good(net: &Network, answers: &Answers)
    requires formed { AreFormed net.now [] built answers.now }
    requires valid { AreValid net.now [] built answers.now }
    requires few { HaveFewNodes MAX_BUDGET answers.now }
    ensures share { share_of (records_of net.now answers.now)
        ≡ as_share (share_of_answers MAX_SHARED answers.now) }
    ensures fits { FitsShare (records_of net.now answers.now)
        (share_of (records_of net.now answers.now)) }
    ensures good { IsGood (certificate net.now answers.now) }
{
    let _ = net.species();
    shares_are_of_records();
    written_documents_are_good();
}

/// Answers the questions on a network, and writes the document of the answers. Takes memory, before it writes.
///
/// The lists of equal cuts are written once.
pub(crate) fn certify<K: Sink>(alloc: Global, net: &Network, budget: u32, sink: &mut K) -> Status
    requires some { 1 ≤ budget }
    requires most { budget ≤ MAX_BUDGET }
    ensures { NetworkGives (Certify budget) result net.now (K.seen sink.old) (K.seen sink.new) }
{
    let answers = match solve(alloc, net, budget) {
        Ok(answers) => answers,
        Err(_) => return Status::NoMemory,
    };
    let whole = status_of(&answers);
    let share = match share_of(alloc, &answers) {
        Ok(share) => share,
        Err(_) => return Status::NoMemory,
    };
    certificate_is_good(net, &answers);
    match write_document2(net, &answers, &share, sink) {
        Ok(()) => whole,
        Err(_) => Status::WriteFault,
    }
}
