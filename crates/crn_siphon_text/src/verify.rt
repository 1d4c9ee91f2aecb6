ghost use Rattle.std.specs.Prelude.{◌≡◌, ◌≤◌, ◌↔◌, ℤ, pos, List, OnOk, IfOk, IsTrue, length};
ghost use Rattle.crn_vec.specs.Network.{Net};
ghost use Rattle.crn_ctext.specs.Parts.{part_course, part_ending};
ghost use Rattle.crn_reading.specs.Steps.{GoesOn, IsNew};
ghost use Rattle.crn_reading.specs.Ending.{EndStepIs, LastIs};
ghost use Rattle.crn_reading.specs.Reads.{IsAnsweredBy, ReadingGives};
ghost use Rattle.crn_siphon_check.specs.Siphons.{set_of as marked};
ghost use Rattle.crn_siphon_check.specs.declared.answer.Outcome.{Outcome};
ghost use Rattle.crn_siphon_text.specs.Document.{IsOutcomeOf, asks_cover, asks_no, asks_persist, asks_yes, part, words};
ghost use Rattle.crn_siphon_text.specs.Inner.LinesRead.{ReadsOutcome};

use crate::lines::{next_denial, next_last, next_law, next_multipliers, next_verdict};
use crate::tree::next_tree;
use crate::weights::covers;
use crn_check::{is_conservation, rules_out_conservation};
use crn_io::Source;
use crn_net::Network;
use crn_reading::{CheckStop, Reading, begin, no_more, read_part_head};
use crn_siphon_check::{Outcome, is_siphon};
use crn_vec::NoMemory;
use std::alloc::Global;

// After a yes: a law with positive weights, and then the tree.
fn next_yes<S: Source>(
    source: &mut S,
    at: &mut Reading,
    net: &Network,
) -> Result<Outcome, CheckStop>
    requires { GoesOn at.old }
    ensures step { ReadsOutcome (asks_yes net.now at.old.line) result at.old at.new
        (S.seen source.old) (S.seen source.new) }
    ensures goes { OnOk result (GoesOn at.new) }
{
    next_law(source, at, net)?;
    if !is_conservation(net, at.numbers.as_slice()) {
        return Err(CheckStop::Rejected {
            code: 53,
            line: at.line - 1,
        });
    }
    let mut prefix = Vec::with_capacity(at.alloc, net.species())?;
    next_tree(source, at, net, &mut prefix)?;
    Ok(Outcome::Yes)
}

// Whether a mark is that of a member.
fn is_member(mark: &i128) -> bool
    ensures { IsTrue result ↔ mark.now ≡ pos 1 }
{
    *mark == 1
}

// The set of the species that are marked with 1.
fn set_of(alloc: Global, marks: &[i128]) -> Result<Vec<bool>, NoMemory>
    ensures { IfOk result (λ set. set.items ≡ marked marks.now) }
{
    let mut set = Vec::with_capacity(alloc, marks.len())?;
    for s in 0..marks.len() {
        set.push(is_member(&marks[s]))?;
    }
    Ok(set)
}

// After the marks of this set: the numbers that cover it, and then the tests of both.
fn next_cover<S: Source>(
    source: &mut S,
    at: &mut Reading,
    net: &Network,
    set: &[bool],
) -> Result<Outcome, CheckStop>
    requires goes { GoesOn at.old }
    requires counted { 1 ≤ at.old.line }
    requires set { length set.now ≡ length net.now.names }
    ensures step { (marks : List ℤ) → marked marks ≡ set.now →
        ReadsOutcome (asks_cover net.now at.old.line marks) result at.old at.new
        (S.seen source.old) (S.seen source.new) }
    ensures goes { OnOk result (GoesOn at.new) }
{
    next_multipliers(source, at, net)?;
    if !is_siphon(net, set) {
        return Err(CheckStop::Rejected {
            code: 51,
            line: at.line - 2,
        });
    }
    if !covers(net, set, at.numbers.as_slice()) {
        return Err(CheckStop::Rejected {
            code: 52,
            line: at.line - 1,
        });
    }
    Ok(Outcome::No)
}

// After a no: numbers that exclude every law with positive weights, or a siphon and what covers it.
fn next_no<S: Source>(source: &mut S, at: &mut Reading, net: &Network) -> Result<Outcome, CheckStop>
    requires { GoesOn at.old }
    ensures step { ReadsOutcome (asks_no net.now at.old.line) result at.old at.new
        (S.seen source.old) (S.seen source.new) }
    ensures goes { OnOk result (GoesOn at.new) }
{
    if next_denial(source, at, net)? == 6 {
        let set = set_of(at.alloc, at.numbers.as_slice())?;
        return next_cover(source, at, net, &set);
    }
    if !rules_out_conservation(net, at.numbers.as_slice()) {
        return Err(CheckStop::Rejected {
            code: 53,
            line: at.line - 1,
        });
    }
    Ok(Outcome::No)
}

// The lines after the network, but for the last one.
fn next_answer<S: Source>(
    source: &mut S,
    at: &mut Reading,
    net: &Network,
) -> Result<Outcome, CheckStop>
    requires { GoesOn at.old }
    ensures step { ReadsOutcome (asks_persist net.now at.old.line) result at.old at.new
        (S.seen source.old) (S.seen source.new) }
    ensures goes { OnOk result (GoesOn at.new) }
{
    let place = next_verdict(source, at, net)?;
    if place == 0 {
        return next_yes(source, at, net);
    }
    if place == 1 {
        return next_no(source, at, net);
    }
    Ok(Outcome::Undecided)
}

// The last line, after which nothing is left.
fn next_end<S: Source>(source: &mut S, at: &mut Reading) -> Result<(), CheckStop>
    requires { GoesOn at.old }
    ensures { (read : Net × Outcome) → EndStepIs (part_ending words at.old.line read) read
        result at.old (S.seen source.old) (S.seen source.new) }
{
    next_last(source, at)?;
    no_more(source, at)
}

// A whole document.
fn next_document<S: Source>(source: &mut S, at: &mut Reading) -> Result<Outcome, CheckStop>
    requires { IsNew at.old }
    ensures { LastIs (part_course part) IsOutcomeOf result at.old
        (S.seen source.old) (S.seen source.new) }
{
    let net = read_part_head(source, at, b"persist")?;
    let outcome = next_answer(source, at, &net)?;
    next_end(source, at)?;
    Ok(outcome)
}

/// Reads the document of an answer on persistence to its end and checks it, or names its first fault.
///
/// It holds one line, the network, and of a tree the prefix that is due.
pub fn verify_persist<S: Source>(alloc: Global, source: &mut S) -> Result<Outcome, CheckStop>
    ensures gives { ReadingGives (part_course part) IsOutcomeOf result
        (S.seen source.old) (S.seen source.new) }
    ensures answered { IsAnsweredBy (part_course part) IsOutcomeOf result
        (S.seen source.old) (S.seen source.new) }
{
    let mut at = begin(alloc)?;
    next_document(source, &mut at)
}
