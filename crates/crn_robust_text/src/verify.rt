ghost use Rattle.std.specs.Prelude.{◌≡◌, ◌↔◌, List, [], OnOk, IfOk, IsTrue};
ghost use Rattle.crn_vec.specs.Confluence.{HasConfluenceLine};
ghost use Rattle.crn_vec.specs.Network.{Net, IsNetwork};
ghost use Rattle.crn_check.specs.Facts.{AreFactsOf};
ghost use Rattle.crn_ctext.specs.Blocks.{asks_blocks};
ghost use Rattle.crn_ctext.specs.Meaning.{meaning};
ghost use Rattle.crn_ctext.specs.Parts.{part_course, part_ending};
ghost use Rattle.crn_document.specs.Facts.{IsAfterFacts};
ghost use Rattle.crn_reading.specs.Steps.{GoesOn, IsNew, StepIs};
ghost use Rattle.crn_reading.specs.Ending.{EndStepIs, LastIs};
ghost use Rattle.crn_reading.specs.Reads.{IsAnsweredBy, ReadingGives};
ghost use Rattle.crn_robust.specs.declared.robust.Robust.{Robust as Said};
ghost use Rattle.crn_robust.specs.declared.robust.Robust.TheVariants.{Rests};
ghost use Rattle.crn_robust_text.specs.Document.{IsReadAs, asks_robust, before, part, rests_on, words};
ghost use Rattle.crn_robust_text.specs.Inner.LinesRead.{HoldsBlocks, IsTrueVerdict, ReadsVerdict};

use crate::lines::next_last;
use crate::verdict::{next_verdict, says_line};
use crn_check::Facts;
use crn_document::next_fact;
use crn_io::Source;
use crn_net::Network;
use crn_reading::{CheckStop, Reading, begin, no_more, read_part_head};
use crn_robust::Robust;
use std::alloc::Global;

/// What an accepted document on robustness says.
#[derive(Drop)]
pub struct Verified {
    /// Its network.
    pub net: Network,
    /// Its verdict.
    pub answer: Robust,
    /// Whether the confluence space of the network is a line; no if the verdict rests on an open rank.
    pub line: bool,
}

// The blocks of questions 1, 2 and 5, as facts.
fn next_facts<S: Source>(
    source: &mut S,
    at: &mut Reading,
    net: &Network,
) -> Result<Facts, CheckStop>
    requires goes { GoesOn at.old }
    requires version { at.old.version ≡ 1 }
    requires network { IsNetwork net.now }
    ensures step { StepIs (asks_blocks meaning 1 [] rests_on (before net.now at.old.line))
        (λ facts y. IsAfterFacts net.now facts.earlier at.new.line y)
        result at.old at.new (S.seen source.old) (S.seen source.new) }
    ensures goes { OnOk result (GoesOn at.new) }
    ensures facts { IfOk result (AreFactsOf net.now) }
    ensures holds { IfOk result (λ facts. HoldsBlocks facts.earlier) }
{
    let none = Facts::new(at.alloc, net)?;
    let first = next_fact(source, at, net, none, 1)?;
    let second = next_fact(source, at, net, first, 2)?;
    next_fact(source, at, net, second, 5)
}

// The lines after the network, but for the last one.
fn next_answer<S: Source>(
    source: &mut S,
    at: &mut Reading,
    net: &Network,
) -> Result<Robust, CheckStop>
    requires goes { GoesOn at.old }
    requires version { at.old.version ≡ 1 }
    requires network { IsNetwork net.now }
    ensures step { ReadsVerdict (asks_robust net.now at.old.line) result at.old at.new
        (S.seen source.old) (S.seen source.new) }
    ensures goes { OnOk result (GoesOn at.new) }
    ensures holds { IfOk result (IsTrueVerdict net.now) }
{
    let facts = next_facts(source, at, net)?;
    next_verdict(source, at, net, &facts)
}

// The last line, after which nothing is left.
fn next_end<S: Source>(source: &mut S, at: &mut Reading) -> Result<(), CheckStop>
    requires { GoesOn at.old }
    ensures { (read : Net × Said) → EndStepIs (part_ending words at.old.line read) read
        result at.old (S.seen source.old) (S.seen source.new) }
{
    next_last(source, at)?;
    no_more(source, at)
}

// A whole document.
fn next_document<S: Source>(source: &mut S, at: &mut Reading) -> Result<Verified, CheckStop>
    requires { IsNew at.old }
    ensures step { LastIs (part_course part) IsReadAs result at.old
        (S.seen source.old) (S.seen source.new) }
    ensures line { IfOk result (λ v. IsTrue v.line
        ↔ ((v.answer ≡ Rests → ⊥) × HasConfluenceLine v.net)) }
{
    let net = read_part_head(source, at, b"robust")?;
    let answer = next_answer(source, at, &net)?;
    next_end(source, at)?;
    let line = says_line(&answer);
    Ok(Verified { net, answer, line })
}

/// Reads the document of an answer on robustness to its end and checks it, or names its first fault.
pub fn verify_robust<S: Source>(alloc: Global, source: &mut S) -> Result<Verified, CheckStop>
    ensures gives { ReadingGives (part_course part) IsReadAs result
        (S.seen source.old) (S.seen source.new) }
    ensures answered { IsAnsweredBy (part_course part) IsReadAs result
        (S.seen source.old) (S.seen source.new) }
    ensures line { IfOk result (λ v. IsTrue v.line
        ↔ ((v.answer ≡ Rests → ⊥) × HasConfluenceLine v.net)) }
{
    let mut at = begin(alloc)?;
    next_document(source, &mut at)
}
