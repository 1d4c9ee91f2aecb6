ghost use Rattle.std.specs.Prelude.{◌≡◌, ◌≤◌, ◌+◌, ◌↔◌, [], ◌∷◌, IsTrue, length, pos, IfOk, OnOk};
ghost use Rattle.std.specs.List.{AllByRecursion};
ghost use Rattle.crn_vec.specs.declared.limits.TheConstants.{MAX_COMPLEXES, MAX_REACTIONS};
ghost use Rattle.crn_cert.specs.Questions.{Earlier, Q12, on};
ghost use Rattle.crn_ctext.specs.Records.{Record};
ghost use Rattle.crn_ctext.specs.Blocks.{asks, place_of};
ghost use Rattle.crn_ctext.specs.Expect.{sizes_of, tag_of};
ghost use Rattle.crn_ctext.specs.Meaning.{has_vector};
ghost use Rattle.crn_check.specs.Facts.{HoldsOn, asked};
ghost use Rattle.crn_check.specs.Check.{IsBuilt};
ghost use Rattle.crn_reading.specs.Steps.{IsVersion, GoesOn, StepIs};
ghost use Rattle.crn_document.specs.Inner.Records.{Expects};
ghost use Rattle.crn_document.specs.Inner.Heads.{FitsCounts, FitsSignals, HasClassSizes, IsHead, head_forms};
ghost use Rattle.crn_document.specs.Facts.{IsKnownFor};

use crate::linkage::linkage_of;
use crate::parts::counts_of;
use crate::sizes::head_sizes;
use crate::strong::{pairs_in, strong_of};
use crn_cert::Verdict;
use crn_check::Facts;
use crn_ctext::{Due, Expect};
use crn_io::{NoMemory, Source};
use crn_net::Network;
use crn_reading::{CheckStop, Reading, next_record};
use crn_vec::Nums;
use std::alloc::Global;

// What else the forms of the head of question 13 depend on: whether question 12 gives a vector and, if it does, the
// number of linked pairs within terminal classes. Otherwise the number is 0 and there is no vector.
#[derive(Clone, Copy)]
struct SignalSizes {
    pairs: u32,
    vector: bool,
}

// Whether question 12 gives a vector.
fn gives_vector(facts: &Facts) -> bool
    requires { HoldsOn facts.now.earlier 12 }
    ensures { result ≡ has_vector (on facts.now.earlier Q12) }
{
    match facts.verdict(12) {
        Verdict::YesVec { .. } => true,
        _ => false,
    }
}

// These sizes, as they are known before the block of a question.
fn signal_sizes(
    alloc: Global,
    net: &Network,
    facts: &Facts,
    question: u32,
) -> Result<SignalSizes, NoMemory>
    requires built { IsBuilt question }
    requires known { IsKnownFor net.now question facts.now }
    ensures { IfOk result (FitsSignals net.now facts.now.earlier question) }
{
    if question == 13 && gives_vector(facts) {
        let pairs = pairs_in(alloc, net, &strong_of(facts))?;
        return Ok(SignalSizes {
            pairs: pairs.as_slice().len() as u32,
            vector: true,
        });
    }
    Ok(SignalSizes {
        pairs: 0,
        vector: false,
    })
}

// Whether the forms of the head of a question rest on how many linkage classes there are.
fn has_class_sizes(question: u32) -> bool
    ensures { IsTrue result ↔ HasClassSizes question }
{
    question == 6 || question == 10 || question == 11 || question == 12
}

// How many reactions each linkage class has, for a question whose head rests on that; as many zeros, if it rests on how
// many classes there are; and else nothing.
fn class_sizes(alloc: Global, net: &Network, facts: &Facts, question: u32) -> Result<Nums, NoMemory>
    requires built { IsBuilt question }
    requires known { IsKnownFor net.now question facts.now }
    ensures { IfOk result (λ made. FitsCounts net.now facts.now.earlier question made.list) }
{
    if has_class_sizes(question) {
        let linkage = linkage_of(net, facts, question);
        if question == 6 {
            let counts = counts_of(alloc, net, linkage.labels, linkage.count)?;
            return Ok(counts);
        }
        let zeros = vec![in alloc; 0; linkage.count as usize]?;
        return Ok(Nums::from_vec(zeros));
    }
    let none = Nums::with_room(alloc, 0)?;
    Ok(none)
}

// What is due if the head of a question is.
fn head_expect<'a>(
    version: u32,
    after_tree: bool,
    net: &Network,
    class_reactions: &'a [u32],
    signals: SignalSizes,
    question: u32,
) -> Expect<'a>
    requires version { IsVersion version }
    requires built { IsBuilt question }
    requires few { length class_reactions.now ≤ MAX_COMPLEXES }
    requires each { AllByRecursion (λ r. r ≤ MAX_REACTIONS) class_reactions.now }
    requires pairs { signals.pairs ≤ MAX_REACTIONS }
    ensures due { (earlier : Earlier)
        → FitsCounts net.now earlier question class_reactions.now
        → FitsSignals net.now earlier question signals
        → Expects result version after_tree (head_forms net.now earlier question) }
    ensures tag { (earlier : Earlier) (r : Record)
        → FitsCounts net.now earlier question class_reactions.now
        → FitsSignals net.now earlier question signals
        → tag_of result.due (sizes_of result.sizes) r
        ≡ pos (place_of (head_forms net.now earlier question) r.words) ∷ [] }
{
    let sizes = head_sizes(net, class_reactions, signals.pairs, signals.vector);
    Expect {
        due: Due::Head(question),
        version,
        after_tree,
        sizes,
    }
}

// The next line, which has to be the head of this question, after a tree or not.
pub(crate) fn next_head<S: Source>(
    source: &mut S,
    at: &mut Reading,
    net: &Network,
    facts: &Facts,
    question: u32,
    after_tree: bool,
) -> Result<(), CheckStop>
    requires goes { GoesOn at.old }
    requires built { IsBuilt question }
    requires known { IsKnownFor net.now question facts.now }
    ensures step { let forms = head_forms net.now facts.now.earlier question in
        StepIs (asks at.old.version at.old.line after_tree forms)
        (λ _ h. IsHead net.now facts.now.earlier question at.new.numbers.list h)
        result at.old at.new (S.seen source.old) (S.seen source.new) }
    ensures goes { OnOk result (GoesOn at.new) }
    ensures line { OnOk result (at.new.line ≡ at.old.line + 1) }
    ensures version { at.new.version ≡ at.old.version }
{
    let counts = class_sizes(at.alloc, net, facts, question)?;
    let signals = signal_sizes(at.alloc, net, facts, question)?;
    let classes = counts.as_slice();
    let expect = head_expect(at.version, after_tree, net, classes, signals, question);
    next_record(source, at, &expect)
}
