ghost use Rattle.std.specs.Prelude.{◌≡◌, ◌≤◌, [], length, negsuc, pos, IfOk, OnOk};
ghost use Rattle.crn_io.specs.declared.lines.TheConstants.{MAX_SHARED};
ghost use Rattle.crn_vec.specs.NetSignals.{HasNoSignal, IsShapeOf};
ghost use Rattle.crn_cert.specs.declared.answer.Verdict.TheVariants.{No};
ghost use Rattle.crn_cert.specs.Questions.{Q4, Q12, Q13, on, vector_given};
ghost use Rattle.crn_cert.specs.Says.{IsTrueOf, IsTurn};
ghost use Rattle.crn_cert.specs.Valid.{HasVector, OfVector};
ghost use Rattle.crn_check.specs.Facts.{HoldsOn};
ghost use Rattle.crn_ctext.specs.Blocks.{asks_tree, asks_trees};
ghost use Rattle.crn_ctext.specs.Meaning.{is_yes, signal_problem, signal_problems};
ghost use Rattle.crn_document.specs.Inner.Blocks.{IsReadyFor};
ghost use Rattle.crn_document.specs.Inner.Heads.{known_of};
ghost use Rattle.crn_document.specs.Inner.Signals.{vector_or_none};
ghost use Rattle.crn_reading.specs.Steps.{GoesOn, StepIs};

use crate::block::Checked;
use crate::strong::strong_of;
use crate::tree::next_tree;
use crn_cert::Verdict;
use crn_check::Facts;
use crn_ctree::{Problem, SharedTable};
use crn_io::{NoMemory, Source};
use crn_net::Network;
use crn_reading::{CheckStop, Reading};
use crn_shape::Shape;
use std::alloc::Global;

// The confluence vector, if question 12 gives one.
fn vector_of(facts: &Facts) -> &[i128]
    requires { HoldsOn facts.now.earlier 12 }
    ensures { result.now ≡ vector_or_none (vector_given (on facts.now.earlier Q12)) }
{
    match facts.verdict(12) {
        Verdict::YesVec { vector } => vector.as_slice(),
        _ => &[],
    }
}

/// The shape of the network and of the vector of question 12 or, for the turn -1, of its negative.
pub(crate) fn shape_of<'a>(
    alloc: Global,
    net: &'a Network,
    checked: &Checked,
    turn: i32,
) -> Result<Shape<'a>, NoMemory>
    requires ready { IsReadyFor net.now 13 checked.now }
    requires vector { HasVector checked.now.facts.earlier }
    requires turn { IsTurn turn }
    ensures { IfOk result
        (λ made. OfVector checked.now.facts.earlier turn (λ g. IsShapeOf net.now g made)) }
{
    let strong = strong_of(&checked.facts);
    let vector = vector_of(&checked.facts);
    let mut shape = Shape::new(
        alloc,
        net,
        strong.labels,
        strong.exits,
        &checked.sides,
        vector,
    )?;
    if turn == -1 {
        shape.negate();
    }
    Ok(shape)
}

// The tree that shows that the vector of question 12 or, for the turn -1, its negative has no signal.
fn next_signal_tree<S: Source>(
    source: &mut S,
    at: &mut Reading,
    net: &Network,
    table: &SharedTable,
    checked: &Checked,
    turn: i32,
) -> Result<(), CheckStop>
    requires goes { GoesOn at.old }
    requires few { length table.now ≤ MAX_SHARED }
    requires ready { IsReadyFor net.now 13 checked.now }
    requires vector { HasVector checked.now.facts.earlier }
    requires turn { IsTurn turn }
    ensures step { let p = signal_problem (known_of net.now checked.now.facts.earlier) turn in
        StepIs (asks_tree at.old.version table.now p p.choices [] at.old.line)
        (λ _ line. line ≡ at.new.line)
        result at.old at.new (S.seen source.old) (S.seen source.new) }
    ensures shown { OnOk result
        (OfVector checked.now.facts.earlier turn (λ g. HasNoSignal net.now g)) }
    ensures goes { OnOk result (GoesOn at.new) }
    ensures version { at.new.version ≡ at.old.version }
{
    let shape = shape_of(at.alloc, net, checked, turn)?;
    next_tree(source, at, net, table, Problem::Signals(&shape))
}

// Whether the network is weakly reversible, by the verdict on question 4.
fn is_weak(facts: &Facts) -> bool
    requires { HoldsOn facts.now.earlier 4 }
    ensures { result ≡ is_yes (on facts.now.earlier Q4) }
{
    match facts.verdict(4) {
        Verdict::Yes | Verdict::YesVec { .. } => true,
        _ => false,
    }
}

/// The trees that show a no to question 13: for the vector of question 12 and, if the network is weakly reversible, for
/// its negative.
pub(crate) fn next_signal_trees<S: Source>(
    source: &mut S,
    at: &mut Reading,
    net: &Network,
    table: &SharedTable,
    checked: &Checked,
) -> Result<(), CheckStop>
    requires goes { GoesOn at.old }
    requires few { length table.now ≤ MAX_SHARED }
    requires ready { IsReadyFor net.now 13 checked.now }
    requires vector { HasVector checked.now.facts.earlier }
    ensures step { let known = known_of net.now checked.now.facts.earlier in
        let due = signal_problems known (is_yes (on known.earlier Q4)) in
        StepIs (asks_trees at.old.version table.now due at.old.line)
        (λ _ line. line ≡ at.new.line)
        result at.old at.new (S.seen source.old) (S.seen source.new) }
    ensures shown { OnOk result (IsTrueOf net.now Q13 No) }
    ensures goes { OnOk result (GoesOn at.new) }
    ensures version { at.new.version ≡ at.old.version }
{
    next_signal_tree(source, at, net, table, checked, 1)?;
    if is_weak(&checked.facts) {
        return next_signal_tree(source, at, net, table, checked, -1);
    }
    Ok(())
}
