ghost use Rattle.std.specs.Prelude.{◌≡◌, ◌↔◌, ◌⊎◌, IsTrue, length};
ghost use Rattle.crn_cert.specs.Formed.{HeadMayBe, IsFormedOf};
ghost use Rattle.crn_cert.specs.Data.{IsWalkOf};
ghost use Rattle.crn_cert.specs.Questions.{Q11};
ghost use Rattle.crn_cert.specs.Ranges.{AreFrom, IsFrom};
ghost use Rattle.crn_cert.specs.Valid.{IsWithinTerminal, ends_at, regular_head, regular_rows};
ghost use Rattle.crn_check.specs.Check.{Judges};
ghost use Rattle.crn_check.specs.Facts.{AreFactsOf, HoldsOn};
ghost use Rattle.crn_check.specs.Inner.Tests.{IsAllowed, allowed_tests, walk_tests};
ghost use Rattle.crn_shape.specs.Pairs.{is_within};

use crate::facts::Facts;
use crate::fault::CheckFault;
use crate::kinds::{is_no, is_open, is_yes};
use crate::one::check_split;
use crate::sides::check_sides;
use crate::terminals::{exits_in, have_one_each};
use crate::ways::is_way_round;
use crate::weak::labels_in;
use crn_cert::{Proof, Verdict};
use crn_net::Network;

// Whether a reaction, counted from 1, joins two complexes of one strong class, which has no exit.
fn is_within(net: &Network, strong: &[u32], exits: &[u32], reaction: u32) -> bool
    requires strong { AreFrom (length net.now.complexes) 1 (length exits.now) strong.now }
    requires number { IsFrom 1 (length net.now.reactions) reaction }
    ensures { result ≡ is_within strong.now exits.now (ends_at net.now reaction) }
{
    let r = reaction as usize - 1;
    let class = strong[net.reactant(r)];
    class == strong[net.product(r)] && exits[class as usize - 1] == 0
}

// Whether a reaction, counted from 1, joins two complexes of one terminal class.
fn is_within_terminal(net: &Network, facts: &Facts, reaction: u32) -> bool
    requires facts { AreFactsOf net.now facts.now }
    requires strong { HoldsOn facts.now.earlier 2 }
    requires number { IsFrom 1 (length net.now.reactions) reaction }
    ensures { IsTrue result ↔ IsWithinTerminal net.now facts.now.earlier reaction }
{
    let classes = facts.verdict(2);
    is_within(net, labels_in(classes), exits_in(classes), reaction)
}

// Whether a head is what the verdict on positive dependence and the named reaction allow.
fn is_allowed(net: &Network, facts: &Facts, verdict: &Verdict) -> bool
    requires facts { AreFactsOf net.now facts.now }
    requires strong { HoldsOn facts.now.earlier 2 }
    requires dependence { HoldsOn facts.now.earlier 7 }
    requires head { HeadMayBe net.now facts.now.earlier Q11 verdict.now }
    ensures { IsTrue result ↔ IsAllowed net.now facts.now.earlier verdict.now }
{
    let dependence = facts.verdict(7);
    match verdict {
        Verdict::Yes => is_yes(dependence),
        Verdict::NoDependence => is_no(dependence),
        Verdict::NoCycle { reaction, .. } => {
            (is_yes(dependence) || is_open(dependence)) && is_within_terminal(net, facts, *reaction)
        }
        _ => false,
    }
}

// The test of a head on regularity that needs one terminal strong class in each linkage class.
fn check_allowed(net: &Network, facts: &Facts, verdict: &Verdict) -> Result<(), CheckFault>
    requires facts { AreFactsOf net.now facts.now }
    requires linkage { HoldsOn facts.now.earlier 1 }
    requires strong { HoldsOn facts.now.earlier 2 }
    requires dependence { HoldsOn facts.now.earlier 7 }
    requires head { HeadMayBe net.now facts.now.earlier Q11 verdict.now }
    ensures { Judges (allowed_tests net.now facts.now.earlier verdict.now) result }
{
    if !have_one_each(net, facts) || !is_allowed(net, facts, verdict) {
        return Err(CheckFault { code: 37, part: 0 });
    }
    Ok(())
}

// The test of a head on regularity.
pub(crate) fn check_regular_head(
    net: &Network,
    facts: &Facts,
    verdict: &Verdict,
) -> Result<(), CheckFault>
    requires facts { AreFactsOf net.now facts.now }
    requires linkage { HoldsOn facts.now.earlier 1 }
    requires strong { HoldsOn facts.now.earlier 2 }
    requires dependence { HoldsOn facts.now.earlier 7 }
    requires head { HeadMayBe net.now facts.now.earlier Q11 verdict.now }
    ensures { Judges (regular_head net.now facts.now.earlier verdict.now) result }
{
    match verdict {
        Verdict::Yes => check_allowed(net, facts, verdict),
        Verdict::NoTerminal { class, count } => check_split(net, facts, *class, *count),
        Verdict::NoDependence => check_allowed(net, facts, verdict),
        Verdict::NoCycle { .. } => check_allowed(net, facts, verdict),
        _ => Ok(()),
    }
}

// The test of the walk round a linked pair.
fn check_walk(net: &Network, reaction: u32, walk: &[u32]) -> Result<(), CheckFault>
    requires number { IsFrom 1 (length net.now.reactions) reaction }
    requires walk { IsWalkOf (length net.now.complexes) walk.now }
    ensures { Judges (walk_tests net.now reaction walk.now) result }
{
    if !is_way_round(net, reaction, walk) {
        return Err(CheckFault { code: 32, part: 1 });
    }
    Ok(())
}

// The tests of the sides of all linked pairs, or of the walk round one.
pub(crate) fn check_regular(
    net: &Network,
    facts: &Facts,
    verdict: &Verdict,
    proof: &Proof,
) -> Result<(), CheckFault>
    requires facts { AreFactsOf net.now facts.now }
    requires linkage { HoldsOn facts.now.earlier 1 }
    requires strong { HoldsOn facts.now.earlier 2 }
    requires formed { IsFormedOf net.now facts.now.earlier Q11 verdict.now proof.now }
    ensures { Judges (regular_rows net.now facts.now.earlier verdict.now proof.now) result }
{
    let classes = facts.verdict(2);
    let linkage = labels_in(facts.verdict(1));
    match (verdict, proof) {
        (Verdict::Yes, Proof::Sides(sides)) => {
            check_sides(net, linkage, labels_in(classes), exits_in(classes), sides)
        }
        (Verdict::NoCycle { reaction, walk }, _) => check_walk(net, *reaction, walk.as_slice()),
        _ => Ok(()),
    }
}
