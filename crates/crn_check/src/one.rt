ghost use Rattle.std.specs.Prelude.{◌≡◌, ◌≢◌, ◌≤◌, ◌↔◌, IsTrue, length, sum};
ghost use Rattle.crn_vec.specs.Deficiency.{AreAtMostOne};
ghost use Rattle.crn_cert.specs.Formed.{HeadMayBe};
ghost use Rattle.crn_cert.specs.Questions.{Q6, Q10, deficiencies_of, on};
ghost use Rattle.crn_cert.specs.Valid.{IsFirstLarge, WithDeficiencies, one_head};
ghost use Rattle.crn_check.specs.Check.{Judges};
ghost use Rattle.crn_check.specs.Facts.{AreFactsOf, HoldsOn};
ghost use Rattle.crn_check.specs.Inner.Tests.{AreSmallTo, NamesClass, OfDeficiencies, known_tests, split_tests};

use crate::facts::Facts;
use crate::fault::CheckFault;
use crate::terminals::{have_one_each, is_first_split};
use crn_cert::Verdict;
use crn_net::Network;

// Whether each deficiency is at most 1.
fn are_small(classes: &[u32]) -> bool
    ensures { IsTrue result ↔ AreAtMostOne classes.now }
{
    classes.iter().all(|d| *d <= 1)
}

// The sum of the deficiencies, each at most 1.
fn sum_of(classes: &[u32]) -> usize
    requires { AreAtMostOne classes.now }
    ensures { result ≡ sum classes.now }
{
    let mut sum = 0;
    for d in classes {
        sum += *d as usize;
    }
    sum
}

// Whether each deficiency is at most 1, and their sum is this one.
fn have_sum(classes: &[u32], x: u32) -> bool
    ensures { IsTrue result ↔ (AreAtMostOne classes.now × (sum classes.now ≡ x)) }
{
    are_small(classes) && sum_of(classes) == x as usize
}

// Whether each of this many deficiencies but the last is at most 1.
fn are_small_to(classes: &[u32], last: usize) -> bool
    requires { last ≤ length classes.now }
    ensures { IsTrue result ↔ AreSmallTo classes.now last }
{
    for j in 0..last {
        if classes[j] > 1 {
            return false;
        }
    }
    true
}

// Whether linkage class k is the least of deficiency 2 or more, and has this one.
fn is_first_large(classes: &[u32], k: u32, d: u32) -> bool
    requires { 1 ≤ k }
    ensures { IsTrue result ↔ IsFirstLarge k d classes.now }
{
    let last = k as usize - 1;
    last < classes.len() && classes[last] == d && 2 <= d && are_small_to(classes, last)
}

// Whether deficiencies are as a head says.
fn are_said(verdict: &Verdict, total: u32, classes: &[u32]) -> bool
    requires { NamesClass verdict.now }
    ensures { IsTrue result ↔ OfDeficiencies verdict.now total classes.now }
{
    match verdict {
        Verdict::Yes => have_sum(classes, total),
        Verdict::NoClass { class, number } => is_first_large(classes, *class, *number),
        Verdict::NoSum { sum } => have_sum(classes, *sum) && *sum != total,
        _ => false,
    }
}

// Whether the deficiencies are known, and are as a head says.
fn are_known(facts: &Facts, verdict: &Verdict) -> bool
    requires held { HoldsOn facts.now.earlier 6 }
    requires class { NamesClass verdict.now }
    ensures { IsTrue result ↔ WithDeficiencies (OfDeficiencies verdict.now)
        (deficiencies_of (on facts.now.earlier Q6)) }
{
    match facts.verdict(6) {
        Verdict::Deficiency { total, classes } => are_said(verdict, *total, classes.as_slice()),
        _ => false,
    }
}

// The test of a head that speaks of deficiencies.
fn check_known(net: &Network, facts: &Facts, verdict: &Verdict) -> Result<(), CheckFault>
    requires facts { AreFactsOf net.now facts.now }
    requires linkage { HoldsOn facts.now.earlier 1 }
    requires strong { HoldsOn facts.now.earlier 2 }
    requires deficiencies { HoldsOn facts.now.earlier 6 }
    requires class { NamesClass verdict.now }
    ensures { Judges (known_tests facts.now.earlier verdict.now) result }
{
    if !have_one_each(net, facts) || !are_known(facts, verdict) {
        return Err(CheckFault { code: 37, part: 0 });
    }
    Ok(())
}

// The test of a head that names a linkage class with several terminal strong classes.
pub(crate) fn check_split(
    net: &Network,
    facts: &Facts,
    k: u32,
    count: u32,
) -> Result<(), CheckFault>
    requires facts { AreFactsOf net.now facts.now }
    requires linkage { HoldsOn facts.now.earlier 1 }
    requires strong { HoldsOn facts.now.earlier 2 }
    requires class { 1 ≤ k }
    ensures { Judges (split_tests facts.now.earlier k count) result }
{
    if !is_first_split(net, facts, k, count) {
        return Err(CheckFault { code: 37, part: 0 });
    }
    Ok(())
}

// The test of a head on the Deficiency One Theorem.
pub(crate) fn check_one_head(
    net: &Network,
    facts: &Facts,
    verdict: &Verdict,
) -> Result<(), CheckFault>
    requires facts { AreFactsOf net.now facts.now }
    requires linkage { HoldsOn facts.now.earlier 1 }
    requires strong { HoldsOn facts.now.earlier 2 }
    requires deficiencies { HoldsOn facts.now.earlier 6 }
    requires head { HeadMayBe net.now facts.now.earlier Q10 verdict.now }
    ensures { Judges (one_head facts.now.earlier verdict.now) result }
{
    match verdict {
        Verdict::Yes => check_known(net, facts, verdict),
        Verdict::NoTerminal { class, count } => check_split(net, facts, *class, *count),
        Verdict::NoClass { .. } => check_known(net, facts, verdict),
        Verdict::NoSum { .. } => check_known(net, facts, verdict),
        _ => Ok(()),
    }
}
