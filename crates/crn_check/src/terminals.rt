ghost use Rattle.std.specs.Prelude.{◌≡◌, ◌≤◌, ◌+◌, ◌↔◌, IsTrue, length};
ghost use Rattle.std.specs.List.{AllByRecursion};
ghost use Rattle.crn_vec.specs.declared.limits.TheConstants.{MAX_COMPLEXES};
ghost use Rattle.crn_cert.specs.Questions.{exits_of};
ghost use Rattle.crn_cert.specs.Valid.{linkage_count, is_in_both, terminals_of, terminals_in, HaveOneBefore, HaveOneEach, IsFirstSplit};
ghost use Rattle.crn_check.specs.Facts.{AreFactsOf, HoldsOn};
ghost use Rattle.crn_check.specs.Inner.Terminals.{AreMarksIn};

use crate::deficiency::count_in;
use crate::facts::Facts;
use crate::weak::labels_in;
use crn_cert::Verdict;
use crn_net::Network;
use crn_vec::MAX_COMPLEXES;

// The exits in a verdict on strong classes, and none in a verdict on something else.
pub(crate) fn exits_in(verdict: &Verdict) -> &[u32]
    ensures { result.now ≡ exits_of verdict.now }
{
    match verdict {
        Verdict::Strong { exit, .. } => exit.as_slice(),
        _ => &[],
    }
}

// A mark for each strong label, from 0 on.
type Marks = [bool; MAX_COMPLEXES + 1];

// Marks of the labels in the one list that complexes with label k in the other have.
fn marks_in(strong: &[u32], linkage: &[u32], k: u32) -> Marks
    requires same { length strong.now ≡ length linkage.now }
    requires labels { AllByRecursion (λ m. m ≤ MAX_COMPLEXES) strong.now }
    ensures { AreMarksIn strong.now linkage.now k result }
{
    let mut marks = [false; MAX_COMPLEXES + 1];
    for c in 0..strong.len() {
        if linkage[c] == k {
            marks[strong[c] as usize] = true;
        }
    }
    marks
}

// The number of terminal strong classes that have a complex in linkage class k, by lists.
fn terminals_of(strong: &[u32], exit: &[u32], linkage: &[u32], k: u32) -> usize
    requires same { length strong.now ≡ length linkage.now }
    requires labels { AllByRecursion (λ m. m ≤ MAX_COMPLEXES) strong.now }
    requires few { length exit.now ≤ MAX_COMPLEXES }
    ensures { result ≡ terminals_of strong.now exit.now linkage.now (length exit.now) k }
{
    let marks = marks_in(strong, linkage, k);
    let mut count = 0;
    for m in 0..exit.len() {
        if exit[m] == 0 && marks[m + 1] {
            count += 1;
        }
    }
    count
}

// The number of terminal strong classes of linkage class k.
fn terminals_in(net: &Network, facts: &Facts, k: u32) -> usize
    requires facts { AreFactsOf net.now facts.now }
    requires linkage { HoldsOn facts.now.earlier 1 }
    requires strong { HoldsOn facts.now.earlier 2 }
    ensures { result ≡ terminals_in facts.now.earlier k }
{
    let _few = net.complexes();
    let classes = facts.verdict(2);
    let linkage = labels_in(facts.verdict(1));
    terminals_of(labels_in(classes), exits_in(classes), linkage, k)
}

// Whether each linkage class up to the last has one terminal strong class.
fn have_one_to(net: &Network, facts: &Facts, last: u32) -> bool
    requires facts { AreFactsOf net.now facts.now }
    requires linkage { HoldsOn facts.now.earlier 1 }
    requires strong { HoldsOn facts.now.earlier 2 }
    ensures { IsTrue result ↔ HaveOneBefore facts.now.earlier (last + 1) }
{
    for k in 0..last {
        if terminals_in(net, facts, k + 1) != 1 {
            return false;
        }
    }
    true
}

// Whether each linkage class has one terminal strong class.
pub(crate) fn have_one_each(net: &Network, facts: &Facts) -> bool
    requires facts { AreFactsOf net.now facts.now }
    requires linkage { HoldsOn facts.now.earlier 1 }
    requires strong { HoldsOn facts.now.earlier 2 }
    ensures { IsTrue result ↔ HaveOneEach facts.now.earlier }
{
    have_one_to(net, facts, count_in(facts.verdict(1)))
}

// Whether linkage class k is the least with several terminal strong classes, and has this number of them.
pub(crate) fn is_first_split(net: &Network, facts: &Facts, k: u32, count: u32) -> bool
    requires facts { AreFactsOf net.now facts.now }
    requires linkage { HoldsOn facts.now.earlier 1 }
    requires strong { HoldsOn facts.now.earlier 2 }
    requires class { 1 ≤ k }
    ensures { IsTrue result ↔ IsFirstSplit facts.now.earlier k count }
{
    terminals_in(net, facts, k) == count as usize && 2 <= count && have_one_to(net, facts, k - 1)
}
