ghost use Rattle.std.specs.Prelude.{◌≡◌, ◌↔◌, ◌≤◌, ◌⊎◌, IsTrue, Some, length};
ghost use Rattle.crn_vec.specs.Deficiency.{class_members};
ghost use Rattle.crn_vec.specs.Network.{IsNetwork};
ghost use Rattle.crn_vec.specs.declared.limits.TheConstants.{MAX_COMPLEXES};
ghost use Rattle.crn_cert.specs.Questions.{Q5, Q6, on, rank_of, count_of};
ghost use Rattle.crn_cert.specs.Formed.{IsFormedOf};
ghost use Rattle.crn_cert.specs.Valid.{linkage, linkage_count, class_places, IsLeft, IsClassNumber, AreClassNumbers, class_rank_tests, deficiency_head, deficiency_rows};
ghost use Rattle.crn_check.specs.Check.{Judges};
ghost use Rattle.crn_check.specs.Facts.{AreFactsOf, HoldsOn};
ghost use Rattle.crn_check.specs.Inner.Bases.{AreLabelled, AreRankProofs, members_of};
ghost use Rattle.crn_check.specs.Inner.Tests.{number_tests};

use crate::facts::Facts;
use crate::fault::CheckFault;
use crate::members::Members;
use crate::ranks::check_members;
use crate::skips::no_skips;
use crate::weak::labels_in;
use crn_cert::{Proof, RankList, Verdict};
use crn_net::Network;

// The rank in a verdict, if it is a decided one on the rank.
pub(crate) fn rank_in(verdict: &Verdict) -> Option<u32>
    ensures { result ≡ rank_of verdict.now }
{
    match verdict {
        Verdict::Rank { rank, .. } => Some(*rank),
        _ => None,
    }
}

// The number of classes in a verdict, and 0 in a verdict on something else.
pub(crate) fn count_in(verdict: &Verdict) -> u32
    ensures { result ≡ count_of verdict.now }
{
    match verdict {
        Verdict::Classes { count, .. } => *count,
        Verdict::Strong { count, .. } => *count,
        _ => 0,
    }
}

// The reactions of linkage class k.
pub(crate) fn of_class<'a>(net: &Network, facts: &'a Facts, k: usize) -> Members<'a>
    requires facts { AreFactsOf net.now facts.now }
    requires held { HoldsOn facts.now.earlier 1 }
    ensures labelled { AreLabelled net.now result }
    ensures members { members_of net.now result ≡ class_places net.now facts.now.earlier k }
{
    let _ = net;
    let labels = labels_in(facts.verdict(1));
    Members::OfClass { labels, class: k }
}

// The number of complexes of linkage class k.
pub(crate) fn complexes_in(facts: &Facts, k: usize) -> usize
    requires { HoldsOn facts.now.earlier 1 }
    ensures { result ≡ length (class_members (linkage facts.now.earlier) k) }
{
    let labels = labels_in(facts.verdict(1));
    labels.iter().filter(|label| **label as usize == k).count()
}

// Whether a deficiency of linkage class k leaves a rank that the class may have.
fn is_class_number(net: &Network, facts: &Facts, k: usize, d: u32) -> bool
    requires facts { AreFactsOf net.now facts.now }
    requires held { HoldsOn facts.now.earlier 1 }
    ensures { IsTrue result ↔ IsClassNumber net.now facts.now.earlier k d }
{
    let complexes = complexes_in(facts, k);
    let most = net.species().min(of_class(net, facts, k).count(net));
    let d = d as usize;
    d + 2 <= complexes && complexes <= d + 1 + most
}

// Whether each deficiency leaves a rank that its class may have.
fn are_class_numbers(net: &Network, facts: &Facts, classes: &[u32]) -> bool
    requires facts { AreFactsOf net.now facts.now }
    requires held { HoldsOn facts.now.earlier 1 }
    ensures { IsTrue result ↔ AreClassNumbers net.now facts.now.earlier 1 classes.now }
{
    for k in 0..classes.len() {
        if !is_class_number(net, facts, k + 1, classes[k]) {
            return false;
        }
    }
    true
}

// Whether the deficiency of the network is what is left of its complexes.
pub(crate) fn is_left(net: &Network, facts: &Facts, total: u32, rank: u32) -> bool
    requires held { HoldsOn facts.now.earlier 1 }
    requires rank { Some rank ≡ rank_of (on facts.now.earlier Q5) }
    ensures { IsTrue result
        ↔ IsLeft net.now facts.now.earlier total (rank_of (on facts.now.earlier Q5)) }
{
    let count = count_in(facts.verdict(1));
    total as usize + count as usize + rank as usize == net.complexes()
}

// The tests of the numbers of a head on deficiencies.
fn check_numbers(
    net: &Network,
    facts: &Facts,
    total: u32,
    classes: &[u32],
) -> Result<(), CheckFault>
    requires facts { AreFactsOf net.now facts.now }
    requires linkage { HoldsOn facts.now.earlier 1 }
    requires rank { HoldsOn facts.now.earlier 5 }
    ensures { Judges (number_tests net.now facts.now.earlier total classes.now) result }
{
    match rank_in(facts.verdict(5)) {
        None => Err(CheckFault { code: 37, part: 0 }),
        Some(rank) => {
            if !is_left(net, facts, total, rank) || !are_class_numbers(net, facts, classes) {
                return Err(CheckFault { code: 36, part: 0 });
            }
            Ok(())
        }
    }
}

// The tests of a head on deficiencies.
pub(crate) fn check_deficiency_head(
    net: &Network,
    facts: &Facts,
    verdict: &Verdict,
) -> Result<(), CheckFault>
    requires facts { AreFactsOf net.now facts.now }
    requires linkage { HoldsOn facts.now.earlier 1 }
    requires rank { HoldsOn facts.now.earlier 5 }
    ensures { Judges (deficiency_head net.now facts.now.earlier verdict.now) result }
{
    match verdict {
        Verdict::Deficiency { total, classes } => {
            check_numbers(net, facts, *total, classes.as_slice())
        }
        _ => Ok(()),
    }
}

// The tests of the ranks of the linkage classes.
fn check_classes(net: &Network, facts: &Facts, list: &RankList) -> Result<(), CheckFault>
    requires network { IsNetwork net.now }
    requires facts { AreFactsOf net.now facts.now }
    requires held { HoldsOn facts.now.earlier 1 }
    requires proofs { AreRankProofs net.now facts.now.earlier 1 list.now }
    requires few { length list.now ≤ MAX_COMPLEXES }
    ensures { Judges (class_rank_tests net.now facts.now.earlier 1 1 list.now) result }
{
    let mut part = 1;
    let mut skips = no_skips();
    for k in 0..list.len() {
        let proof = list.row(k);
        check_members(net, &of_class(net, facts, k + 1), part, proof, &mut skips)?;
        part += 1 + proof.duals.len() as u32 + proof.combs.len() as u32;
    }
    Ok(())
}

// The tests of the records on deficiencies.
pub(crate) fn check_deficiency(
    net: &Network,
    facts: &Facts,
    verdict: &Verdict,
    proof: &Proof,
) -> Result<(), CheckFault>
    requires network { IsNetwork net.now }
    requires facts { AreFactsOf net.now facts.now }
    requires held { HoldsOn facts.now.earlier 1 }
    requires formed { IsFormedOf net.now facts.now.earlier Q6 verdict.now proof.now }
    ensures { Judges (deficiency_rows net.now facts.now.earlier verdict.now proof.now) result }
{
    match (verdict, proof) {
        (Verdict::Deficiency { .. }, Proof::Ranks(list)) => check_classes(net, facts, list),
        _ => Ok(()),
    }
}
