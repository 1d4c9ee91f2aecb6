ghost use Rattle.std.specs.Prelude.{◌+◌, ◌-◌, ◌⊎◌, length};
ghost use Rattle.crn_cert.specs.Formed.{IsFormedOf};
ghost use Rattle.crn_cert.specs.Questions.{Q12};
ghost use Rattle.crn_cert.specs.Ranges.{AreFree, AreFreeRows, IsFrom};
ghost use Rattle.crn_cert.specs.Valid.{confluence_head, confluence_rows, linkage_count};
ghost use Rattle.crn_check.specs.Check.{Judges};
ghost use Rattle.crn_check.specs.Facts.{AreFactsOf, HoldsOn};
ghost use Rattle.crn_check.specs.Inner.Tests.{apart_tests, plane_tests, vector_tests, zero_tests};

use crate::deficiency::count_in;
use crate::facts::Facts;
use crate::fault::CheckFault;
use crate::kinds::{is_no, is_yes};
use crate::normal::{is_normal, least};
use crate::space::is_apart;
use crate::ties::check_ties;
use crate::weak::labels_in;
use crn_cert::{Proof, Rows, Verdict};
use crn_net::Network;

// The test of a head on the confluence vector.
pub(crate) fn check_confluence_head(facts: &Facts, verdict: &Verdict) -> Result<(), CheckFault>
    requires { HoldsOn facts.now.earlier 11 }
    ensures { Judges (confluence_head facts.now.earlier verdict.now) result }
{
    let regular = facts.verdict(11);
    let holds = match verdict {
        Verdict::YesVec { .. } => is_yes(regular),
        Verdict::NotRegular => is_no(regular),
        Verdict::OnlyZero => is_yes(regular),
        Verdict::Plane { .. } => is_yes(regular),
        _ => true,
    };
    if !holds {
        return Err(CheckFault { code: 37, part: 0 });
    }
    Ok(())
}

// The tests of a confluence vector and of its ties.
fn check_vector(
    net: &Network,
    facts: &Facts,
    vector: &[i128],
    ties: &Rows,
) -> Result<(), CheckFault>
    requires facts { AreFactsOf net.now facts.now }
    requires linkage { HoldsOn facts.now.earlier 1 }
    requires strong { HoldsOn facts.now.earlier 2 }
    requires weak { HoldsOn facts.now.earlier 4 }
    requires vector { AreFree (length net.now.complexes) vector.now }
    requires ties { let earlier = facts.now.earlier in
        AreFreeRows (length net.now.complexes - 1) (length net.now.names + linkage_count earlier)
        ties.now }
    ensures { Judges (vector_tests net.now facts.now.earlier vector.now ties.now) result }
{
    if !is_normal(net, facts, vector) {
        return Err(CheckFault { code: 35, part: 1 });
    }
    let linkage = facts.verdict(1);
    check_ties(
        net,
        labels_in(linkage),
        count_in(linkage),
        Some(least(vector)),
        ties,
        2,
    )
}

// The tests of the ties of all complexes.
fn check_zero(net: &Network, facts: &Facts, ties: &Rows) -> Result<(), CheckFault>
    requires facts { AreFactsOf net.now facts.now }
    requires linkage { HoldsOn facts.now.earlier 1 }
    requires ties { let earlier = facts.now.earlier in
        AreFreeRows (length net.now.complexes) (length net.now.names + linkage_count earlier)
        ties.now }
    ensures { Judges (zero_tests net.now facts.now.earlier ties.now) result }
{
    let linkage = facts.verdict(1);
    check_ties(net, labels_in(linkage), count_in(linkage), None, ties, 1)
}

// The test of one of the two vectors of a plane, not zero at its own complex and zero at the other.
fn check_apart(
    net: &Network,
    facts: &Facts,
    part: u32,
    own: u32,
    other: u32,
    vector: &[i128],
) -> Result<(), CheckFault>
    requires facts { AreFactsOf net.now facts.now }
    requires linkage { HoldsOn facts.now.earlier 1 }
    requires own { IsFrom 1 (length net.now.complexes) own }
    requires other { IsFrom 1 (length net.now.complexes) other }
    requires vector { AreFree (length net.now.complexes) vector.now }
    ensures { Judges (apart_tests net.now facts.now.earlier part own other vector.now) result }
{
    let linkage = facts.verdict(1);
    if !is_apart(
        net,
        labels_in(linkage),
        count_in(linkage),
        own,
        other,
        vector,
    ) {
        return Err(CheckFault { code: 35, part });
    }
    Ok(())
}

// The tests of the two vectors of a plane.
fn check_plane(
    net: &Network,
    facts: &Facts,
    first: u32,
    second: u32,
    one: &[i128],
    two: &[i128],
) -> Result<(), CheckFault>
    requires facts { AreFactsOf net.now facts.now }
    requires linkage { HoldsOn facts.now.earlier 1 }
    requires first { IsFrom 1 (length net.now.complexes) first }
    requires second { IsFrom 1 (length net.now.complexes) second }
    requires one { AreFree (length net.now.complexes) one.now }
    requires two { AreFree (length net.now.complexes) two.now }
    ensures { Judges (plane_tests net.now facts.now.earlier first second one.now two.now) result }
{
    check_apart(net, facts, 1, first, second, one)?;
    check_apart(net, facts, 2, second, first, two)
}

// The tests of the vectors and of the ties.
pub(crate) fn check_confluence(
    net: &Network,
    facts: &Facts,
    verdict: &Verdict,
    proof: &Proof,
) -> Result<(), CheckFault>
    requires facts { AreFactsOf net.now facts.now }
    requires linkage { HoldsOn facts.now.earlier 1 }
    requires strong { HoldsOn facts.now.earlier 2 }
    requires weak { HoldsOn facts.now.earlier 4 }
    requires formed { IsFormedOf net.now facts.now.earlier Q12 verdict.now proof.now }
    ensures { Judges (confluence_rows net.now facts.now.earlier verdict.now proof.now) result }
{
    match (verdict, proof) {
        (Verdict::YesVec { vector }, Proof::Ties(ties)) => {
            check_vector(net, facts, vector.as_slice(), ties)
        }
        (Verdict::OnlyZero, Proof::Ties(ties)) => check_zero(net, facts, ties),
        (
            Verdict::Plane {
                first,
                second,
                one,
                two,
            },
            _,
        ) => check_plane(net, facts, *first, *second, one.as_slice(), two.as_slice()),
        _ => Ok(()),
    }
}
