ghost use Rattle.std.specs.Prelude.{◌≡◌, length};
ghost use Rattle.crn_cert.specs.Questions.{Earlier, Q1};
ghost use Rattle.crn_cert.specs.Formed.{IsFormedOf};
ghost use Rattle.crn_cert.specs.Parts.{IsForest};
ghost use Rattle.crn_cert.specs.Valid.{linkage_rows};
ghost use Rattle.crn_check.specs.Check.{Judges};
ghost use Rattle.crn_check.specs.Inner.Tests.{link_tests};

use crate::fault::CheckFault;
use crate::labels::{are_even, are_numbered};
use crate::trees::{Rule, are_trees};
use crn_cert::{Proof, Verdict};
use crn_net::Network;

// The tests of the labels and of the trees.
fn check_lists(
    net: &Network,
    count: u32,
    label: &[u32],
    up: &[u32],
    depth: &[u32],
) -> Result<(), CheckFault>
    requires labelled { length label.now ≡ length net.now.complexes }
    requires forest { IsForest net.now up.now depth.now }
    ensures { Judges (link_tests net.now count label.now up.now depth.now) result }
{
    if !are_numbered(label, count) {
        return Err(CheckFault { code: 31, part: 1 });
    }
    if !are_even(net, label) {
        return Err(CheckFault { code: 31, part: 1 });
    }
    if !are_trees(net, Rule::ByLink, label, up, depth) {
        return Err(CheckFault { code: 31, part: 3 });
    }
    Ok(())
}

// The tests of the records on linkage classes.
pub(crate) fn check_linkage(
    net: &Network,
    verdict: &Verdict,
    proof: &Proof,
) -> Result<(), CheckFault>
    requires { (earlier : Earlier)
        × IsFormedOf net.now earlier Q1 verdict.now proof.now }
    ensures { Judges (linkage_rows net.now verdict.now proof.now) result }
{
    match (verdict, proof) {
        (Verdict::Classes { count, label }, Proof::Forest { up, depth }) => check_lists(
            net,
            *count,
            label.as_slice(),
            up.as_slice(),
            depth.as_slice(),
        ),
        _ => Ok(()),
    }
}
