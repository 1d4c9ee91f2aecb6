ghost use Rattle.std.specs.Prelude.{◌≡◌, ◌≤◌, ◌<◌, ◌↔◌, ℕ, IsTrue, length, slice_index};
ghost use Rattle.crn_vec.specs.Network.{IsNetwork};
ghost use Rattle.crn_indep_check.specs.Shown.{AreEvenLabels, IsProofForm, IsShownForm, JudgesShown, part_code};
ghost use Rattle.crn_indep_check.specs.Inner.Shown.{JudgesLinks};
ghost use Rattle.crn_indep_check.specs.Inner.Ties.{IsGreatest};

use crate::links::are_linked;
use crate::ties::are_even;
use crn_cert::RankProof;
use crn_check::{CheckFault, are_numbered, check_rank_proof};
use crn_net::Network;

// The greatest of these numbers, and 0 if there is none.
pub(crate) fn greatest(xs: &[u32]) -> u32
    ensures { IsGreatest xs.now result }
{
    let mut most = 0;
    for x in xs {
        if *x > most {
            most = *x;
        }
    }
    most
}

// Whether labels count from 1 by first appearance, and tied reactions have equal ones.
fn are_even_labels(net: &Network, proof: &RankProof, labels: &[u32]) -> bool
    requires form { IsProofForm net.now proof.now }
    requires long { length labels.now ≡ length net.now.reactions }
    ensures { IsTrue result ↔ AreEvenLabels net.now proof.now labels.now }
{
    if !are_numbered(labels, greatest(labels)) {
        return false;
    }
    are_even(net, proof, labels)
}

// The tests of the labels and of the links.
fn check_links(
    net: &Network,
    proof: &RankProof,
    labels: &[u32],
    up: &[u32],
    depth: &[u32],
) -> Result<(), CheckFault>
    requires form { (rank : ℕ)
        × IsShownForm net.now rank proof.now labels.now up.now depth.now }
    ensures { JudgesLinks net.now proof.now labels.now up.now depth.now result }
{
    net.meets_definition();
    let record = 2 + proof.duals.len() as u32 + proof.combs.len() as u32;
    if !are_even_labels(net, proof, labels) {
        return Err(CheckFault {
            code: 63,
            part: record,
        });
    }
    if !are_linked(net, proof, labels, up, depth) {
        return Err(CheckFault {
            code: 64,
            part: record + 2,
        });
    }
    Ok(())
}

// A fault of the proof of a rank under its code in a document on decompositions.
fn recoded(fault: CheckFault) -> CheckFault
    ensures code { result.code ≡ part_code fault.code }
    ensures part { result.part ≡ fault.part }
{
    CheckFault {
        code: if fault.code == 33 { 61 } else { 62 },
        part: fault.part,
    }
}

/// The tests of what shows a decomposition to be the finest, in order: of the duals, of the combinations, of the labels and
/// of the links. It takes no memory.
pub fn check_decomposition(
    net: &Network,
    proof: &RankProof,
    labels: &[u32],
    up: &[u32],
    depth: &[u32],
) -> Result<(), CheckFault>
    requires form { (rank : ℕ)
        × IsShownForm net.now rank proof.now labels.now up.now depth.now }
    ensures { JudgesShown net.now proof.now labels.now up.now depth.now result }
{
    net.meets_definition();
    match check_rank_proof(net, 1, proof) {
        Ok(()) => check_links(net, proof, labels, up, depth),
        Err(fault) => Err(recoded(fault)),
    }
}
