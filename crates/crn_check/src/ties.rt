ghost use Rattle.std.specs.Prelude.{◌≡◌, ◌↔◌, ◌<◌, ◌+◌, ◌^◌, IsTrue, length};
ghost use Rattle.crn_cert.specs.Ranges.{AreFree, AreFreeRows, AreFrom};
ghost use Rattle.crn_cert.specs.ConfluenceTests.{IsTie, tie_at};
ghost use Rattle.crn_check.specs.Check.{Judges};
ghost use Rattle.crn_check.specs.Inner.Ordered.{IsSpared, is_tied, ordered_tests, tied};

use crate::fault::CheckFault;
use crn_cert::Rows;
use crn_net::Network;
use crn_vec::dot;

// Whether a complex is not the one that is spared.
fn is_tied(spared: Option<usize>, c: usize) -> bool
    ensures { result ≡ is_tied spared c }
{
    match spared {
        None => true,
        Some(p) => c != p,
    }
}

// The product of multipliers and the rows of the confluence system, at a complex.
fn tie_at(net: &Network, labels: &[u32], count: u32, tie: &[i128], c: usize) -> i128
    requires labels { AreFrom (length net.now.complexes) 1 count labels.now }
    requires tie { AreFree (length net.now.names + count) tie.now }
    requires inside { c < length net.now.complexes }
    ensures { result ≡ tie_at net.now labels.now count tie.now c }
{
    let (amounts, marks) = tie.split_at(net.species());
    dot(amounts, net.vector(c)) + marks[labels[c] as usize - 1]
}

// Whether multipliers are a tie of a complex.
fn is_tie(
    net: &Network,
    labels: &[u32],
    count: u32,
    spared: Option<usize>,
    c: usize,
    tie: &[i128],
) -> bool
    requires labels { AreFrom (length net.now.complexes) 1 count labels.now }
    requires tie { AreFree (length net.now.names + count) tie.now }
    requires inside { c < length net.now.complexes }
    ensures { IsTrue result ↔ IsTie net.now labels.now count (IsSpared spared) c tie.now }
{
    if tie_at(net, labels, count, tie, c) == 0 {
        return false;
    }
    for d in 0..net.complexes() {
        if d != c && is_tied(spared, d) && tie_at(net, labels, count, tie, d) != 0 {
            return false;
        }
    }
    true
}

// The tests of the ties of the complexes that are not spared; the first of them is record `first`.
pub(crate) fn check_ties(
    net: &Network,
    labels: &[u32],
    count: u32,
    spared: Option<usize>,
    ties: &Rows,
    first: u32,
) -> Result<(), CheckFault>
    requires labels { AreFrom (length net.now.complexes) 1 count labels.now }
    requires ties { AreFreeRows (length (tied net.now spared)) (length net.now.names + count)
        ties.now }
    requires first { first < 2 ^ 31 }
    ensures { Judges (ordered_tests (IsTie net.now labels.now count (IsSpared spared)) first
        (tied net.now spared) ties.now) result }
{
    let mut done = 0;
    for c in 0..net.complexes() {
        if is_tied(spared, c) {
            if !is_tie(net, labels, count, spared, c, ties.row(done)) {
                let part = first + done as u32;
                return Err(CheckFault { code: 35, part });
            }
            done += 1;
        }
    }
    Ok(())
}
