ghost use Rattle.std.specs.Prelude.{◌≡◌, ◌↔◌, ◌<◌, ◌^◌, IsTrue, length, slice_index};
ghost use Rattle.crn_vec.specs.Vectors.{AreWithin, dot};
ghost use Rattle.crn_vec.specs.declared.limits.TheConstants.{MAX_AMOUNT};
ghost use Rattle.crn_cert.specs.Ranges.{IsFrom, AreFree, AreFreeRows};
ghost use Rattle.crn_cert.specs.RankTests.{IsDual, dual_tests, vector_of, vectors_of};
ghost use Rattle.crn_check.specs.Check.{Judges};
ghost use Rattle.crn_check.specs.Inner.Bases.{IsBase};
ghost use Rattle.crn_check.specs.Inner.Skips.{AreSkipsOf};

use crate::fault::CheckFault;
use crn_cert::Rows;
use crn_net::Network;
use crn_vec::{Skips, dot_past, skips_of};

// The vector of a reaction, counted from 1.
pub(crate) fn vector_of(net: &Network, reaction: u32) -> &[i128]
    requires { IsFrom 1 (length net.now.reactions) reaction }
    ensures value { result.now ≡ vector_of net.now reaction }
    ensures width { length result.now ≡ length net.now.names }
    ensures small { AreWithin MAX_AMOUNT result.now }
{
    net.reaction_vector(reaction as usize - 1)
}

// The product of a list with the vector of member j of a base. No network has a base with more members than skips.
fn product_with(net: &Network, base: &[u32], skips: &[Skips], j: usize, list: &[i128]) -> i128
    requires base { IsBase net.now base.now }
    requires skips { AreSkipsOf net.now base.now skips.now }
    requires member { j < length base.now }
    requires list { AreFree (length net.now.names) list.now }
    ensures { result ≡ dot list.now (vector_of net.now (slice_index base.now j)) }
{
    let vector = vector_of(net, base[j]);
    if j < skips.len() {
        return dot_past(list, vector, &skips[j]);
    }
    dot_past(list, vector, &skips_of(vector))
}

// Whether a list is the dual of member i of the base.
fn is_dual(net: &Network, base: &[u32], skips: &[Skips], i: usize, dual: &[i128]) -> bool
    requires base { IsBase net.now base.now }
    requires skips { AreSkipsOf net.now base.now skips.now }
    requires member { i < length base.now }
    requires dual { AreFree (length net.now.names) dual.now }
    ensures { IsTrue result ↔ IsDual (vectors_of net.now base.now) i dual.now }
{
    for j in 0..base.len() {
        let product = product_with(net, base, skips, j, dual);
        if i == j && product == 0 {
            return false;
        }
        if i != j && product != 0 {
            return false;
        }
    }
    true
}

// The tests of the duals of a base; the first of them is record `first`.
pub(crate) fn check_duals(
    net: &Network,
    base: &[u32],
    skips: &[Skips],
    duals: &Rows,
    first: u32,
) -> Result<(), CheckFault>
    requires base { IsBase net.now base.now }
    requires skips { AreSkipsOf net.now base.now skips.now }
    requires duals { AreFreeRows (length base.now) (length net.now.names) duals.now }
    requires first { first < 2 ^ 31 }
    ensures { Judges (dual_tests (vectors_of net.now base.now) first 0 duals.now) result }
{
    for i in 0..duals.len() {
        if !is_dual(net, base, skips, i, duals.row(i)) {
            let part = first + i as u32;
            return Err(CheckFault { code: 33, part });
        }
    }
    Ok(())
}
