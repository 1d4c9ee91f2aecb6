ghost use Rattle.std.specs.Prelude.{◌≡◌, ◌<◌, ◌↔◌, ◌-◌, ℕ, Some, IsTrue, length, slice_index};
ghost use Rattle.crn_cert.specs.Ranges.{IsFrom};
ghost use Rattle.crn_indep_check.specs.Shown.{AreTied, DrawsOn, GivesRow, IsProofForm, count_outside};
ghost use Rattle.crn_indep_check.specs.Inner.Ties.{IsEvenAt, IsPlaceOrRow};

use crn_cert::RankProof;
use crn_net::Network;
use crn_vec::is_nought;

/// The row of the combination of reaction r in a rank proof, or none if it draws on nothing. Reactions count from 1, rows from
/// 0. `count` is how many reactions before r are outside the base, and then how many up to r.
pub fn next_row(net: &Network, proof: &RankProof, r: u32, count: &mut usize) -> Option<usize>
    requires inside { IsFrom 1 (length net.now.reactions) r }
    requires count { count.old ≡ count_outside proof.now (r - 1) }
    ensures row { GivesRow net.now proof.now r result }
    ensures count { count.new ≡ count_outside proof.now r }
{
    let _ = net;
    if proof.base.as_slice().contains(&r) {
        return None;
    }
    let row = *count;
    *count += 1;
    if row < proof.combs.len() {
        return Some(row);
    }
    None
}

// The place of reaction r in the base, or the row of its combination.
fn place_or_row(net: &Network, proof: &RankProof, r: u32) -> Result<usize, usize>
    requires form { IsProofForm net.now proof.now }
    requires inside { IsFrom 1 (length net.now.reactions) r }
    ensures { IsPlaceOrRow net.now proof.now r result }
{
    let _ = net;
    match proof.base.as_slice().binary_search(&r) {
        Ok(place) => Ok(place),
        Err(below) => Err(r as usize - 1 - below),
    }
}

/// Whether reaction r, whose combination has this row, draws on the member of the base at a place: whether the combination has
/// a number there that is not zero. Reactions count from 1, places and rows from 0.
pub fn draws_at(net: &Network, proof: &RankProof, r: u32, row: usize, place: usize) -> bool
    requires form { IsProofForm net.now proof.now }
    requires row { GivesRow net.now proof.now r (Some row) }
    requires inside { place < length proof.now.base.list }
    ensures { IsTrue result ↔ DrawsOn net.now proof.now r (slice_index proof.now.base.list place) }
{
    let _ = net;
    let _ = r;
    !is_nought(&proof.combs.row(row)[place + 1])
}

// Whether one of two reactions draws on the other.
pub(crate) fn are_tied(net: &Network, proof: &RankProof, r: u32, q: u32) -> bool
    requires form { IsProofForm net.now proof.now }
    requires first { IsFrom 1 (length net.now.reactions) r }
    requires second { IsFrom 1 (length net.now.reactions) q }
    ensures { IsTrue result ↔ AreTied net.now proof.now r q }
{
    match (place_or_row(net, proof, r), place_or_row(net, proof, q)) {
        (Err(row), Ok(place)) => draws_at(net, proof, r, row, place),
        (Ok(place), Err(row)) => draws_at(net, proof, q, row, place),
        _ => false,
    }
}

// Whether a reaction, whose combination has this row, has the label of whatever it draws on.
fn is_even_at(net: &Network, proof: &RankProof, labels: &[u32], r: u32, row: usize) -> bool
    requires form { IsProofForm net.now proof.now }
    requires long { length labels.now ≡ length net.now.reactions }
    requires inside { IsFrom 1 (length net.now.reactions) r }
    requires row { GivesRow net.now proof.now r (Some row) }
    ensures { IsTrue result ↔ IsEvenAt net.now proof.now labels.now r }
{
    for (place, b) in proof.base.as_slice().iter().enumerate() {
        if labels[*b as usize - 1] != labels[r as usize - 1] {
            if draws_at(net, proof, r, row, place) {
                return false;
            }
        }
    }
    true
}

// Whether tied reactions have equal labels.
pub(crate) fn are_even(net: &Network, proof: &RankProof, labels: &[u32]) -> bool
    requires form { IsProofForm net.now proof.now }
    requires long { length labels.now ≡ length net.now.reactions }
    ensures { IsTrue result ↔ ((r : ℕ) → IsEvenAt net.now proof.now labels.now r) }
{
    for k in 0..net.reactions() {
        let r = k as u32 + 1;
        if let Err(row) = place_or_row(net, proof, r) {
            if !is_even_at(net, proof, labels, r, row) {
                return false;
            }
        }
    }
    true
}
