ghost use Rattle.std.specs.Prelude.{◌≡◌, ◌↔◌, ◌≤◌, ◌<◌, ◌==◌, ◌*◌, ◌^◌, ◌+ℤ◌, ◌*ℤ◌, ℕ, IsTrue, suc, length, drop, slice_index, unsigned_abs};
ghost use Rattle.std.specs.List.{AllByRecursion, list_any};
ghost use Rattle.crn_vec.specs.declared.limits.TheConstants.{MAX_AMOUNT, MAX_REACTIONS, MAX_SPECIES, WIDE_SOLUTION};
ghost use Rattle.crn_vec.specs.Rank.{combination_at};
ghost use Rattle.crn_vec.specs.Vectors.{AreWithin, entry};
ghost use Rattle.crn_cert.specs.Ranges.{IsFrom, AreFree};
ghost use Rattle.crn_cert.specs.RankTests.{IsComb, comb_tests, outside, vector_of, vectors_of};
ghost use Rattle.crn_check.specs.Check.{Judges};
ghost use Rattle.crn_check.specs.Inner.Bases.{IsBase, AreLabelled, members_of};
ghost use Rattle.crn_check.specs.Inner.Skips.{AreSkipsOf};
ghost use Rattle.crn_vec.specs.Skips.{AreSkips};

use crate::duals::vector_of;
use crate::fault::CheckFault;
use crate::members::Members;
use crn_cert::Rows;
use crn_net::Network;
use crn_vec::{MAX_SPECIES, Skips, is_nought, skips_of, times};

// A number for each species, and more at the places past the last species.
pub(crate) type Sums = [i128; MAX_SPECIES];

// Adds a multiple of a vector to the sums at its places.
pub(crate) fn add_multiple(
    sums: &mut Sums,
    number: &i128,
    vector: &[i128],
    skips: &[u8],
    most: usize,
)
    requires number { unsigned_abs number.now < WIDE_SOLUTION }
    requires width { length vector.now ≤ MAX_SPECIES }
    requires vector { AreWithin MAX_AMOUNT vector.now }
    requires skips { AreSkips vector.now skips.now }
    requires few { most < MAX_REACTIONS }
    requires sums { AreWithin (most * (MAX_AMOUNT * WIDE_SOLUTION)) sums.old }
    ensures within { AreWithin (suc most * (MAX_AMOUNT * WIDE_SOLUTION)) sums.new }
    ensures each { (s : ℕ) → s < length vector.now
        → entry sums.new s ≡ entry sums.old s +ℤ (number.now *ℤ entry vector.now s) }
{
    let _ = most;
    let mut k = skips[0] as usize;
    'places: while k < vector.len() {
        sums[k] += times(number, &vector[k]);
        k = skips[k + 1] as usize;
    }
}

// Adds a multiple of the vector of member j of a base to the sums.
fn add_member(
    net: &Network,
    base: &[u32],
    skips: &[Skips],
    j: usize,
    number: &i128,
    sums: &mut Sums,
)
    requires base { IsBase net.now base.now }
    requires skips { AreSkipsOf net.now base.now skips.now }
    requires member { j < length base.now }
    requires number { unsigned_abs number.now < WIDE_SOLUTION }
    requires sums { AreWithin (j * (MAX_AMOUNT * WIDE_SOLUTION)) sums.old }
    ensures within { AreWithin (suc j * (MAX_AMOUNT * WIDE_SOLUTION)) sums.new }
    ensures each { let vector = vector_of net.now (slice_index base.now j) in
        (s : ℕ) → s < length net.now.names
        → entry sums.new s ≡ entry sums.old s +ℤ (number.now *ℤ entry vector s) }
{
    let vector = vector_of(net, base[j]);
    if j < skips.len() {
        add_multiple(sums, number, vector, &skips[j], j);
        return;
    }
    add_multiple(sums, number, vector, &skips_of(vector), j);
}

// Puts the combination of the base with the numbers after the first into the sums, whatever was in them.
fn put_combination(net: &Network, base: &[u32], skips: &[Skips], comb: &[i128], sums: &mut Sums)
    requires base { IsBase net.now base.now }
    requires skips { AreSkipsOf net.now base.now skips.now }
    requires comb { AreFree (suc (length base.now)) comb.now }
    ensures { (s : ℕ) → s < length net.now.names
        → entry sums.new s ≡ combination_at (drop 1 comb.now) (vectors_of net.now base.now) s }
{
    *sums = [0; MAX_SPECIES];
    for j in 0..base.len() {
        if !is_nought(&comb[j + 1]) {
            add_member(net, base, skips, j, &comb[j + 1], sums);
        }
    }
}

// Whether a list combines the base to a positive multiple of a reaction's vector. The sums are room for the combination.
fn is_comb(
    net: &Network,
    base: &[u32],
    skips: &[Skips],
    reaction: u32,
    comb: &[i128],
    sums: &mut Sums,
) -> bool
    requires base { IsBase net.now base.now }
    requires skips { AreSkipsOf net.now base.now skips.now }
    requires comb { AreFree (suc (length base.now)) comb.now }
    requires reaction { IsFrom 1 (length net.now.reactions) reaction }
    ensures { IsTrue result
        ↔ IsComb (vectors_of net.now base.now) (vector_of net.now reaction) comb.now }
{
    if comb[0] < 1 {
        return false;
    }
    put_combination(net, base, skips, comb, sums);
    let vector = vector_of(net, reaction);
    for s in 0..vector.len() {
        if times(&comb[0], &vector[s]) != sums[s] {
            return false;
        }
    }
    true
}

// Whether a reaction, counted from 1, is in the base.
fn is_in(base: &[u32], reaction: u32) -> bool
    ensures { result ≡ list_any (λ b. b == reaction) base.now }
{
    base.iter().any(|b| *b == reaction)
}

// The tests of the combinations of the members outside a base; the first of them is record `first`.
pub(crate) fn check_combs(
    net: &Network,
    members: &Members,
    base: &[u32],
    skips: &[Skips],
    combs: &Rows,
    first: u32,
) -> Result<(), CheckFault>
    requires base { IsBase net.now base.now }
    requires skips { AreSkipsOf net.now base.now skips.now }
    requires members { AreLabelled net.now members.now }
    requires count { length combs.now ≡ length (outside base.now (members_of net.now members.now)) }
    requires combs { AllByRecursion (AreFree (suc (length base.now))) combs.now }
    requires first { first < 2 ^ 31 }
    ensures { Judges (comb_tests net.now (vectors_of net.now base.now) first
        (outside base.now (members_of net.now members.now)) combs.now) result }
{
    let mut sums = [0; MAX_SPECIES];
    let mut done = 0;
    for r in 0..net.reactions() {
        let reaction = r as u32 + 1;
        if members.has(net, r) && !is_in(base, reaction) {
            if !is_comb(net, base, skips, reaction, combs.row(done), &mut sums) {
                let part = first + done as u32;
                return Err(CheckFault { code: 34, part });
            }
            done += 1;
        }
    }
    Ok(())
}
