ghost use Rattle.std.specs.Prelude.{◌≡◌, ◌≤◌, ◌<◌, ◌+◌, ◌*◌, ◌++◌, ℕ, List, [], ◌∷◌, pos, nat_abs, ◌-ℤ◌, length, map, slice_index_or, IsTrue, IfOk, OnOk};
ghost use Rattle.std.specs.List.{AllByRecursion};
ghost use Rattle.crn_vec.specs.Network.{amount_in};
ghost use Rattle.crn_net.specs.Terms.{side_of};
ghost use Rattle.crn_net.specs.Inner.Sums.{share_of, name_in, sum_in, no_share};

use crate::buckets::mark_of;
use crate::side_sums::Share;
use crate::term::Term;
use crn_vec::{MAX_AMOUNT, MAX_TERMS, NoMemory};
use std::alloc::Global;

// In how many slots a name is looked for.
const TRIES: usize = 16;

// The first slot for a name.
fn first_slot(name: &[u8], size: usize) -> usize
    requires { 1 ≤ size }
    ensures { result < size }
{
    (mark_of(name).wrapping_mul(0x9e37_79b9_7f4a_7c15) >> 32) % size
}

// Whether a place is past all shares, or holds one of this name.
fn may_take(text: &[u8], shares: &[Share], place: usize, name: &[u8]) -> bool
    ensures { IsTrue result → place < length shares.now →
        name_in text.now (slice_index_or shares.now place no_share) ≡ name.now }
{
    if place >= shares.len() {
        return true;
    }
    shares[place].name(text) == name
}

// A slot for the share of a name, and the place in it. That is past all shares if no share of the name was found.
fn look_up(text: &[u8], shares: &[Share], slots: &[u32], name: &[u8]) -> (usize, usize)
    requires { 1 ≤ length slots.now }
    ensures slot { result.0 < length slots.now }
    ensures found { result.1 < length shares.now →
        name_in text.now (slice_index_or shares.now result.1 no_share) ≡ name.now }
{
    let mut slot = first_slot(name, slots.len());
    'tries: for _ in 0..TRIES {
        let place = slots[slot] as usize;
        if may_take(text, shares, place, name) {
            return (slot, place);
        }
        slot = (slot + 1) % slots.len();
    }
    (slot, shares.len())
}

// Adds a share to that of its name, or, if that is not found, after the others. The slots hold places of shares, but
// nothing rests on that: a share that is not found is only one more of its name.
fn put_share(
    text: &[u8],
    shares: &mut Vec<Share>,
    slots: &mut [u32],
    share: Share,
) -> Result<(), NoMemory>
    requires some { 1 ≤ length slots.old }
    requires few { length shares.old.items ≤ 2 * MAX_TERMS }
    ensures slots { length slots.new ≡ length slots.old }
    ensures sums { OnOk result ((name : List ℕ) → sum_in text.now shares.new.items name
        ≡ sum_in text.now (shares.old.items ++ share ∷ []) name) }
    ensures few { OnOk result (length shares.new.items ≤ length shares.old.items + 1) }
{
    let (slot, place) = look_up(text, shares, slots, share.name(text));
    if place < shares.len() {
        let known = shares[place];
        if let Some(sum) = known.count.checked_add(share.count) {
            shares[place] = Share {
                at: known.at,
                length: known.length,
                count: sum,
            };
            return Ok(());
        }
    }
    slots[slot] = shares.len() as u32;
    shares.push(share)?;
    Ok(())
}

// Adds the shares of a side's terms, with the sign of the side.
fn put_shares(
    text: &[u8],
    shares: &mut Vec<Share>,
    slots: &mut [u32],
    side: &[Term],
    sign: i32,
) -> Result<(), NoMemory>
    requires some { 1 ≤ length slots.old }
    requires few { length shares.old.items + length side.now ≤ 2 * MAX_TERMS }
    requires sign { nat_abs sign ≡ 1 }
    requires numbers { AllByRecursion (λ t. t.count ≤ MAX_AMOUNT) side.now }
    ensures slots { length slots.new ≡ length slots.old }
    ensures sums { OnOk result ((name : List ℕ) → sum_in text.now shares.new.items name
        ≡ sum_in text.now (shares.old.items ++ map (share_of sign) side.now) name) }
    ensures few { OnOk result
        (length shares.new.items ≤ length shares.old.items + length side.now) }
{
    'terms: for term in side {
        put_share(text, shares, slots, Share::new(term, sign))?;
    }
    Ok(())
}

// Shares that add up to the same sums as those of all terms, nearly always one for each name. It takes 16 bytes for
// each term: room for a share, and a slot.
pub(crate) fn merged(
    alloc: Global,
    text: &[u8],
    left: &[Term],
    right: &[Term],
) -> Result<Vec<Share>, NoMemory>
    requires left { AllByRecursion (λ t. t.count ≤ MAX_AMOUNT) left.now }
    requires right { AllByRecursion (λ t. t.count ≤ MAX_AMOUNT) right.now }
    requires left_few { length left.now ≤ MAX_TERMS }
    requires right_few { length right.now ≤ MAX_TERMS }
    ensures sums { IfOk result (λ shares. (name : List ℕ) → sum_in text.now shares.items name
        ≡ pos (amount_in (side_of text.now left.now) name)
        -ℤ pos (amount_in (side_of text.now right.now) name)) }
    ensures few { IfOk result (λ shares. length shares.items ≤ 2 * MAX_TERMS) }
{
    let count = left.len() + right.len();
    let mut shares = Vec::with_capacity(alloc, count)?;
    let mut slots = vec![in alloc; u32::MAX; count + 1]?;
    put_shares(text, &mut shares, &mut slots, left, 1)?;
    put_shares(text, &mut shares, &mut slots, right, -1)?;
    Ok(shares)
}

// The shares that are not zero, in the same order.
pub(crate) fn without_zeros(alloc: Global, shares: &[Share]) -> Result<Vec<Share>, NoMemory>
    requires few { length shares.now ≤ 2 * MAX_TERMS }
    ensures sums { IfOk result (λ kept. (text name : List ℕ) →
        sum_in text kept.items name ≡ sum_in text shares.now name) }
    ensures few { IfOk result (λ kept. length kept.items ≤ 2 * MAX_TERMS) }
{
    let mut kept = Vec::new(alloc);
    'shares: for share in shares {
        if share.count != 0 {
            kept.push(*share)?;
        }
    }
    Ok(kept)
}
