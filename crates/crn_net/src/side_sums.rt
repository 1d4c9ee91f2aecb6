ghost use Rattle.std.specs.Prelude.{◌≡◌, ◌≤◌, ◌<◌, ◌↔◌, ◌*◌, ◌^◌, ℕ, List, false, pos, nat_abs, ◌≤ℤ◌, length, map, take, drop, IsTrue, IfOk};
ghost use Rattle.std.specs.List.{AllByRecursion, sum_by};
ghost use Rattle.crn_vec.specs.Network.{amount_in};
ghost use Rattle.crn_net.specs.Inner.Sums.{share_of, name_in, sum_in, AreByName};
ghost use Rattle.crn_net.specs.Terms.{name_at, side_of, statement_of, IsSide};
ghost use Rattle.crn_net.specs.Inner.Steps.{SaysSame};

use crate::buckets::buckets_fit;
use crate::merge::{merged, without_zeros};
use crate::term::Term;
use crn_vec::{MAX_AMOUNT, MAX_TERMS, NoMemory};
use std::alloc::Global;

// The least number of buckets that sums are tried in. It is a prime far from powers of two, so that names which differ in
// their last two digits alone, as S12 and S51, are seldom in one: with 1,023 buckets these were.
const MIN_BUCKETS: usize = 967;

// At most `length` bytes of a text from place `at` on. The two `min`s make it total: the closure that compares two
// shares can't have a precondition.
fn part(text: &[u8], at: u32, length: u32) -> &[u8]
    ensures { result.now ≡ take length (drop at text.now) }
{
    let (_, rest) = text.split_at(text.len().min(at as usize));
    let (bytes, _) = rest.split_at(rest.len().min(length as usize));
    bytes
}

// The bytes of a term's name.
pub(crate) fn name_of<'a>(text: &'a [u8], term: &Term) -> &'a [u8]
    ensures { result.now ≡ name_at text.now term.now }
{
    part(text, term.at, term.length)
}

// What a term, or several terms of one name, contribute to the sum of the name. It is small, since a statement may have
// very many terms.
#[derive(Clone, Copy)]
pub(crate) struct Share {
    pub(crate) at: u32,
    pub(crate) length: u32,
    pub(crate) count: i32,
}

impl Share {
    // The share of a term. Its sign is 1 on the left side, and -1 on the right.
    pub(crate) fn new(term: &Term, sign: i32) -> Share
        requires sign { nat_abs sign ≡ 1 }
        requires number { term.now.count ≤ MAX_AMOUNT }
        ensures { result ≡ share_of sign term.now }
    {
        Share {
            at: term.at,
            length: term.length,
            count: sign * term.count as i32,
        }
    }

    pub(crate) fn name<'a>(&self, text: &'a [u8]) -> &'a [u8]
        ensures { result.now ≡ name_in text.now self.now }
    {
        part(text, self.at, self.length)
    }
}

// Shares in the order of their names.
fn by_name(text: &[u8], mut shares: Vec<Share>) -> Vec<Share>
    ensures sums { (name : List ℕ) →
        sum_in text.now result.items name ≡ sum_in text.now shares.items name }
    ensures few { length result.items ≡ length shares.items }
    ensures by_name { AreByName text.now result.items }
{
    shares.sort_unstable_by(|a, b| a.name(text).cmp(b.name(text)));
    shares
}

// Whether each name's sum is between 0 and the limit. Shares of one name are adjacent.
fn sums_lie_within(text: &[u8], shares: &[Share], limit: i64) -> bool
    requires limit { pos 0 ≤ℤ limit }
    requires few { length shares.now ≤ 2 * MAX_TERMS }
    requires by_name { AreByName text.now shares.now }
    ensures { IsTrue result ↔ ((name : List ℕ) →
        (pos 0 ≤ℤ sum_in text.now shares.now name) × (sum_in text.now shares.now name ≤ℤ limit)) }
{
    // No share has been read yet, so the sum of any name is 0, which is within the limit.
    let mut name = [].as_slice();
    let mut sum = 0i64;
    for share in shares {
        let next = share.name(text);
        if next != name {
            if sum < 0 || limit < sum {
                return false;
            }
            name = next;
            sum = 0;
        }
        sum += i64::from(share.count);
    }
    0 <= sum && sum <= limit
}

// Whether two terms have one name and one number.
fn are_equal(text: &[u8], one: &Term, other: &Term) -> bool
    ensures name { IsTrue result → name_at text.now one.now ≡ name_at text.now other.now }
    ensures number { IsTrue result → one.now.count ≡ other.now.count }
{
    one.count == other.count && name_of(text, one) == name_of(text, other)
}

// Whether both sides are the same terms in the same order.
fn are_alike(text: &[u8], left: &[Term], right: &[Term]) -> bool
    ensures { IsTrue result → side_of text.now left.now ≡ side_of text.now right.now }
{
    if left.len() != right.len() {
        return false;
    }
    for i in 0..left.len() {
        if !are_equal(text, &left[i], &right[i]) {
            return false;
        }
    }
    true
}

// Whether a side has a term of a name.
fn has_name(text: &[u8], side: &[Term], name: &[u8]) -> bool
    ensures { result ≡ false → amount_in (side_of text.now side.now) name.now ≡ 0 }
{
    for term in side {
        if name_of(text, term) == name {
            return true;
        }
    }
    false
}

// Whether the first name of the left side is not on the right side.
fn first_name_is_missing(text: &[u8], left: &[Term], right: &[Term]) -> bool
    requires { IsSide text.now left.now }
    ensures { let statement = statement_of text.now left.now right.now in
        IsTrue result → SaysSame statement → ⊥ }
{
    match left {
        [] => false,
        [first, ..] => !has_name(text, right, name_of(text, first)),
    }
}

// Whether both sides are the same complex. It serves statements with more names than a row has places. It takes as
// long as looking each name up, and sorting those names whose sums differ; less if the sides are the same terms in one
// order, or the first name of the left side is not on the right. It takes up to 28 bytes for each term.
pub(crate) fn says_same(
    alloc: Global,
    text: &[u8],
    left: &[Term],
    right: &[Term],
) -> Result<bool, NoMemory>
    requires left { IsSide text.now left.now }
    requires right { IsSide text.now right.now }
    ensures { let statement = statement_of text.now left.now right.now in
        IfOk result (λ same. IsTrue same ↔ SaysSame statement) }
{
    if are_alike(text, left, right) {
        return Ok(true);
    }
    if first_name_is_missing(text, left, right) {
        return Ok(false);
    }
    let all = merged(alloc, text, left, right)?;
    let some = without_zeros(alloc, &all)?;
    let shares = by_name(text, some);
    Ok(sums_lie_within(text, &shares, 0))
}

// The sum of all numbers of a side.
fn total(side: &[Term]) -> u32
    requires { sum_by (λ t. t.count) side.now < 2 ^ 32 }
    ensures { result ≡ sum_by (λ t. t.count) side.now }
{
    side.iter().map(|term| term.count).sum()
}

/// Whether each name's sum on the side is within the limit of an amount, as `NetBuilder::add` requires.
///
/// If all numbers together exceed the limit, it takes up to 16 bytes for each term, or 967 if that is more.
pub fn sums_fit(alloc: Global, text: &[u8], side: &[Term]) -> Result<bool, NoMemory>
    requires numbers { AllByRecursion (λ t. t.count ≤ MAX_AMOUNT) side.now }
    requires few { length side.now ≤ MAX_TERMS }
    ensures { let amount = amount_in (side_of text.now side.now) in
        IfOk result (λ fit. IsTrue fit ↔ ((name : List ℕ) → amount name ≤ MAX_AMOUNT)) }
{
    // Nearly every side is this small, and takes no memory.
    if total(side) <= MAX_AMOUNT {
        return Ok(true);
    }
    // One more than the terms: their number is often a power of two, and the last bits of a mark depend on few bytes of a
    // name.
    if buckets_fit(alloc, text, side, (side.len() + 1).max(MIN_BUCKETS))? {
        return Ok(true);
    }
    let all = merged(alloc, text, side, &[])?;
    let shares = by_name(text, all);
    Ok(sums_lie_within(text, &shares, i64::from(MAX_AMOUNT)))
}
