ghost use Rattle.std.specs.Prelude.{◌≡◌, ◌≤◌, ℕ, List, IsTrue, IfOk};
ghost use Rattle.std.specs.List.{AllByRecursion};
ghost use Rattle.crn_vec.specs.Network.{amount_in};
ghost use Rattle.crn_net.specs.Terms.{side_of};
ghost use Rattle.crn_net.specs.Inner.BucketSums.{word, joined, mark_after, mark};

use crate::side_sums::name_of;
use crate::term::Term;
use crn_vec::{MAX_AMOUNT, NoMemory};
use std::alloc::Global;

// Four bytes as one number, the first the highest.
fn word(a: u8, b: u8, c: u8, d: u8) -> usize
    ensures { result ≡ word a b c d }
{
    ((usize::from(a) * 256 + usize::from(b)) * 256 + usize::from(c)) * 256 + usize::from(d)
}

// The mark that goes on with a word.
fn joined(mark: usize, word: usize) -> usize
    ensures { result ≡ joined mark word }
{
    mark.wrapping_mul(0x9e37_79b9_7f4a_7c15).wrapping_add(word)
}

// The mark that goes on with these bytes, four at a time, as most names have no more. With a name within its limit it calls
// itself at most eight times.
fn mark_after(mark: usize, bytes: &[u8]) -> usize
    ensures { result ≡ mark_after mark bytes.now }
{
    match bytes {
        [] => mark,
        [a] => joined(mark, word(0, 0, 0, *a)),
        [a, b] => joined(mark, word(0, 0, *a, *b)),
        [a, b, c] => joined(mark, word(0, *a, *b, *c)),
        [a, b, c, d, rest @ ..] => mark_after(joined(mark, word(*a, *b, *c, *d)), rest),
    }
}

// A number for a name, which few other names share.
pub(crate) fn mark_of(name: &[u8]) -> usize
    ensures { result ≡ mark name.now }
{
    mark_after(name.len(), name)
}

// Whether no bucket of names has a sum above the limit of an amount, so that no name has one. All terms of one name are
// in one bucket. It takes one byte for each bucket, and the more there are, the fewer names share one.
pub(crate) fn buckets_fit(
    alloc: Global,
    text: &[u8],
    side: &[Term],
    size: usize,
) -> Result<bool, NoMemory>
    requires some { 1 ≤ size }
    requires numbers { AllByRecursion (λ t. t.count ≤ MAX_AMOUNT) side.now }
    ensures { let amount = amount_in (side_of text.now side.now) in
        IfOk result (λ fit. IsTrue fit → (name : List ℕ) → amount name ≤ MAX_AMOUNT) }
{
    let mut sums = vec![in alloc; 0u8; size]?;
    for term in side {
        let bucket = mark_of(name_of(text, term)) % size;
        let sum = u32::from(sums[bucket]) + term.count;
        if sum > MAX_AMOUNT {
            return Ok(false);
        }
        sums[bucket] = sum as u8;
    }
    Ok(true)
}
