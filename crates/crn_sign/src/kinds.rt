//! The kinds that words require, kept from one question to the next.

ghost use Rattle.std.specs.Prelude.{◌≡◌, ◌≢◌, ◌<◌, ◌≤◌, ◌+◌, ◌*◌, ◌/◌, ℕ, length, slice_set, true, IfOk};
ghost use Rattle.std.specs.Int.{bit_at};
ghost use Rattle.crn_vec.specs.Elementary.{width};
ghost use Rattle.crn_vec.specs.Systems.{is_signed, kind_at};
ghost use Rattle.crn_sign.specs.Inner.Bits.{mark_in, word_count};
ghost use Rattle.crn_sign.specs.Inner.Kinds.{AreKept};
ghost use Rattle.crn_sign.specs.Inner.Marks.{kind_of_mark, kinds_of};
ghost use Rattle.crn_sign.specs.Options.{weakened};

use crate::bits::{Bits, NONE, bit_in, mark_in, with_mark, without_bit, word_of};
use crate::marks::{Mark, word_count};
use crn_vec::{Kind, Matrix, NoMemory};
use std::alloc::Global;

/// A kind for each coordinate, and the words, of 64 coordinates each, by which it is required and by which it is weak. Only
/// the kinds at which new words differ from them are put anew.
#[derive(Drop)]
pub(crate) struct KeptKinds {
    pub kinds: Vec<Kind>,
    pub asked: Vec<Bits>,
    pub weak: Vec<u64>,
}

// The kind that a mark requires.
fn kind_of_mark(mark: Mark) -> Kind
    ensures { result ≡ kind_of_mark mark }
{
    match mark {
        Mark::Zero => Kind::Free,
        Mark::Plus => Kind::Pos,
        Mark::Minus => Kind::Neg,
        Mark::Any => Kind::Zero,
    }
}

// The mark that requires a kind that is positive or negative.
fn mark_of_kind(kind: Kind) -> Mark
    ensures { is_signed kind ≡ true → kind_of_mark result ≡ kind }
{
    match kind {
        Kind::Pos => Mark::Plus,
        _ => Mark::Minus,
    }
}

// The kind of a coordinate that may be weak.
fn weakened(kind: Kind, weak: u64) -> Kind
    ensures { result ≡ weakened kind weak }
{
    match kind {
        Kind::Zero => Kind::Zero,
        Kind::Pos => match weak {
            0 => Kind::Pos,
            _ => Kind::NonNeg,
        },
        Kind::Neg => Kind::Neg,
        Kind::NonNeg => Kind::NonNeg,
        Kind::Free => Kind::Free,
    }
}

// The places of 64 at which two words require different marks, or one is weak and the other not.
fn changed_places(was: Bits, weak_was: u64, bits: Bits, weak: u64) -> u64
    ensures marks { (i : ℕ) → bit_at result i ≡ 0 → mark_in was i ≡ mark_in bits i }
    ensures weak { (i : ℕ) → bit_at result i ≡ 0 → bit_at weak_was i ≡ bit_at weak i }
{
    (was.plus ^ bits.plus) | (was.minus ^ bits.minus) | (weak_was ^ weak)
}

// Puts the kind of a coordinate, if there is such a coordinate.
fn put_kind(kinds: &mut Vec<Kind>, k: usize, kind: Kind)
    ensures count { length kinds.new.items ≡ length kinds.old.items }
    ensures here { k < length kinds.old.items → kind_at kinds.new.items k ≡ kind }
    ensures others { (j : ℕ) → j ≢ k → kind_at kinds.new.items j ≡ kind_at kinds.old.items j }
{
    if k < kinds.len() {
        kinds[k] = kind;
    }
}

// Puts the kinds that are required of the coordinates of a word, in place of those that were.
fn put_kinds(kinds: &mut Vec<Kind>, was: Bits, weak_was: u64, bits: Bits, weak: u64, w: usize)
    requires word { w ≤ 1024 }
    requires kept { (i : ℕ) → i < 64 → 64 * w + i < length kinds.old.items
        → kind_at kinds.old.items (64 * w + i)
        ≡ weakened (kind_of_mark (mark_in was i)) (bit_at weak_was i) }
    ensures count { length kinds.new.items ≡ length kinds.old.items }
    ensures here { (i : ℕ) → i < 64 → 64 * w + i < length kinds.old.items
        → kind_at kinds.new.items (64 * w + i)
        ≡ weakened (kind_of_mark (mark_in bits i)) (bit_at weak i) }
    ensures others { (k : ℕ) → k / 64 ≢ w
        → kind_at kinds.new.items k ≡ kind_at kinds.old.items k }
{
    let mut rest = changed_places(was, weak_was, bits, weak);
    'bits: while rest != 0 {
        let i = rest.trailing_zeros() as usize;
        let kind = weakened(kind_of_mark(mark_in(bits, i)), bit_in(weak, i));
        put_kind(kinds, 64 * w + i, kind);
        rest = without_bit(rest, i);
    }
}

impl KeptKinds {
    /// Kinds of which nothing is required.
    pub fn new(alloc: Global, matrix: &Matrix) -> Result<KeptKinds, NoMemory>
        ensures { IfOk result (λ made. AreKept matrix.now made) }
    {
        let count = matrix.cols() + matrix.rows();
        let words = word_count(matrix);
        Ok(KeptKinds {
            kinds: vec![in alloc; Kind::Free; count]?,
            asked: vec![in alloc; NONE; words]?,
            weak: vec![in alloc; 0u64; words]?,
        })
    }

    // Requires this of the coordinates of word w, in place of what was required.
    fn put_word(&mut self, matrix: &Matrix, w: usize, bits: Bits, weak: u64)
        requires kept { AreKept matrix.now self.old }
        requires word { w < word_count matrix.now }
        ensures kept { AreKept matrix.now self.new }
        ensures asked { self.new.asked.items ≡ slice_set self.old.asked.items w bits }
        ensures weak { self.new.weak.items ≡ slice_set self.old.weak.items w weak }
    {
        let _ = matrix.cols();
        let _ = matrix.rows();
        put_kinds(&mut self.kinds, self.asked[w], self.weak[w], bits, weak, w);
        self.asked[w] = bits;
        self.weak[w] = weak;
    }

    /// Requires what these words do, in place of what was required.
    pub fn ask(&mut self, matrix: &Matrix, weak: &[u64], asked: &[Bits])
        requires kept { AreKept matrix.now self.old }
        requires long { length asked.now ≡ word_count matrix.now }
        ensures kept { AreKept matrix.now self.new }
        ensures kinds { self.new.kinds.items ≡ kinds_of matrix.now weak.now asked.now }
    {
        for w in 0..asked.len() {
            self.put_word(matrix, w, asked[w], word_of(weak, w));
        }
    }

    /// Requires a number of this kind, which is positive or negative, at g, in place of what was required there.
    pub fn ask_signed(&mut self, matrix: &Matrix, g: usize, kind: Kind)
        requires kept { AreKept matrix.now self.old }
        requires goal { g < width matrix.now }
        requires asked { is_signed kind ≡ true }
        ensures kept { AreKept matrix.now self.new }
        ensures here { kind_at self.new.kinds.items g ≡ kind }
    {
        let _ = matrix.rows();
        let w = g / 64;
        self.kinds[g] = kind;
        self.asked[w] = with_mark(self.asked[w], g % 64, mark_of_kind(kind));
        self.weak[w] = without_bit(self.weak[w], g % 64);
    }
}
