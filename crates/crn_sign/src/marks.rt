ghost use Rattle.std.specs.Prelude.{◌≡◌, ◌<◌, ◌*◌, ℕ, length, IsTrue};
ghost use Rattle.std.specs.Int.{bit_at};
ghost use Rattle.crn_vec.specs.Elementary.{width};
ghost use Rattle.crn_sign.specs.Inner.RowSigns.{AreRowSigns};
ghost use Rattle.crn_sign.specs.declared.marks.Mark.TheVariants.{Zero};
ghost use Rattle.crn_sign.specs.Inner.Bits.{IsMarked, mark_at, mark_in, word_count};
ghost use Rattle.crn_sign.specs.Options.{weakened};
ghost use Rattle.crn_sign.specs.Inner.Marks.{AreMadeBy, AreMet, AreOpposite, AreRowMarks, Suits, united, kind_of_mark, laid, negative, sign_mark};

use crate::bits::{Bits, NONE, mark_at, put_mark, word_of};
use crn_vec::{Matrix, Sign};

/// What is known of the sign of a number.
#[derive(Clone, Copy, PartialEq, Eq)]
pub(crate) enum Mark {
    Zero,
    Plus,
    Minus,
    Any,
}

/// The number of words of 64 bits for the coordinates of a vector (x, Ax).
pub fn word_count(matrix: &Matrix) -> usize
    ensures { result ≡ word_count matrix.now }
{
    (matrix.cols() + matrix.rows()) / 64 + 1
}

// The marks of the sum of a great multiple of numbers of the first marks and numbers of the second.
fn laid(one: Bits, other: Bits) -> Bits
    ensures { (i : ℕ) → mark_in result i ≡ laid (mark_in one i) (mark_in other i) }
{
    let some = one.plus | one.minus;
    Bits {
        plus: one.plus | ((other.plus | some) ^ some),
        minus: one.minus | ((other.minus | some) ^ some),
    }
}

// The marks of a sum of multiples of numbers of these marks.
fn united(one: Bits, other: Bits) -> Bits
    ensures { (i : ℕ) → mark_in result i ≡ united (mark_in one i) (mark_in other i) }
{
    Bits {
        plus: one.plus | other.plus,
        minus: one.minus | other.minus,
    }
}

/// The marks of the negatives.
pub(crate) fn opposite(one: Bits) -> Bits
    ensures { (i : ℕ) → mark_in result i ≡ negative (mark_in one i) }
{
    Bits {
        plus: one.minus,
        minus: one.plus,
    }
}

/// The places of 64 at which a mark is not what is required. A weak plus is met by 0 too.
#[inline(always)]
pub(crate) fn misfit_places(asked: Bits, weak: u64, marks: Bits) -> u64
    ensures { (i : ℕ) → bit_at result i ≡ 0
        → Suits (weakened (kind_of_mark (mark_in asked i)) (bit_at weak i)) (mark_in marks i) }
{
    let plus = ((asked.plus | asked.minus) ^ asked.minus) ^ marks.plus;
    let minus = ((asked.plus | asked.minus) ^ asked.plus) ^ marks.minus;
    let apart = (plus | minus) & (asked.plus | asked.minus);
    let some = asked.minus | marks.minus;
    let eased = (weak | some) ^ some;
    (apart | eased) ^ eased
}

/// Whether each mark is what is required.
#[inline(always)]
pub(crate) fn all_meet(asked: &[Bits], weak: &[u64], marks: &[Bits]) -> bool
    ensures { IsTrue result → AreMet weak.now asked.now marks.now }
{
    if asked.len() != marks.len() {
        return false;
    }
    for w in 0..asked.len() {
        if misfit_places(asked[w], word_of(weak, w), marks[w]) != 0 {
            return false;
        }
    }
    true
}

// Puts the marks that `laid` gives.
fn put_laid(one: &[Bits], marks: &mut [Bits])
    requires { length one.now ≡ length marks.old }
    ensures { AreMadeBy laid one.now marks.old marks.new }
{
    for w in 0..marks.len() {
        marks[w] = laid(one[w], marks[w]);
    }
}

// Puts the marks that `united` gives.
fn put_united(one: &[Bits], marks: &mut [Bits])
    requires { length one.now ≡ length marks.old }
    ensures { AreMadeBy united one.now marks.old marks.new }
{
    for w in 0..marks.len() {
        marks[w] = united(one[w], marks[w]);
    }
}

/// Puts the marks of the negative.
pub(crate) fn put_opposites(_matrix: &Matrix, one: &[Bits], into: &mut [Bits])
    requires one { AreRowMarks _matrix.now one.now }
    requires room { length into.old ≡ word_count _matrix.now }
    ensures { AreRowMarks _matrix.now into.new }
{
    for w in 0..into.len() {
        into[w] = opposite(one[w]);
    }
}

// Makes each mark zero.
fn clear(marks: &mut [Bits])
    ensures count { length marks.new ≡ length marks.old }
    ensures none { (k : ℕ) → k < length marks.old * 64 → mark_at marks.new k ≡ Zero }
{
    for w in 0..marks.len() {
        marks[w] = NONE;
    }
}

/// Puts the marks of the vector 0.
pub(crate) fn put_zeros(_matrix: &Matrix, marks: &mut [Bits])
    requires { length marks.old ≡ word_count _matrix.now }
    ensures { AreRowMarks _matrix.now marks.new }
{
    clear(marks);
}

// Puts the mark of a number of this sign at a coordinate whose mark is zero.
fn put_sign(marks: &mut [Bits], k: usize, sign: Sign)
    requires inside { k < length marks.old * 64 }
    requires none { mark_at marks.old k ≡ Zero }
    ensures { IsMarked marks.old k (sign_mark sign) marks.new }
{
    match sign {
        Sign::Zero => {}
        Sign::Plus => put_mark(marks, k, Mark::Plus),
        Sign::Minus => put_mark(marks, k, Mark::Minus),
    }
}

/// Puts the marks of numbers of these signs.
pub(crate) fn put_signs(_matrix: &Matrix, signs: &[Sign], into: &mut [Bits])
    requires signs { AreRowSigns _matrix.now signs.now }
    requires room { length into.old ≡ word_count _matrix.now }
    ensures { AreRowMarks _matrix.now into.new }
{
    clear(into);
    for k in 0..signs.len() {
        put_sign(into, k, signs[k]);
    }
}

/// Adds a great multiple of a vector of these marks to the vector that is marked.
pub(crate) fn add_multiple(_matrix: &Matrix, one: &[Bits], marks: &mut [Bits])
    requires one { AreRowMarks _matrix.now one.now }
    requires marks { AreRowMarks _matrix.now marks.old }
    ensures { AreRowMarks _matrix.now marks.new }
{
    put_laid(one, marks);
}

// Whether numbers of these marks are one positive and the other negative.
fn are_opposite(one: Mark, other: Mark) -> bool
    ensures { IsTrue result → AreOpposite one other }
{
    match one {
        Mark::Plus => other == Mark::Minus,
        Mark::Minus => other == Mark::Plus,
        _ => false,
    }
}

/// Adds a multiple of a vector of these marks to one of the vector that is marked, so that the sum
/// is 0 at g, if they have opposite signs there. The answer is whether they have.
pub(crate) fn cancel_at(_matrix: &Matrix, one: &[Bits], marks: &mut [Bits], g: usize) -> bool
    requires one { AreRowMarks _matrix.now one.now }
    requires marks { AreRowMarks _matrix.now marks.old }
    requires goal { g < width _matrix.now }
    ensures { AreRowMarks _matrix.now marks.new }
{
    if !are_opposite(mark_at(one, g), mark_at(marks, g)) {
        return false;
    }
    put_united(one, marks);
    put_mark(marks, g, Mark::Zero);
    true
}
