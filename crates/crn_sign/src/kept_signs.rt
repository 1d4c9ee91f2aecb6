//! Signs that kept vectors give to the marked vector, with no solver asked.

ghost use Rattle.std.specs.Prelude.{◌≡◌, ◌<◌, length, IsTrue};
ghost use Rattle.crn_sign.specs.Inner.Bits.{word_count};
ghost use Rattle.crn_sign.specs.Inner.Marks.{AreRowMarks, AreSuited, kinds_of};
ghost use Rattle.crn_sign.specs.Inner.Parts.{IsFinder};

use crate::bits::{Bits, word_of};
use crate::finder::Finder;
use crate::marks::{add_multiple, misfit_places};
use crate::place::is_met;
use crn_vec::{Matrix, Sign};

// Whether one of 64 bits is 1.
fn has_bit(word: u64, i: usize) -> bool {
    i < 64 && (word >> i) & 1 == 1
}

// The sign that is required at one of 64 coordinates, which has to have one.
fn sign_asked(bits: Bits, i: usize) -> Sign {
    if has_bit(bits.plus, i) {
        Sign::Plus
    } else {
        Sign::Minus
    }
}

// Whether the marked vector is not 0 where it has to be.
fn has_zero_misfit(asked: &[Bits], marks: &[Bits]) -> bool {
    if asked.len() != marks.len() {
        return true;
    }
    let mut wrong = 0;
    for w in 0..asked.len() {
        wrong = wrong | (asked[w].plus & asked[w].minus & (marks[w].plus | marks[w].minus));
    }
    wrong != 0
}

impl Finder {
    /// Gives the marked vector this sign at g by a vector that is kept. The answer is whether one is kept.
    pub fn give_kept_sign(
        &mut self,
        matrix: &Matrix,
        asked: &[Bits],
        marks: &mut [Bits],
        g: usize,
        sign: Sign,
    ) -> bool
        requires finder { IsFinder matrix.now self.old }
        requires marks { AreRowMarks matrix.now marks.old }
        ensures finder { IsFinder matrix.now self.new }
        ensures marks { AreRowMarks matrix.now marks.new }
    {
        if let Some(number) = self.pool.find(matrix, asked, g, sign) {
            if number < self.pool.rays.len() {
                add_multiple(matrix, &self.pool.rays[number].marks, marks);
                return true;
            }
        }
        false
    }

    // Gives the marked vector the signs that are required at the coordinates of a word, by vectors that are
    // kept. The answer is whether such are kept.
    #[inline(always)]
    fn give_kept_signs_in_word(
        &mut self,
        matrix: &Matrix,
        weak: u64,
        asked: &[Bits],
        marks: &mut [Bits],
        w: usize,
    ) -> bool
        requires finder { IsFinder matrix.now self.old }
        requires word { w < length asked.now }
        requires asked { length asked.now ≡ word_count matrix.now }
        requires marks { AreRowMarks matrix.now marks.old }
        ensures finder { IsFinder matrix.now self.new }
        ensures marks { AreRowMarks matrix.now marks.new }
    {
        let _ = matrix.rows();
        let bits = asked[w];
        let mut rest = misfit_places(bits, weak, marks[w]);
        'places: while rest != 0 {
            let i = rest.trailing_zeros() as usize;
            if !self.give_kept_sign(matrix, asked, marks, 64 * w + i, sign_asked(bits, i)) {
                return false;
            }
            rest = rest & (rest - 1) & misfit_places(bits, weak, marks[w]);
        }
        true
    }

    // Gives the marked vector the signs that are required by vectors that are kept. The answer is whether it
    // suits then.
    #[inline(always)]
    fn give_kept_signs_in_words(
        &mut self,
        matrix: &Matrix,
        weak: &[u64],
        asked: &[Bits],
        marks: &mut [Bits],
    ) -> bool
        requires finder { IsFinder matrix.now self.old }
        requires asked { length asked.now ≡ word_count matrix.now }
        requires marks { AreRowMarks matrix.now marks.old }
        ensures finder { IsFinder matrix.now self.new }
        ensures marks { AreRowMarks matrix.now marks.new }
        ensures suits { IsTrue result
            → AreSuited (kinds_of matrix.now weak.now asked.now) marks.new }
    {
        for w in 0..asked.len() {
            if !self.give_kept_signs_in_word(matrix, word_of(weak, w), asked, marks, w) {
                return false;
            }
        }
        is_met(matrix, weak, asked, marks)
    }

    /// The same, unless some coordinate has to be made 0.
    ///
    /// That nothing is weak is said apart, as then the compiler leaves the words of what is out.
    #[inline(never)]
    pub fn give_kept_signs(
        &mut self,
        matrix: &Matrix,
        weak: &[u64],
        asked: &[Bits],
        marks: &mut [Bits],
    ) -> bool
        requires finder { IsFinder matrix.now self.old }
        requires asked { length asked.now ≡ word_count matrix.now }
        requires marks { AreRowMarks matrix.now marks.old }
        ensures finder { IsFinder matrix.now self.new }
        ensures marks { AreRowMarks matrix.now marks.new }
        ensures suits { IsTrue result
            → AreSuited (kinds_of matrix.now weak.now asked.now) marks.new }
    {
        if has_zero_misfit(asked, marks) {
            return false;
        }
        if weak.is_empty() {
            return self.give_kept_signs_in_words(matrix, &[], asked, marks);
        }
        self.give_kept_signs_in_words(matrix, weak, asked, marks)
    }
}
