//! Signs that the marked vector lacks, given by kept vectors or by the solver's.

ghost use Rattle.std.specs.Prelude.{◌≡◌, ◌<◌, length, OnOk, MatchOption, MatchResult, true};
ghost use Rattle.crn_vec.specs.Elementary.{width};
ghost use Rattle.crn_vec.specs.Systems.{is_signed, kind_at};
ghost use Rattle.crn_farkas.specs.Decision.{IsTargetStop};
ghost use Rattle.crn_farkas.specs.Solver.{IsCutBy};
ghost use Rattle.crn_sign.specs.Inner.Bits.{word_count};
ghost use Rattle.crn_sign.specs.Inner.Marks.{AreRowMarks, kinds_of};
ghost use Rattle.crn_sign.specs.Inner.Parts.{IsFinder};

use crate::bits::{Bits, bit_of, mark_at};
use crate::finder::Finder;
use crate::marks::{Mark, add_multiple};
use crn_farkas::{Cut, Stop};
use crn_vec::{Matrix, Sign};

impl Finder {
    // Gives the marked vector the sign that is required at g, by a vector that is kept or by the solver's, or finds
    // a vector by which the system has no solution.
    fn give_sign(
        &mut self,
        matrix: &Matrix,
        weak: &[u64],
        asked: &[Bits],
        marks: &mut [Bits],
        g: usize,
        sign: Sign,
    ) -> Result<Option<Cut>, Stop>
        requires finder { IsFinder matrix.now self.old }
        requires long { length asked.now ≡ word_count matrix.now }
        requires marks { AreRowMarks matrix.now marks.old }
        requires goal { g < width matrix.now }
        requires asked { is_signed (kind_at (kinds_of matrix.now weak.now asked.now) g) ≡ true }
        ensures finder { OnOk result (IsFinder matrix.now self.new) }
        ensures marks { OnOk result (AreRowMarks matrix.now marks.new) }
        ensures answer { MatchResult result
            (λ o. MatchOption o (Unit {0})
            (λ cut. IsCutBy self.new.solver.matrix self.new.solver.basis
            (kinds_of matrix.now weak.now asked.now) cut.row cut.sign))
            (λ s. IsTargetStop matrix.now (kinds_of matrix.now weak.now asked.now) s) }
    {
        if self.give_kept_sign(matrix, asked, marks, g, sign) {
            return Ok(None);
        }
        if let Some(cut) = self.ask_witness(matrix, weak, asked, g)? {
            return Ok(Some(cut));
        }
        add_multiple(matrix, &self.witness_marks, marks);
        Ok(None)
    }

    // The same, if the marked vector lacks a sign at g that is required.
    fn give_required_sign(
        &mut self,
        matrix: &Matrix,
        weak: &[u64],
        asked: &[Bits],
        marks: &mut [Bits],
        g: usize,
    ) -> Result<Option<Cut>, Stop>
        requires finder { IsFinder matrix.now self.old }
        requires long { length asked.now ≡ word_count matrix.now }
        requires marks { AreRowMarks matrix.now marks.old }
        requires goal { g < width matrix.now }
        ensures finder { OnOk result (IsFinder matrix.now self.new) }
        ensures marks { OnOk result (AreRowMarks matrix.now marks.new) }
        ensures answer { MatchResult result
            (λ o. MatchOption o (Unit {0})
            (λ cut. IsCutBy self.new.solver.matrix self.new.solver.basis
            (kinds_of matrix.now weak.now asked.now) cut.row cut.sign))
            (λ s. IsTargetStop matrix.now (kinds_of matrix.now weak.now asked.now) s) }
    {
        let mark = mark_at(asked, g);
        if mark_at(marks, g) == mark || bit_of(weak, g) != 0 {
            return Ok(None);
        }
        match mark {
            Mark::Plus => self.give_sign(matrix, weak, asked, marks, g, Sign::Plus),
            Mark::Minus => self.give_sign(matrix, weak, asked, marks, g, Sign::Minus),
            _ => Ok(None),
        }
    }

    /// Gives the marked vector the signs that are required at the misfits, or finds a vector by which the system has no
    /// solution.
    pub fn give_required_signs(
        &mut self,
        matrix: &Matrix,
        weak: &[u64],
        asked: &[Bits],
        marks: &mut [Bits],
    ) -> Result<Option<Cut>, Stop>
        requires finder { IsFinder matrix.now self.old }
        requires long { length asked.now ≡ word_count matrix.now }
        requires marks { AreRowMarks matrix.now marks.old }
        ensures finder { OnOk result (IsFinder matrix.now self.new) }
        ensures marks { OnOk result (AreRowMarks matrix.now marks.new) }
        ensures answer { MatchResult result
            (λ o. MatchOption o (Unit {0})
            (λ cut. IsCutBy self.new.solver.matrix self.new.solver.basis
            (kinds_of matrix.now weak.now asked.now) cut.row cut.sign))
            (λ s. IsTargetStop matrix.now (kinds_of matrix.now weak.now asked.now) s) }
    {
        for i in 0..self.misfit_coordinates.len() {
            if i < self.misfit_coordinates.len() {
                let g = self.misfit_coordinates[i];
                if g < self.witness_signs.len() {
                    if let Some(cut) = self.give_required_sign(matrix, weak, asked, marks, g)? {
                        return Ok(Some(cut));
                    }
                }
            }
        }
        Ok(None)
    }
}
