//! The marked vector is changed until it suits what is required, or a cut shows that none does.

ghost use Rattle.std.specs.Prelude.{◌≡◌, length, OnOk, MatchOption, MatchResult};
ghost use Rattle.crn_farkas.specs.Decision.{IsTargetStop};
ghost use Rattle.crn_farkas.specs.Solver.{IsCutBy};
ghost use Rattle.crn_sign.specs.Inner.Bits.{word_count};
ghost use Rattle.crn_sign.specs.Inner.Marks.{AreRowMarks, kinds_of};
ghost use Rattle.crn_sign.specs.Inner.Parts.{IsFinder};

use crate::bits::Bits;
use crate::finder::Finder;
use crate::marks::put_zeros;
use crn_farkas::{Cut, Stop};
use crn_vec::Matrix;

impl Finder {
    // Makes the marked vector 0 at the misfits that have to be, or begins with the vector 0, or finds a
    // vector by which the system has no solution.
    fn make_zeros(
        &mut self,
        matrix: &Matrix,
        weak: &[u64],
        asked: &[Bits],
        marks: &mut [Bits],
    ) -> Result<Option<Cut>, Stop>
        requires finder { IsFinder matrix.now self.old }
        requires long { length asked.now ≡ word_count matrix.now }
        requires marks { AreRowMarks matrix.now marks.old }
        ensures finder { OnOk result (IsFinder matrix.now self.new) }
        ensures marks { OnOk result (AreRowMarks matrix.now marks.new) }
        ensures answer { MatchResult result
            (λ o. MatchOption o (Unit {0})
            (λ cut. IsCutBy self.new.solver.matrix self.new.solver.basis
            (kinds_of matrix.now weak.now asked.now) cut.row cut.sign))
            (λ s. IsTargetStop matrix.now (kinds_of matrix.now weak.now asked.now) s) }
    {
        if self.make_misfits_zero(matrix, weak, asked, marks)? {
            return Ok(None);
        }
        put_zeros(matrix, marks);
        if let Some(cut) = self.give_required_signs(matrix, weak, asked, marks)? {
            return Ok(Some(cut));
        }
        let _ = self.list_misfits(matrix, weak, asked, marks)?;
        Ok(None)
    }

    /// Changes the marked vector until it suits the kinds, or finds a vector by which the system has no solution.
    pub fn fit_marks(
        &mut self,
        matrix: &Matrix,
        weak: &[u64],
        asked: &[Bits],
        marks: &mut [Bits],
    ) -> Result<Option<Cut>, Stop>
        requires finder { IsFinder matrix.now self.old }
        requires long { length asked.now ≡ word_count matrix.now }
        requires marks { AreRowMarks matrix.now marks.old }
        ensures finder { OnOk result (IsFinder matrix.now self.new) }
        ensures marks { OnOk result (AreRowMarks matrix.now marks.new) }
        ensures answer { MatchResult result
            (λ o. MatchOption o (Unit {0})
            (λ cut. IsCutBy self.new.solver.matrix self.new.solver.basis
            (kinds_of matrix.now weak.now asked.now) cut.row cut.sign))
            (λ s. IsTargetStop matrix.now (kinds_of matrix.now weak.now asked.now) s) }
    {
        if !self.list_misfits(matrix, weak, asked, marks)? {
            return self.give_required_signs(matrix, weak, asked, marks);
        }
        if let Some(cut) = self.make_zeros(matrix, weak, asked, marks)? {
            return Ok(Some(cut));
        }
        self.give_required_signs(matrix, weak, asked, marks)
    }
}
