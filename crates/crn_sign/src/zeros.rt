//! Numbers of the marked vector that have to become 0, made so by kept vectors or by the solver's.

ghost use Rattle.std.specs.Prelude.{◌≡◌, ◌<◌, ◌*◌, List, length, IfErr, OnOk, true};
ghost use Rattle.crn_vec.specs.Elementary.{width};
ghost use Rattle.crn_vec.specs.Systems.{is_signed};
ghost use Rattle.crn_farkas.specs.Decision.{IsTargetStop};
ghost use Rattle.crn_sign.specs.Inner.Bits.{word_count};
ghost use Rattle.crn_sign.specs.Inner.Marks.{AreRowMarks};
ghost use Rattle.crn_sign.specs.Inner.Parts.{IsFinder};

use crate::bits::{Bits, mark_at, put_mark};
use crate::finder::Finder;
use crate::marks::{Mark, add_multiple, cancel_at};
use crate::misfits::has_to_be_zero;
use crn_farkas::Stop;
use crn_vec::{Kind, Matrix, Sign};

// The sign of the numbers of a kind that is positive or negative.
fn sign_of_kind(kind: Kind) -> Sign {
    match kind {
        Kind::Pos => Sign::Plus,
        _ => Sign::Minus,
    }
}

// Requires 0 at a coordinate.
fn ask_zero(asked: &mut [Bits], g: usize)
    requires { g < length asked.old * 64 }
    ensures { length asked.new ≡ length asked.old }
{
    put_mark(asked, g, Mark::Any);
}

impl Finder {
    // Makes the marked vector 0 at g by a vector of this kind there. The answer is whether there is one.
    fn cancel_by_kind(
        &mut self,
        matrix: &Matrix,
        weak: &[u64],
        marks: &mut [Bits],
        g: usize,
        kind: Kind,
    ) -> Result<bool, Stop>
        requires finder { IsFinder matrix.now self.old }
        requires marks { AreRowMarks matrix.now marks.old }
        requires goal { g < width matrix.now }
        requires asked { is_signed kind ≡ true }
        ensures finder { OnOk result (IsFinder matrix.now self.new) }
        ensures marks { OnOk result (AreRowMarks matrix.now marks.new) }
        ensures stop { IfErr result (λ s. (kinds : List Kind) → IsTargetStop matrix.now kinds s) }
    {
        if let Some(number) = self
            .pool
            .find(matrix, &self.required_of_change, g, sign_of_kind(kind))
        {
            if number < self.pool.rays.len() {
                return Ok(cancel_at(matrix, &self.pool.rays[number].marks, marks, g));
            }
        }
        if self.ask_change(matrix, weak, g, kind)? {
            return Ok(cancel_at(matrix, &self.witness_marks, marks, g));
        }
        Ok(false)
    }

    // Gives the marked vector the sign of this kind at g. The answer is whether there is a vector for it.
    fn give_sign_of_kind(
        &mut self,
        matrix: &Matrix,
        weak: &[u64],
        marks: &mut [Bits],
        g: usize,
        kind: Kind,
    ) -> Result<bool, Stop>
        requires finder { IsFinder matrix.now self.old }
        requires marks { AreRowMarks matrix.now marks.old }
        requires goal { g < width matrix.now }
        requires asked { is_signed kind ≡ true }
        ensures finder { OnOk result (IsFinder matrix.now self.new) }
        ensures marks { OnOk result (AreRowMarks matrix.now marks.new) }
        ensures stop { IfErr result (λ s. (kinds : List Kind) → IsTargetStop matrix.now kinds s) }
    {
        if let Some(number) = self
            .pool
            .find(matrix, &self.required_of_change, g, sign_of_kind(kind))
        {
            if number < self.pool.rays.len() {
                add_multiple(matrix, &self.pool.rays[number].marks, marks);
                return Ok(true);
            }
        }
        if self.ask_change(matrix, weak, g, kind)? {
            add_multiple(matrix, &self.witness_marks, marks);
            return Ok(true);
        }
        Ok(false)
    }

    // Makes the marked vector 0 at g, if there are vectors for it. The answer is whether there are.
    fn make_zero(
        &mut self,
        matrix: &Matrix,
        weak: &[u64],
        marks: &mut [Bits],
        g: usize,
    ) -> Result<bool, Stop>
        requires finder { IsFinder matrix.now self.old }
        requires marks { AreRowMarks matrix.now marks.old }
        requires goal { g < width matrix.now }
        ensures finder { OnOk result (IsFinder matrix.now self.new) }
        ensures marks { OnOk result (AreRowMarks matrix.now marks.new) }
        ensures stop { IfErr result (λ s. (kinds : List Kind) → IsTargetStop matrix.now kinds s) }
    {
        match mark_at(marks, g) {
            Mark::Zero => Ok(true),
            Mark::Plus => self.cancel_by_kind(matrix, weak, marks, g, Kind::Neg),
            Mark::Minus => self.cancel_by_kind(matrix, weak, marks, g, Kind::Pos),
            Mark::Any => {
                if !self.give_sign_of_kind(matrix, weak, marks, g, Kind::Pos)? {
                    return Ok(false);
                }
                self.cancel_by_kind(matrix, weak, marks, g, Kind::Neg)
            }
        }
    }

    // Makes the marked vector 0 at a misfit, if it has to be. The answer is no if there are no vectors for it.
    fn make_misfit_zero(
        &mut self,
        matrix: &Matrix,
        weak: &[u64],
        asked: &[Bits],
        marks: &mut [Bits],
        g: usize,
    ) -> Result<bool, Stop>
        requires finder { IsFinder matrix.now self.old }
        requires long { length asked.now ≡ word_count matrix.now }
        requires marks { AreRowMarks matrix.now marks.old }
        requires goal { g < width matrix.now }
        ensures finder { OnOk result (IsFinder matrix.now self.new) }
        ensures marks { OnOk result (AreRowMarks matrix.now marks.new) }
        ensures stop { IfErr result (λ s. (kinds : List Kind) → IsTargetStop matrix.now kinds s) }
    {
        if !has_to_be_zero(weak, asked, g) {
            return Ok(true);
        }
        if !self.make_zero(matrix, weak, marks, g)? {
            return Ok(false);
        }
        ask_zero(&mut self.required_of_change, g);
        Ok(true)
    }

    /// Makes the marked vector 0 at the misfits that have to be. The answer is whether there are vectors
    /// for it.
    pub fn make_misfits_zero(
        &mut self,
        matrix: &Matrix,
        weak: &[u64],
        asked: &[Bits],
        marks: &mut [Bits],
    ) -> Result<bool, Stop>
        requires finder { IsFinder matrix.now self.old }
        requires long { length asked.now ≡ word_count matrix.now }
        requires marks { AreRowMarks matrix.now marks.old }
        ensures finder { OnOk result (IsFinder matrix.now self.new) }
        ensures marks { OnOk result (AreRowMarks matrix.now marks.new) }
        ensures stop { IfErr result (λ s. (kinds : List Kind) → IsTargetStop matrix.now kinds s) }
    {
        for i in 0..self.misfit_coordinates.len() {
            if i < self.misfit_coordinates.len() {
                let g = self.misfit_coordinates[i];
                if g < self.witness_signs.len() {
                    if !self.make_misfit_zero(matrix, weak, asked, marks, g)? {
                        return Ok(false);
                    }
                }
            }
        }
        Ok(true)
    }
}
