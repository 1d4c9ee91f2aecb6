//! The coordinates at which the marked vector does not suit what is required.

ghost use Rattle.std.specs.Prelude.{◌≡◌, ◌<◌, ◌*◌, length, OnOk};
ghost use Rattle.crn_sign.specs.Inner.Bits.{word_count};
ghost use Rattle.crn_sign.specs.Inner.Marks.{AreRowMarks};
ghost use Rattle.crn_sign.specs.Inner.Parts.{IsFinder};

use crate::bits::{Bits, bit_of, mark_at, push_places, word_of};
use crate::finder::Finder;
use crate::marks::{Mark, misfit_places};
use crn_vec::{Matrix, NoMemory};

// What is required without these coordinates.
fn without(bits: Bits, places: u64) -> Bits {
    Bits {
        plus: bits.plus & !places,
        minus: bits.minus & !places,
    }
}

/// Whether a misfit has to be made 0: where a number at least 0 is required, 0 will do.
pub(crate) fn has_to_be_zero(weak: &[u64], asked: &[Bits], g: usize) -> bool
    requires { g < length asked.now * 64 }
{
    mark_at(asked, g) == Mark::Any || bit_of(weak, g) != 0
}

impl Finder {
    /// Lists the coordinates whose marks do not suit what is required, and requires nothing there of a vector that
    /// changes them. The answer is whether one of them has to be 0.
    pub fn list_misfits(
        &mut self,
        matrix: &Matrix,
        weak: &[u64],
        asked: &[Bits],
        marks: &[Bits],
    ) -> Result<bool, NoMemory>
        requires finder { IsFinder matrix.now self.old }
        requires long { length asked.now ≡ word_count matrix.now }
        requires marks { AreRowMarks matrix.now marks.now }
        ensures finder { OnOk result (IsFinder matrix.now self.new) }
    {
        let _ = matrix.rows();
        self.misfit_coordinates.clear();
        let mut zeros = 0;
        for w in 0..asked.len() {
            let weak = word_of(weak, w);
            let wrong = misfit_places(asked[w], weak, marks[w]);
            self.required_of_change[w] = without(asked[w], wrong);
            zeros = zeros | (wrong & asked[w].plus & (asked[w].minus | weak));
            push_places(&mut self.misfit_coordinates, 64 * w, wrong)?;
        }
        Ok(zeros != 0)
    }
}
