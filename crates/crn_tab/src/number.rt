ghost use Rattle.std.specs.Prelude.{◌≡◌, ◌≤◌, ◌<◌, ℤ, pos, ◌≤ℤ◌, List, unsigned_abs};
ghost use Rattle.crn_vec.specs.Vectors.{entry};
ghost use Rattle.crn_vec.specs.Lists.{IsIn};
ghost use Rattle.crn_vec.specs.Elementary.{width, IsNamed};
ghost use Rattle.crn_tab.specs.Slots.{basis_of, IsTableau};

use crate::fields::Fields;
use crate::fill::part;
use crate::row::slot_of;
use crate::tableau::Tableau;
use crn_vec::WIDE_ENTRY;

// An entry of the vector that a coordinate outside the basis names, positive at that coordinate.
pub(crate) fn number_at(fields: &Fields, row: usize, col: usize) -> i128
    requires tableau { IsTableau fields.now.matrix.now fields.now.at.now fields.now.order.now
        fields.now.rows.now }
    requires inside { row < width fields.now.matrix.now }
    requires outside { IsIn row (basis_of fields.now.matrix.now.cols fields.now.at.now) → ⊥ }
    requires place { col < width fields.now.matrix.now }
    ensures is { (w : List ℤ)
        → IsNamed fields.now.matrix.now (basis_of fields.now.matrix.now.cols fields.now.at.now)
        row w → pos 1 ≤ℤ entry w row → result ≡ entry w col }
    ensures small { unsigned_abs result < WIDE_ENTRY }
{
    let n = fields.matrix.cols();
    let i = fields.at[row] - n;
    slot_of(part(fields.rows, i, n + 1), n, i, fields.at[col])
}

impl Tableau {
    /// An entry of the primitive vector that the basis names by a coordinate outside it, positive at that coordinate. It takes no memory.
    pub fn number(&self, row: usize, col: usize) -> i128
        requires inside { row < width self.now.matrix }
        requires outside { IsIn row self.now.basis → ⊥ }
        requires place { col < width self.now.matrix }
        ensures is { (w : List ℤ) → IsNamed self.now.matrix self.now.basis row w
            → pos 1 ≤ℤ entry w row → result ≡ entry w col }
        ensures small { unsigned_abs result < WIDE_ENTRY }
    {
        number_at(&self.fields(), row, col)
    }
}
