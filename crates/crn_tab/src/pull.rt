ghost use Rattle.std.specs.Prelude.{◌≡◌, ◌<◌, length};
ghost use Rattle.crn_vec.specs.Lists.{IsIn};
ghost use Rattle.crn_vec.specs.Elementary.{width};
ghost use Rattle.crn_tab.specs.Slots.{basis_of, IsTableau};

use crate::fields::Fields;
use crate::fill::part;
use crate::tableau::Tableau;
use crn_vec::{Kind, unit_asked};

// Minus the sum of the products of a row and what the members of the basis have, as their kinds require, and the row's own entry.
fn pull_of(fields: &Fields, row: usize, kinds: &[Kind]) -> (i128, i128)
    requires tableau { IsTableau fields.now.matrix.now fields.now.at.now fields.now.order.now
        fields.now.rows.now }
    requires inside { row < width fields.now.matrix.now }
    requires outside { IsIn row (basis_of fields.now.matrix.now.cols fields.now.at.now) → ⊥ }
    requires kinds { length kinds.now ≡ width fields.now.matrix.now }
{
    let n = fields.matrix.cols();
    let kept = part(fields.rows, fields.at[row] - n, n + 1);
    let mut sum = 0i128;
    for s in 0..n {
        let unit = unit_asked(kinds[fields.order[s]]);
        sum = sum.wrapping_sub(kept[s].wrapping_mul(unit) as i128);
    }
    (sum, kept[n] as i128)
}

impl Tableau {
    /// What a coordinate outside the basis has if each member of the basis has 1 or -1, as its kind requires, or 0 if it requires neither:
    /// a numerator, and the denominator.
    ///
    /// Nothing is promised of these numbers: they choose an exchange or make up a list that is tested. It takes no memory.
    pub fn pull(&self, row: usize, kinds: &[Kind]) -> (i128, i128)
        requires inside { row < width self.now.matrix }
        requires outside { IsIn row self.now.basis → ⊥ }
        requires kinds { length kinds.now ≡ width self.now.matrix }
    {
        pull_of(&self.fields(), row, kinds)
    }
}
