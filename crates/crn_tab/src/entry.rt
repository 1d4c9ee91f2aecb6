ghost use Rattle.std.specs.Prelude.{◌≡◌, ◌≢◌, ◌≤◌, ◌<◌, ◌*◌, ◌+◌, ℤ, pos, neg_ℤ, List, ◌≤ℤ◌, ◌*ℤ◌, unsigned_abs};
ghost use Rattle.std.specs.Int.{IsGcd};
ghost use Rattle.crn_vec.specs.Lists.{IsIn};
ghost use Rattle.crn_vec.specs.Elementary.{width, IsNamed, IsNamedColumn, IsNamedRow};
ghost use Rattle.crn_vec.specs.Vectors.{entry};
ghost use Rattle.crn_tab.specs.Slots.{basis_of, IsTableau};

use crate::fields::Fields;
use crate::fill::part;
use crn_frac::Frac;
use crn_vec::WIDE_ENTRY;

// Minus a number over a positive one.
fn negative_quotient(num: &i64, den: &i64) -> Frac
    requires num_small { unsigned_abs num.now < WIDE_ENTRY }
    requires den_small { unsigned_abs den.now < WIDE_ENTRY }
    requires some { pos 1 ≤ℤ den.now }
    ensures value { result.num *ℤ den.now ≡ neg_ℤ num.now *ℤ result.den }
    ensures den { pos 1 ≤ℤ result.den }
    ensures reduced { IsGcd (unsigned_abs result.num) (unsigned_abs result.den) 1 }
{
    Frac::new(-(*num as i128), *den as i128)
}

// How a coordinate outside the basis depends on one in it.
pub(crate) fn dependence(fields: &Fields, row: usize, col: usize) -> Frac
    requires tableau { IsTableau fields.now.matrix.now fields.now.at.now fields.now.order.now
        fields.now.rows.now }
    requires inside { row < width fields.now.matrix.now }
    requires outside { IsIn row (basis_of fields.now.matrix.now.cols fields.now.at.now) → ⊥ }
    requires member { IsIn col (basis_of fields.now.matrix.now.cols fields.now.at.now) }
    ensures columns { (v : List ℤ)
        → IsNamedColumn fields.now.matrix.now
        (basis_of fields.now.matrix.now.cols fields.now.at.now) col v
        → result.den *ℤ entry v row ≡ result.num *ℤ entry v col }
    ensures rows { (w : List ℤ)
        → IsNamedRow fields.now.matrix.now (basis_of fields.now.matrix.now.cols fields.now.at.now)
        row w → result.den *ℤ entry w col ≡ neg_ℤ (result.num *ℤ entry w row) }
    ensures den { pos 1 ≤ℤ result.den }
    ensures reduced { IsGcd (unsigned_abs result.num) (unsigned_abs result.den) 1 }
    ensures some { result.num ≢ pos 0 → (w : List ℤ)
        → IsNamed fields.now.matrix.now (basis_of fields.now.matrix.now.cols fields.now.at.now)
        row w → entry w col ≢ pos 0 }
{
    let n = fields.matrix.cols();
    let kept = part(fields.rows, fields.at[row] - n, n + 1);
    negative_quotient(&kept[fields.at[col]], &kept[n])
}
