ghost use Rattle.std.specs.Prelude.{◌≡◌, ◌≤◌, ◌<◌, ℕ, ℤ, pos, ◌≤ℤ◌, List, length, slice_index_or};
ghost use Rattle.crn_vec.specs.Vectors.{entry, HasSign};
ghost use Rattle.crn_vec.specs.declared.signs.Sign.TheVariants.{Zero};
ghost use Rattle.crn_vec.specs.Lists.{IsIn};
ghost use Rattle.crn_vec.specs.Elementary.{width, IsNamedRow};
ghost use Rattle.crn_tab.specs.Slots.{basis_of, IsTableau};
ghost use Rattle.crn_tab.specs.Tableau.{IsColumnOfSign, IsRowOfSign, NamesRows};

use crate::fields::Fields;
use crate::fill::part;
use crate::number::number_at;
use crate::row::slot_of;
use crate::tableau::Tableau;
use crate::wrong::follower;
use crn_vec::{Sign, opposite, product, sign_of};

// The sign of an entry of the vector that a coordinate outside the basis names, positive at that coordinate.
fn sign_at(fields: &Fields, row: usize, col: usize) -> Sign
    requires tableau { IsTableau fields.now.matrix.now fields.now.at.now fields.now.order.now
        fields.now.rows.now }
    requires inside { row < width fields.now.matrix.now }
    requires outside { IsIn row (basis_of fields.now.matrix.now.cols fields.now.at.now) → ⊥ }
    requires place { col < width fields.now.matrix.now }
    ensures { (w : List ℤ)
        → IsNamedRow fields.now.matrix.now (basis_of fields.now.matrix.now.cols fields.now.at.now)
        row w → pos 1 ≤ℤ entry w row → HasSign result (entry w col) }
{
    sign_of(number_at(fields, row, col))
}

// The signs of the vectors that a coordinate outside the basis names, if they have this one there.
fn put_row_signs(fields: &Fields, row: usize, sign: Sign, signs: &mut [Sign])
    requires tableau { IsTableau fields.now.matrix.now fields.now.at.now fields.now.order.now
        fields.now.rows.now }
    requires inside { row < width fields.now.matrix.now }
    requires outside { IsIn row (basis_of fields.now.matrix.now.cols fields.now.at.now) → ⊥ }
    requires room { length signs.old ≡ width fields.now.matrix.now }
    ensures count { length signs.new ≡ length signs.old }
    ensures signs { (w : List ℤ)
        → IsRowOfSign fields.now.matrix.now
        (basis_of fields.now.matrix.now.cols fields.now.at.now) row sign w → (k : ℕ)
        → k < width fields.now.matrix.now → HasSign (slice_index_or signs.new k Zero) (entry w k) }
{
    let n = fields.matrix.cols();
    let i = fields.at[row] - n;
    let kept = part(fields.rows, i, n + 1);
    for c in 0..signs.len() {
        signs[c] = product(sign, sign_of(slot_of(kept, n, i, fields.at[c])));
    }
}

// The signs of the vectors that a member of the basis names, if they have this one there.
fn put_signs_over_rows(fields: &Fields, col: usize, sign: Sign, signs: &mut [Sign])
    requires tableau { IsTableau fields.now.matrix.now fields.now.at.now fields.now.order.now
        fields.now.rows.now }
    requires member { IsIn col (basis_of fields.now.matrix.now.cols fields.now.at.now) }
    requires room { length signs.old ≡ width fields.now.matrix.now }
    ensures count { length signs.new ≡ length signs.old }
    ensures signs { (y : List ℤ)
        → IsColumnOfSign fields.now.matrix.now
        (basis_of fields.now.matrix.now.cols fields.now.at.now) col sign y → (k : ℕ)
        → k < width fields.now.matrix.now → HasSign (slice_index_or signs.new k Zero) (entry y k) }
{
    let n = fields.matrix.cols();
    let m = fields.matrix.rows();
    let place = fields.at[col];
    let other = opposite(sign);
    signs.fill(Sign::Zero);
    signs[col] = sign;
    for i in 0..m {
        let c = fields.order[n + i];
        let kept = part(fields.rows, i, n + 1);
        signs[c] = follower(other, &kept[place]);
    }
}

// What the slots and rows of a tableau say of its basis.
fn slots_name_rows(_fields: &Fields)
    requires tableau { IsTableau _fields.now.matrix.now _fields.now.at.now _fields.now.order.now
        _fields.now.rows.now }
    ensures { NamesRows _fields.now.matrix.now
        (basis_of _fields.now.matrix.now.cols _fields.now.at.now) }
{}

impl Tableau {
    /// The sign of an entry of the vector that the basis names by a coordinate outside it, positive at that coordinate.
    pub fn sign(&self, row: usize, col: usize) -> Sign
        requires inside { row < width self.now.matrix }
        requires outside { IsIn row self.now.basis → ⊥ }
        requires place { col < width self.now.matrix }
        ensures { (w : List ℤ) → IsNamedRow self.now.matrix self.now.basis row w
            → pos 1 ≤ℤ entry w row → HasSign result (entry w col) }
    {
        sign_at(&self.fields(), row, col)
    }

    /// Writes the signs of the vectors that the basis names by a coordinate outside it, and of this sign there, into a list of their length.
    /// It goes over the row once, and takes no memory.
    pub fn put_signs(&self, row: usize, sign: Sign, signs: &mut [Sign])
        requires inside { row < width self.now.matrix }
        requires outside { IsIn row self.now.basis → ⊥ }
        requires room { length signs.old ≡ width self.now.matrix }
        ensures count { length signs.new ≡ length signs.old }
        ensures signs { (w : List ℤ) → IsRowOfSign self.now.matrix self.now.basis row sign w
            → (k : ℕ) → k < width self.now.matrix
            → HasSign (slice_index_or signs.new k Zero) (entry w k) }
    {
        put_row_signs(&self.fields(), row, sign, signs);
    }

    /// Writes the signs of the vectors that the basis names by a coordinate in it, and of this sign there, into a list of their length.
    /// It goes over the rows once, and takes no memory.
    pub fn put_column_signs(&self, col: usize, sign: Sign, signs: &mut [Sign])
        requires member { IsIn col self.now.basis }
        requires room { length signs.old ≡ width self.now.matrix }
        ensures count { length signs.new ≡ length signs.old }
        ensures signs { (y : List ℤ) → IsColumnOfSign self.now.matrix self.now.basis col sign y
            → (k : ℕ) → k < width self.now.matrix
            → HasSign (slice_index_or signs.new k Zero) (entry y k) }
    {
        put_signs_over_rows(&self.fields(), col, sign, signs);
    }

    /// What a tableau keeps as its basis is a basis, and names a vector without a wide entry by each coordinate outside it.
    pub fn names_rows(&self)
        ensures { NamesRows self.now.matrix self.now.basis }
    {
        slots_name_rows(&self.fields())
    }
}
