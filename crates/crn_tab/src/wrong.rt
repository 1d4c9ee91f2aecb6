ghost use Rattle.std.specs.Prelude.{◌≡◌, ◌≤◌, ◌<◌, ◌⊎◌, ℕ, ℤ, IsTrue, false, length, slice_index, slice_index_or};
ghost use Rattle.crn_vec.specs.Vectors.{HasSign};
ghost use Rattle.crn_vec.specs.declared.signs.Kind.TheVariants.{Pos};
ghost use Rattle.crn_vec.specs.Lists.{IsIn};
ghost use Rattle.crn_vec.specs.Elementary.{width};
ghost use Rattle.crn_vec.specs.Systems.{MayTake, MayWeigh};
ghost use Rattle.crn_tab.specs.Tableau.{IsRowOfSign, IsColumnOfSign, AreRight, AreWrongAt};
ghost use Rattle.crn_tab.specs.Inner.Scans.{Follows};
ghost use Rattle.crn_tab.specs.Slots.{basis_of, IsTableau};

use crate::fields::Fields;
use crate::fill::part;
use crate::tableau::Tableau;
use crn_vec::{
    Kind, Sign, is_minus_sign, is_plus_sign, may_take, may_weigh, opposite, product, sign_of,
};

// The sign of a number, times this sign.
pub(crate) fn follower(sign: Sign, x: &i64) -> Sign
    ensures { (y : ℤ) → Follows sign x.now y → HasSign result y }
{
    product(sign, sign_of(*x as i128))
}

// Whether numbers of a sign may not be in a list that rules a system out. It takes no branch, since signs in a row follow no pattern.
fn is_barred(kind: Kind, sign: Sign) -> bool
    ensures yes { IsTrue result → (x : ℤ) → HasSign sign x → MayWeigh kind x → ⊥ }
    ensures no { result ≡ false → (x : ℤ) → HasSign sign x → MayWeigh kind x }
{
    let bars_plus = !may_weigh(kind, Sign::Plus);
    let bars_minus = !may_weigh(kind, Sign::Minus);
    (is_plus_sign(sign) & bars_plus) | (is_minus_sign(sign) & bars_minus)
}

// The lower of two levels, of which the second counts only if it is so.
fn lower_level(best: usize, level: usize, counts: bool) -> usize
    ensures lower { result ≤ best }
    ensures counts { IsTrue counts → result ≤ level }
    ensures one { (result ≡ best) ⊎ ((result ≡ level) × IsTrue counts) }
{
    let other = if counts { level } else { usize::MAX };
    best.min(other)
}

// The least level so far of a wrong coordinate: this one's, if it is lower and what follows x may not be there.
fn least_wrong(sign: Sign, x: &i64, kind: Kind, level: usize, from: usize, best: usize) -> usize
    ensures lower { result ≤ best }
    ensures from { from ≤ best → from ≤ result }
    ensures right { (y : ℤ) → Follows sign x.now y → from ≤ level → level < result
        → MayWeigh kind y }
    ensures wrong { (result ≡ best)
        ⊎ ((result ≡ level) × ((y : ℤ) → Follows sign x.now y → MayWeigh kind y → ⊥)) }
{
    let wrong = is_barred(kind, follower(sign, x));
    lower_level(best, level, wrong & (from <= level))
}

// The same at coordinate c.
fn wrong_at(
    sign: Sign,
    x: &i64,
    kinds: &[Kind],
    level: &[usize],
    c: usize,
    from: usize,
    best: usize,
) -> usize
    requires kinds { c < length kinds.now }
    requires level { c < length level.now }
    ensures lower { result ≤ best }
    ensures from { from ≤ best → from ≤ result }
    ensures right { (y : ℤ) → Follows sign x.now y → from ≤ slice_index level.now c
        → slice_index level.now c < result → MayWeigh (slice_index_or kinds.now c Pos) y }
    ensures wrong { (result ≡ best)
        ⊎ ((result ≡ slice_index level.now c) × ((y : ℤ) → Follows sign x.now y
        → MayWeigh (slice_index_or kinds.now c Pos) y → ⊥)) }
{
    least_wrong(sign, x, kinds[c], level[c], from, best)
}

// Whether numbers of a sign may not be in a part of a solution. It takes no branch either.
fn is_refused(kind: Kind, sign: Sign) -> bool
    ensures yes { IsTrue result → (x : ℤ) → HasSign sign x → MayTake kind x → ⊥ }
    ensures no { result ≡ false → (x : ℤ) → HasSign sign x → MayTake kind x }
{
    let bars_plus = !may_take(kind, Sign::Plus);
    let bars_minus = !may_take(kind, Sign::Minus);
    (is_plus_sign(sign) & bars_plus) | (is_minus_sign(sign) & bars_minus)
}

// The least level so far of a coordinate at which a part of a solution would be wrong.
fn least_refused(sign: Sign, x: &i64, kind: Kind, level: usize, from: usize, best: usize) -> usize
    ensures lower { result ≤ best }
    ensures from { from ≤ best → from ≤ result }
    ensures right { (y : ℤ) → Follows sign x.now y → from ≤ level → level < result
        → MayTake kind y }
    ensures wrong { (result ≡ best)
        ⊎ ((result ≡ level) × ((y : ℤ) → Follows sign x.now y → MayTake kind y → ⊥)) }
{
    let wrong = is_refused(kind, follower(sign, x));
    lower_level(best, level, wrong & (from <= level))
}

// The least level of a coordinate at which the vectors of one outside the basis are wrong.
fn wrong_row(
    fields: &Fields,
    row: usize,
    sign: Sign,
    kinds: &[Kind],
    level: &[usize],
    from: usize,
    end: usize,
) -> usize
    requires tableau { IsTableau fields.now.matrix.now fields.now.at.now fields.now.order.now
        fields.now.rows.now }
    requires inside { row < width fields.now.matrix.now }
    requires outside { IsIn row (basis_of fields.now.matrix.now.cols fields.now.at.now) → ⊥ }
    requires kinds { length kinds.now ≡ width fields.now.matrix.now }
    requires level { length level.now ≡ width fields.now.matrix.now }
    requires range { from ≤ end }
    ensures low { from ≤ result }
    ensures high { result ≤ end }
    ensures right { AreRight
        (IsRowOfSign fields.now.matrix.now
        (basis_of fields.now.matrix.now.cols fields.now.at.now) row sign) MayWeigh kinds.now
        level.now (width fields.now.matrix.now) from result }
    ensures wrong { (result ≡ end)
        ⊎ AreWrongAt
        (IsRowOfSign fields.now.matrix.now
        (basis_of fields.now.matrix.now.cols fields.now.at.now) row sign) MayWeigh kinds.now
        level.now (width fields.now.matrix.now) result }
{
    let n = fields.matrix.cols();
    let kept = part(fields.rows, fields.at[row] - n, n + 1);
    let mut best = least_wrong(sign, &kept[n], kinds[row], level[row], from, end);
    for s in 0..n {
        best = wrong_at(sign, &kept[s], kinds, level, fields.order[s], from, best);
    }
    best
}

// The least level of a coordinate at which the vectors of a member of the basis are wrong. Each sign has a copy of this loop.
#[inline(always)]
fn scan_column(
    fields: &Fields,
    col: usize,
    sign: Sign,
    kinds: &[Kind],
    level: &[usize],
    from: usize,
    end: usize,
) -> usize
    requires tableau { IsTableau fields.now.matrix.now fields.now.at.now fields.now.order.now
        fields.now.rows.now }
    requires member { IsIn col (basis_of fields.now.matrix.now.cols fields.now.at.now) }
    requires kinds { length kinds.now ≡ width fields.now.matrix.now }
    requires level { length level.now ≡ width fields.now.matrix.now }
    requires range { from ≤ end }
    ensures low { from ≤ result }
    ensures high { result ≤ end }
    ensures right { AreRight
        (IsColumnOfSign fields.now.matrix.now
        (basis_of fields.now.matrix.now.cols fields.now.at.now) col sign) MayTake kinds.now
        level.now (width fields.now.matrix.now) from result }
    ensures wrong { (result ≡ end)
        ⊎ AreWrongAt
        (IsColumnOfSign fields.now.matrix.now
        (basis_of fields.now.matrix.now.cols fields.now.at.now) col sign) MayTake kinds.now
        level.now (width fields.now.matrix.now) result }
{
    let n = fields.matrix.cols();
    let m = fields.matrix.rows();
    let place = fields.at[col];
    let other = opposite(sign);
    let mut best = least_refused(sign, &1, kinds[col], level[col], from, end);
    for i in 0..m {
        let c = fields.order[n + i];
        let kept = part(fields.rows, i, n + 1);
        best = least_refused(other, &kept[place], kinds[c], level[c], from, best);
    }
    best
}

// The least level of a coordinate at which the vectors of a member of the basis are wrong.
fn wrong_column(
    fields: &Fields,
    col: usize,
    sign: Sign,
    kinds: &[Kind],
    level: &[usize],
    from: usize,
    end: usize,
) -> usize
    requires tableau { IsTableau fields.now.matrix.now fields.now.at.now fields.now.order.now
        fields.now.rows.now }
    requires member { IsIn col (basis_of fields.now.matrix.now.cols fields.now.at.now) }
    requires kinds { length kinds.now ≡ width fields.now.matrix.now }
    requires level { length level.now ≡ width fields.now.matrix.now }
    requires range { from ≤ end }
    ensures low { from ≤ result }
    ensures high { result ≤ end }
    ensures right { AreRight
        (IsColumnOfSign fields.now.matrix.now
        (basis_of fields.now.matrix.now.cols fields.now.at.now) col sign) MayTake kinds.now
        level.now (width fields.now.matrix.now) from result }
    ensures wrong { (result ≡ end)
        ⊎ AreWrongAt
        (IsColumnOfSign fields.now.matrix.now
        (basis_of fields.now.matrix.now.cols fields.now.at.now) col sign) MayTake kinds.now
        level.now (width fields.now.matrix.now) result }
{
    match sign {
        Sign::Plus => scan_column(fields, col, Sign::Plus, kinds, level, from, end),
        Sign::Minus => scan_column(fields, col, Sign::Minus, kinds, level, from, end),
        Sign::Zero => scan_column(fields, col, Sign::Zero, kinds, level, from, end),
    }
}

impl Tableau {
    /// The least level, between two given ones, of a coordinate at which the vectors that the basis names by a coordinate
    /// outside it, and of this sign there, do not have the weight that its kind requires. If there is none, it is the upper one.
    /// `kinds` and `level` have a member for each coordinate. It goes over the basis once, and takes no memory.
    pub fn wrong_in_row(
        &self,
        row: usize,
        sign: Sign,
        kinds: &[Kind],
        level: &[usize],
        from: usize,
        end: usize,
    ) -> usize
        requires inside { row < width self.now.matrix }
        requires outside { IsIn row self.now.basis → ⊥ }
        requires kinds { length kinds.now ≡ width self.now.matrix }
        requires level { length level.now ≡ width self.now.matrix }
        requires range { from ≤ end }
        ensures low { from ≤ result }
        ensures high { result ≤ end }
        ensures right { AreRight (IsRowOfSign self.now.matrix self.now.basis row sign) MayWeigh
            kinds.now level.now (width self.now.matrix) from result }
        ensures wrong { (result ≡ end)
            ⊎ AreWrongAt (IsRowOfSign self.now.matrix self.now.basis row sign) MayWeigh kinds.now
            level.now (width self.now.matrix) result }
    {
        wrong_row(&self.fields(), row, sign, kinds, level, from, end)
    }

    /// The least level, between two given ones, of a coordinate at which the vectors that the basis names by a coordinate
    /// in it, and of this sign there, do not have what its kind lets a part of a solution have. If there is none, it is the upper one.
    /// `kinds` and `level` have a member for each coordinate. It goes over the rows once, and takes no memory.
    pub fn wrong_in_column(
        &self,
        col: usize,
        sign: Sign,
        kinds: &[Kind],
        level: &[usize],
        from: usize,
        end: usize,
    ) -> usize
        requires member { IsIn col self.now.basis }
        requires kinds { length kinds.now ≡ width self.now.matrix }
        requires level { length level.now ≡ width self.now.matrix }
        requires range { from ≤ end }
        ensures low { from ≤ result }
        ensures high { result ≤ end }
        ensures right { AreRight (IsColumnOfSign self.now.matrix self.now.basis col sign) MayTake
            kinds.now level.now (width self.now.matrix) from result }
        ensures wrong { (result ≡ end)
            ⊎ AreWrongAt (IsColumnOfSign self.now.matrix self.now.basis col sign) MayTake
            kinds.now level.now (width self.now.matrix) result }
    {
        wrong_column(&self.fields(), col, sign, kinds, level, from, end)
    }
}
