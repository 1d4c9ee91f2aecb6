ghost use Rattle.std.specs.Prelude.{◌≡◌, ◌≢◌, ◌<◌, ℕ, ℤ, pos, List, true, false, length, IsTrue, MatchOption};
ghost use Rattle.crn_vec.specs.Vectors.{entry};
ghost use Rattle.crn_vec.specs.Lists.{IsIn};
ghost use Rattle.crn_vec.specs.Elementary.{width, IsNamedRow};
ghost use Rattle.crn_vec.specs.Systems.{MayWeigh, kind_at, is_signed};
ghost use Rattle.crn_tab.specs.Tableau.{IsRowOfSign, RulesBelow};
ghost use Rattle.crn_tab.specs.Inner.Scans.{Follows};
ghost use Rattle.crn_tab.specs.Slots.{basis_of, IsTableau};

use crate::fields::Fields;
use crate::fill::part;
use crate::tableau::Tableau;
use crate::wrong::follower;
use crn_vec::{Kind, Sign, is_asked, may_weigh};

// Whether a number, times this sign, may be in a list that rules a system out.
fn weighs(sign: Sign, x: &i64, kind: Kind) -> bool
    ensures yes { IsTrue result → (y : ℤ) → Follows sign x.now y → MayWeigh kind y }
    ensures no { result ≡ false → (y : ℤ) → Follows sign x.now y → MayWeigh kind y → ⊥ }
{
    if *x == 0 {
        return true;
    }
    may_weigh(kind, follower(sign, x))
}

// Whether a number is not 0 where it has to be positive or negative.
fn is_weight(x: &i64, kind: Kind) -> bool
    ensures yes { IsTrue result → (is_signed kind ≡ true) × (x.now ≢ pos 0) }
    ensures no { result ≡ false → is_signed kind ≡ true → x.now ≡ pos 0 }
{
    if *x == 0 {
        return false;
    }
    is_asked(kind)
}

// Whether the vectors of a coordinate outside the basis, of this sign there, have weights that they may.
fn all_weigh(fields: &Fields, row: usize, sign: Sign, kinds: &[Kind]) -> bool
    requires tableau { IsTableau fields.now.matrix.now fields.now.at.now fields.now.order.now
        fields.now.rows.now }
    requires inside { row < width fields.now.matrix.now }
    requires outside { IsIn row (basis_of fields.now.matrix.now.cols fields.now.at.now) → ⊥ }
    requires kinds { length kinds.now ≡ width fields.now.matrix.now }
    ensures yes { IsTrue result → (w : List ℤ)
        → IsRowOfSign fields.now.matrix.now
        (basis_of fields.now.matrix.now.cols fields.now.at.now) row sign w → (c : ℕ)
        → c < width fields.now.matrix.now → MayWeigh (kind_at kinds.now c) (entry w c) }
    ensures no { result ≡ false → (w : List ℤ)
        → IsRowOfSign fields.now.matrix.now
        (basis_of fields.now.matrix.now.cols fields.now.at.now) row sign w
        → ((c : ℕ) → c < width fields.now.matrix.now → MayWeigh (kind_at kinds.now c) (entry w c))
        → ⊥ }
{
    let n = fields.matrix.cols();
    let kept = part(fields.rows, fields.at[row] - n, n + 1);
    if !weighs(sign, &kept[n], kinds[row]) {
        return false;
    }
    for s in 0..n {
        if !weighs(sign, &kept[s], kinds[fields.order[s]]) {
            return false;
        }
    }
    true
}

// Whether the vectors of a coordinate outside the basis are not 0 at some coordinate that has to be positive or negative.
fn some_counts(fields: &Fields, row: usize, kinds: &[Kind]) -> bool
    requires tableau { IsTableau fields.now.matrix.now fields.now.at.now fields.now.order.now
        fields.now.rows.now }
    requires inside { row < width fields.now.matrix.now }
    requires outside { IsIn row (basis_of fields.now.matrix.now.cols fields.now.at.now) → ⊥ }
    requires kinds { length kinds.now ≡ width fields.now.matrix.now }
    ensures yes { IsTrue result → (sign : Sign) → sign ≢ Sign.Zero → (w : List ℤ)
        → IsRowOfSign fields.now.matrix.now
        (basis_of fields.now.matrix.now.cols fields.now.at.now) row sign w → (c : ℕ)
        × (c < width fields.now.matrix.now) × (is_signed (kind_at kinds.now c) ≡ true)
        × (entry w c ≢ pos 0) }
    ensures no { result ≡ false → (w : List ℤ)
        → IsNamedRow fields.now.matrix.now (basis_of fields.now.matrix.now.cols fields.now.at.now)
        row w → (c : ℕ) → c < width fields.now.matrix.now
        → is_signed (kind_at kinds.now c) ≡ true → entry w c ≡ pos 0 }
{
    let n = fields.matrix.cols();
    let kept = part(fields.rows, fields.at[row] - n, n + 1);
    if is_weight(&kept[n], kinds[row]) {
        return true;
    }
    for s in 0..n {
        if is_weight(&kept[s], kinds[fields.order[s]]) {
            return true;
        }
    }
    false
}

// The sign with which the vectors of a coordinate outside the basis rule a system out.
fn cuts_of(fields: &Fields, row: usize, kinds: &[Kind]) -> Option<Sign>
    requires tableau { IsTableau fields.now.matrix.now fields.now.at.now fields.now.order.now
        fields.now.rows.now }
    requires inside { row < width fields.now.matrix.now }
    requires outside { IsIn row (basis_of fields.now.matrix.now.cols fields.now.at.now) → ⊥ }
    requires kinds { length kinds.now ≡ width fields.now.matrix.now }
    ensures { MatchOption result
        ((w : List ℤ)
        → IsNamedRow fields.now.matrix.now
        (basis_of fields.now.matrix.now.cols fields.now.at.now) row w
        → RulesBelow kinds.now (width fields.now.matrix.now) w → ⊥)
        (λ sign. (sign ≢ Sign.Zero)
        × ((w : List ℤ)
        → IsRowOfSign fields.now.matrix.now
        (basis_of fields.now.matrix.now.cols fields.now.at.now) row sign w
        → RulesBelow kinds.now (width fields.now.matrix.now) w)) }
{
    if !some_counts(fields, row, kinds) {
        return None;
    }
    if all_weigh(fields, row, Sign::Plus, kinds) {
        return Some(Sign::Plus);
    }
    if all_weigh(fields, row, Sign::Minus, kinds) {
        return Some(Sign::Minus);
    }
    None
}

impl Tableau {
    /// The sign at a coordinate outside the basis with which the vectors that the basis names by it rule out a system of these kinds, if any do.
    /// It goes over the basis at most three times, and takes no memory.
    pub fn row_cuts(&self, row: usize, kinds: &[Kind]) -> Option<Sign>
        requires inside { row < width self.now.matrix }
        requires outside { IsIn row self.now.basis → ⊥ }
        requires kinds { length kinds.now ≡ width self.now.matrix }
        ensures { MatchOption result
            ((w : List ℤ) → IsNamedRow self.now.matrix self.now.basis row w
            → RulesBelow kinds.now (width self.now.matrix) w → ⊥)
            (λ sign. (sign ≢ Sign.Zero)
            × ((w : List ℤ) → IsRowOfSign self.now.matrix self.now.basis row sign w
            → RulesBelow kinds.now (width self.now.matrix) w)) }
    {
        cuts_of(&self.fields(), row, kinds)
    }
}
