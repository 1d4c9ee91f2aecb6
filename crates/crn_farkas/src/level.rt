ghost use Rattle.std.specs.Prelude.{◌≡◌, ◌≤◌, ◌<◌, ℤ, pos, ◌≢◌, List, true, length, MatchOption, ◌⊎◌};
ghost use Rattle.crn_vec.specs.Vectors.{entry, HasSign};
ghost use Rattle.crn_vec.specs.Lists.{IsIn};
ghost use Rattle.crn_vec.specs.Elementary.{width, IsNamedColumn};
ghost use Rattle.crn_vec.specs.Systems.{kind_at, is_signed};
ghost use Rattle.crn_farkas.specs.Inner.Views.{IsView, IsSeen, IsSettled, IsFirstWrong, IsRightBetween, IsWrongHere, lead_at};

use crate::view::View;
use crn_tab::Tableau;
use crn_vec::{Kind, Sign, opposite, product, sign_asked};

// Coordinates are settled in the order of their levels. The lead sign of a view is the sign of the vectors that it shows
// at the coordinate from which the signs at all others are read: g for a row, and the member for a column.

// The sign at b of the vectors that the basis names by its member b, if they have this sign at g.
pub(crate) fn lead_sign(tableau: &Tableau, b: usize, g: usize, asked: Sign) -> Sign
    requires member { IsIn b tableau.now.basis }
    requires goal { g < width tableau.now.matrix }
    ensures { (y : List ℤ) → IsNamedColumn tableau.now.matrix tableau.now.basis b y
        → HasSign asked (entry y g) → entry y g ≢ pos 0 → HasSign result (entry y b) }
{
    tableau.names_rows();
    if b == g {
        return asked;
    }
    if tableau.is_basic(g) {
        return asked;
    }
    product(tableau.sign(g, b), opposite(asked))
}

// The sign at c of the vectors that the basis names by its member b, if they have this sign at b.
pub(crate) fn column_sign(tableau: &Tableau, b: usize, lead: Sign, c: usize) -> Sign
    requires member { IsIn b tableau.now.basis }
    requires place { c < width tableau.now.matrix }
    ensures { (y : List ℤ) → IsNamedColumn tableau.now.matrix tableau.now.basis b y
        → HasSign lead (entry y b) → HasSign result (entry y c) }
{
    tableau.names_rows();
    if b == c {
        return lead;
    }
    if tableau.is_basic(c) {
        return Sign::Zero;
    }
    opposite(product(tableau.sign(c, b), lead))
}

// The sign of the vectors that a view shows at the coordinate from which the others are read.
pub(crate) fn seen_lead(tableau: &Tableau, view: View, kind: Kind, g: usize) -> Sign
    requires view { IsView tableau.now.matrix tableau.now.basis view g }
    requires asked { is_signed kind ≡ true }
    requires goal { g < width tableau.now.matrix }
    ensures { (y : List ℤ) → IsSeen tableau.now.matrix tableau.now.basis view g kind y
        → HasSign result (entry y (lead_at view g)) }
{
    let asked = sign_asked(kind);
    match view {
        View::Row => asked,
        View::Column(b) => lead_sign(tableau, b, g, asked),
    }
}

// The least level, from one on and below another, of a coordinate at which the vectors that a view shows are wrong, or else the end.
fn wrong_level(
    tableau: &Tableau,
    view: View,
    kinds: &[Kind],
    level: &[usize],
    g: usize,
    done: usize,
    k: usize,
) -> usize
    requires view { IsView tableau.now.matrix tableau.now.basis view g }
    requires asked { is_signed (kind_at kinds.now g) ≡ true }
    requires kinds { length kinds.now ≡ width tableau.now.matrix }
    requires level { length level.now ≡ length kinds.now }
    requires goal { g < width tableau.now.matrix }
    requires start { done ≤ k }
    ensures low { done ≤ result }
    ensures high { result ≤ k }
    ensures right { IsRightBetween tableau.now.matrix tableau.now.basis view g kinds.now level.now
        done result }
    ensures wrong { (result ≡ k)
        ⊎ IsWrongHere tableau.now.matrix tableau.now.basis view g kinds.now level.now result }
{
    let asked = sign_asked(kinds[g]);
    tableau.names_rows();
    match view {
        View::Row => tableau.wrong_in_row(g, asked, kinds, level, done, k),
        View::Column(b) => {
            let lead = lead_sign(tableau, b, g, asked);
            tableau.wrong_in_column(b, lead, kinds, level, done, k)
        }
    }
}

// The first level, from one on and below another, at whose coordinate the vectors that a view shows are wrong.
pub(crate) fn first_wrong(
    tableau: &Tableau,
    view: View,
    kinds: &[Kind],
    levels: &[usize],
    g: usize,
    done: usize,
    k: usize,
) -> Option<usize>
    requires view { IsView tableau.now.matrix tableau.now.basis view g }
    requires asked { is_signed (kind_at kinds.now g) ≡ true }
    requires kinds { length kinds.now ≡ width tableau.now.matrix }
    requires goal { g < width tableau.now.matrix }
    requires levels { length levels.now ≡ length kinds.now }
    requires done { IsSettled tableau.now.matrix tableau.now.basis view g kinds.now levels.now
        done }
    requires start { done ≤ k }
    ensures { MatchOption result
        (IsSettled tableau.now.matrix tableau.now.basis view g kinds.now levels.now k)
        (λ j.
        IsFirstWrong tableau.now.matrix tableau.now.basis view g kinds.now levels.now done k j) }
{
    let end = wrong_level(tableau, view, kinds, levels, g, done, k);
    if end < k { Some(end) } else { None }
}
