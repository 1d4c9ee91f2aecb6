ghost use Rattle.std.specs.Prelude.{◌≡◌, ◌<◌, ◌+◌, neg_ℤ, ℕ, ℤ, pos, ◌≤ℤ◌, List, unsigned_abs, length, slice_index, IfOk};
ghost use Rattle.std.specs.List.{AllZip};
ghost use Rattle.crn_vec.specs.Lists.{IsIn};
ghost use Rattle.crn_vec.specs.Vectors.{entry};
ghost use Rattle.crn_vec.specs.Elementary.{width, IsNamed};
ghost use Rattle.crn_rank.specs.Inner.Rows.{IsCombOf, comb_numbers, rows_inside, rows_outside};

use crate::base::places_inside;
use crn_cert::Rows;
use crn_tab::Tableau;
use crn_vec::{Ints, NoMemory, WIDE_ENTRY};
use std::alloc::Global;

// The negative of a number below the bound of an entry.
fn negative(x: i128) -> i128
    requires { unsigned_abs x < WIDE_ENTRY }
    ensures { result ≡ neg_ℤ x }
{
    -x
}

// The numbers of the vector that the basis names by a coordinate outside it: its own, which is positive, and with the
// opposite sign those at some rows.
fn numbers(alloc: Global, tableau: &Tableau, inside: &[usize], own: usize) -> Result<Ints, NoMemory>
    requires own { own < width tableau.now.matrix }
    requires outside { IsIn own tableau.now.basis → ⊥ }
    requires inside { (i : ℕ) → i < length inside.now
        → slice_index inside.now i < length tableau.now.matrix.rows }
    ensures { IfOk result (λ made. (w : List ℤ)
        → IsNamed tableau.now.matrix tableau.now.basis own w → pos 1 ≤ℤ entry w own
        → made.list ≡ comb_numbers tableau.now.matrix own w inside.now) }
{
    tableau.names_rows();
    let first = tableau.cols();
    let mut made = Ints::with_room(alloc, inside.len() + 1)?;
    made.push(tableau.number(own, own))?;
    for i in 0..inside.len() {
        made.push(negative(tableau.number(own, first + inside[i])))?;
    }
    Ok(made)
}

// The member of row k, whose coordinate is outside the basis, as a combination of those in it.
fn comb_of(alloc: Global, tableau: &Tableau, inside: &[usize], k: usize) -> Result<Ints, NoMemory>
    requires row { k < length tableau.now.matrix.rows }
    requires outside { IsIn (tableau.now.matrix.cols + k) tableau.now.basis → ⊥ }
    requires inside { inside.now ≡ rows_inside tableau.now.matrix tableau.now.basis
        (length tableau.now.matrix.rows) }
    ensures { IfOk result
        (λ made. IsCombOf tableau.now.matrix tableau.now.basis
        (length tableau.now.matrix.rows) k made.list) }
{
    tableau.names_rows();
    numbers(alloc, tableau, inside, tableau.cols() + k)
}

// A combination for each member whose coordinate is outside the basis.
pub(crate) fn combs(alloc: Global, tableau: &Tableau, count: usize) -> Result<Rows, NoMemory>
    requires count { count ≡ length tableau.now.matrix.rows }
    ensures { IfOk result
        (λ made.
        AllZip (IsCombOf tableau.now.matrix tableau.now.basis count)
        (rows_outside tableau.now.matrix tableau.now.basis count) made) }
{
    tableau.names_rows();
    let first = tableau.cols();
    let inside = places_inside(alloc, tableau, count)?;
    let mut combs = Rows::new(alloc)?;
    for k in 0..count {
        if !tableau.is_basic(first + k) {
            combs.push(comb_of(alloc, tableau, &inside, k)?)?;
        }
    }
    Ok(combs)
}
