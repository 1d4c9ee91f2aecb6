ghost use Rattle.std.specs.Prelude.{◌≡◌, ◌≤◌, ◌<◌, ◌^◌, ◌+◌, length, IfOk};
ghost use Rattle.crn_vec.specs.Lists.{IsIn};
ghost use Rattle.crn_vec.specs.Elementary.{width, InDualSpace, IsElementary, IsNamed};
ghost use Rattle.crn_tab.specs.Tableau.{AreSmall};
ghost use Rattle.crn_tab.specs.Slots.{slot_entry, spread, basis_of, IsTableau};

use crate::fields::Fields;
use crate::fill::part;
use crn_vec::{MAX_COORDINATES, NoMemory, Nums};
use std::alloc::Global;

// The entry at slot s of the vector that row i keeps.
pub(crate) fn slot_of(row: &[i64], n: usize, i: usize, s: usize) -> i128
    requires long { length row.now ≡ n + 1 }
    requires few { n + i < 2 ^ 20 }
    requires small { AreSmall row.now }
    ensures { result ≡ slot_entry n i row.now s }
{
    if s < n {
        return row[s] as i128;
    }
    if s == n + i {
        return row[n] as i128;
    }
    0
}

// The vector that row i keeps, by coordinates, into a list as long as there are coordinates.
pub(crate) fn put_spread(row: &[i64], n: usize, i: usize, at: &[usize], into: &mut [i128])
    requires long { length row.now ≡ n + 1 }
    requires few { n + i < 2 ^ 20 }
    requires small { AreSmall row.now }
    requires room { length into.old ≡ length at.now }
    ensures { into.new ≡ spread n i row.now at.now }
{
    for k in 0..into.len() {
        into[k] = slot_of(row, n, i, at[k]);
    }
}

// The vector that the basis names by a coordinate outside it.
pub(crate) fn put_row_vector(fields: &Fields, row: usize, into: &mut [i128])
    requires tableau { IsTableau fields.now.matrix.now fields.now.at.now fields.now.order.now
        fields.now.rows.now }
    requires inside { row < width fields.now.matrix.now }
    requires outside { IsIn row (basis_of fields.now.matrix.now.cols fields.now.at.now) → ⊥ }
    requires room { length into.old ≡ width fields.now.matrix.now }
    ensures named { IsNamed fields.now.matrix.now
        (basis_of fields.now.matrix.now.cols fields.now.at.now) row into.new }
    ensures elementary { IsElementary (InDualSpace fields.now.matrix.now) into.new }
    ensures small { AreSmall into.new }
{
    let n = fields.matrix.cols();
    let i = fields.at[row] - n;
    put_spread(part(fields.rows, i, n + 1), n, i, fields.at, into);
}

// The coordinates whose slot is below n, ascending.
pub(crate) fn basis_list(alloc: Global, n: usize, at: &[usize]) -> Result<Nums, NoMemory>
    requires { length at.now ≤ MAX_COORDINATES }
    ensures { IfOk result (λ v. v.list ≡ basis_of n at.now) }
{
    let mut v = Nums::with_room(alloc, n)?;
    for k in 0..at.len() {
        if at[k] < n {
            v.push(k as u32)?;
        }
    }
    Ok(v)
}
