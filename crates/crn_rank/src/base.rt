ghost use Rattle.std.specs.Prelude.{◌≡◌, length, map, slice_index, IfOk};
ghost use Rattle.crn_rank.specs.Inner.Rows.{rows_inside};

use crn_tab::Tableau;
use crn_vec::{NoMemory, Nums};
use std::alloc::Global;

// The members whose coordinates are in the basis.
pub(crate) fn base_members(
    alloc: Global,
    tableau: &Tableau,
    members: &[u32],
) -> Result<Nums, NoMemory>
    requires { length members.now ≡ length tableau.now.matrix.rows }
    ensures { IfOk result
        (λ made.
        made.list ≡ map (slice_index members.now)
        (rows_inside tableau.now.matrix tableau.now.basis (length members.now))) }
{
    tableau.names_rows();
    let first = tableau.cols();
    let mut base = Nums::with_room(alloc, first)?;
    for k in 0..members.len() {
        if tableau.is_basic(first + k) {
            base.push(members[k])?;
        }
    }
    Ok(base)
}

// The rows whose coordinates are in the basis.
pub(crate) fn places_inside(
    alloc: Global,
    tableau: &Tableau,
    count: usize,
) -> Result<Vec<usize>, NoMemory>
    requires { count ≡ length tableau.now.matrix.rows }
    ensures { IfOk result
        (λ made. made.items ≡ rows_inside tableau.now.matrix tableau.now.basis count) }
{
    tableau.names_rows();
    let first = tableau.cols();
    let mut places = Vec::with_capacity(alloc, first)?;
    for k in 0..count {
        if tableau.is_basic(first + k) {
            places.push(k)?;
        }
    }
    Ok(places)
}
