ghost use Rattle.std.specs.Prelude.{◌≡◌, ◌+◌, length, take, IfOk, IfErr, OnOk};
ghost use Rattle.std.specs.List.{AllZip};
ghost use Rattle.crn_vec.specs.Lists.{IsIn};
ghost use Rattle.crn_vec.specs.Elementary.{width};
ghost use Rattle.crn_rank.specs.Rank.{IsWideStop};
ghost use Rattle.crn_rank.specs.Inner.Rows.{IsDualOf, rows_inside};

use crn_cert::Rows;
use crn_farkas::Stop;
use crn_tab::Tableau;
use crn_vec::{Ints, NoMemory};
use std::alloc::Global;

// The first entries of a list, as many as there are columns.
fn at_columns(alloc: Global, tableau: &Tableau, list: &[i128]) -> Result<Ints, NoMemory>
    requires { length list.now ≡ width tableau.now.matrix }
    ensures { IfOk result (λ made. made.list ≡ take tableau.now.matrix.cols list.now) }
{
    let (prefix, _) = list.split_at(tableau.cols());
    Ints::from_slice(alloc, prefix)
}

// The dual of the member of row k, whose coordinate is in the basis.
fn dual_of(alloc: Global, tableau: &Tableau, work: &mut [i128], k: usize) -> Result<Ints, Stop>
    requires member { IsIn (tableau.now.matrix.cols + k) tableau.now.basis }
    requires work { length work.old ≡ width tableau.now.matrix }
    ensures work { OnOk result (length work.new ≡ length work.old) }
    ensures dual { IfOk result
        (λ made. IsDualOf tableau.now.matrix tableau.now.basis k made.list) }
    ensures stop { IfErr result (λ stop. IsWideStop tableau.now.matrix stop) }
{
    tableau.names_rows();
    let own = tableau.cols() + k;
    if let Err(wide) = tableau.put_column(own, work) {
        return Err(Stop::Wide {
            index: wide.index,
            basis: tableau.basis_after(own, own)?,
        });
    }
    Ok(at_columns(alloc, tableau, work)?)
}

// A dual for each member whose coordinate is in the basis.
pub(crate) fn duals(
    alloc: Global,
    tableau: &Tableau,
    work: &mut [i128],
    count: usize,
) -> Result<Rows, Stop>
    requires count { count ≡ length tableau.now.matrix.rows }
    requires work { length work.old ≡ width tableau.now.matrix }
    ensures work { OnOk result (length work.new ≡ length work.old) }
    ensures duals { IfOk result
        (λ made.
        AllZip (IsDualOf tableau.now.matrix tableau.now.basis)
        (rows_inside tableau.now.matrix tableau.now.basis count) made) }
    ensures stop { IfErr result (λ stop. IsWideStop tableau.now.matrix stop) }
{
    tableau.names_rows();
    let first = tableau.cols();
    let mut duals = Rows::new(alloc)?;
    for k in 0..count {
        if tableau.is_basic(first + k) {
            duals.push(dual_of(alloc, tableau, work, k)?)?;
        }
    }
    Ok(duals)
}
