ghost use Rattle.std.specs.Prelude.{◌≡◌, ◌≢◌, ◌<◌, length, drop, IfOk};
ghost use Rattle.crn_vec.specs.Elementary.{width};
ghost use Rattle.crn_reg.specs.Inner.Spaces.{HasNoOther, IsTieOf, AreTies};

use crn_cert::Rows;
use crn_tab::Tableau;
use crn_vec::{Ints, NoMemory};
use std::alloc::Global;

// The last entries of a list, as many as there are rows.
fn at_rows(alloc: Global, tableau: &Tableau, list: &[i128]) -> Result<Ints, NoMemory>
    requires { length list.now ≡ width tableau.now.matrix }
    ensures { IfOk result (λ made. made.list ≡ drop tableau.now.matrix.cols list.now) }
{
    let (_, back) = list.split_at(tableau.cols());
    Ints::from_slice(alloc, back)
}

// The tie of a column outside the basis: the multipliers of the vector that the basis names by it.
fn tie_of(
    alloc: Global,
    tableau: &Tableau,
    work: &mut [i128],
    spared: usize,
    c: usize,
) -> Result<Ints, NoMemory>
    requires column { c < tableau.now.matrix.cols }
    requires other { c ≢ spared }
    requires outside { HasNoOther tableau.now.basis tableau.now.matrix.cols spared }
    requires work { length work.old ≡ width tableau.now.matrix }
    ensures work { length work.new ≡ length work.old }
    ensures tie { IfOk result (λ made. IsTieOf tableau.now.matrix spared c made.list) }
{
    tableau.names_rows();
    tableau.put_row(c, work);
    at_rows(alloc, tableau, work)
}

/// A tie for each column but the spared one, in order. No other column is in the basis.
pub(crate) fn ties(
    alloc: Global,
    tableau: &Tableau,
    work: &mut [i128],
    spared: usize,
) -> Result<Rows, NoMemory>
    requires outside { HasNoOther tableau.now.basis tableau.now.matrix.cols spared }
    requires work { length work.old ≡ width tableau.now.matrix }
    ensures { IfOk result (λ made. AreTies tableau.now.matrix spared made) }
{
    let mut ties = Rows::new(alloc)?;
    for c in 0..tableau.cols() {
        if c != spared {
            ties.push(tie_of(alloc, tableau, work, spared, c)?)?;
        }
    }
    Ok(ties)
}
