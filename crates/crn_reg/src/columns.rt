ghost use Rattle.std.specs.Prelude.{◌≡◌, ◌<◌, length, take, IfOk, IfErr, OnOk, MatchOption};
ghost use Rattle.crn_vec.specs.Lists.{IsIn};
ghost use Rattle.crn_vec.specs.Elementary.{width};
ghost use Rattle.crn_tab.specs.Tableau.{AreEntered};
ghost use Rattle.crn_rank.specs.Rank.{IsWideStop};
ghost use Rattle.crn_reg.specs.Inner.Spaces.{HasNoColumn, IsFirstColumn, IsColumnPart};

use crn_farkas::Stop;
use crn_tab::Tableau;
use crn_vec::{Ints, NoMemory};
use std::alloc::Global;

/// The least column from this one on that is in the basis.
pub(crate) fn free_column(tableau: &Tableau, from: usize) -> Option<usize>
    ensures { MatchOption result
        (HasNoColumn tableau.now.basis from tableau.now.matrix.cols)
        (λ c. IsFirstColumn tableau.now.basis from tableau.now.matrix.cols c) }
{
    tableau.names_rows();
    for c in from..tableau.cols() {
        if tableau.is_basic(c) {
            return Some(c);
        }
    }
    None
}

// The first entries of a list, as many as there are columns.
fn at_columns(alloc: Global, tableau: &Tableau, list: &[i128]) -> Result<Ints, NoMemory>
    requires { length list.now ≡ width tableau.now.matrix }
    ensures { IfOk result (λ made. made.list ≡ take tableau.now.matrix.cols list.now) }
{
    let (prefix, _) = list.split_at(tableau.cols());
    Ints::from_slice(alloc, prefix)
}

/// The entries at the columns of the vector that the basis names by a column in it, after the rows have entered.
pub(crate) fn column_part(
    alloc: Global,
    tableau: &Tableau,
    work: &mut [i128],
    c: usize,
) -> Result<Ints, Stop>
    requires column { c < tableau.now.matrix.cols }
    requires member { IsIn c tableau.now.basis }
    requires entered { AreEntered tableau.now.matrix tableau.now.basis tableau.now.matrix.cols }
    requires work { length work.old ≡ width tableau.now.matrix }
    ensures work { OnOk result (length work.new ≡ length work.old) }
    ensures part { IfOk result
        (λ made. IsColumnPart tableau.now.matrix tableau.now.basis c made.list) }
    ensures stop { IfErr result (λ stop. IsWideStop tableau.now.matrix stop) }
{
    tableau.names_rows();
    if let Err(wide) = tableau.put_column(c, work) {
        return Err(Stop::Wide {
            index: wide.index,
            basis: tableau.basis_after(c, c)?,
        });
    }
    Ok(at_columns(alloc, tableau, work)?)
}
