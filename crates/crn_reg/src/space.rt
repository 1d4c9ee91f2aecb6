ghost use Rattle.std.specs.Prelude.{◌≡◌, ◌≢◌, ◌<◌, ◌+◌, ◌≤◌, length, IfOk, IfErr, OnOk};
ghost use Rattle.crn_vec.specs.Lists.{IsIn};
ghost use Rattle.crn_vec.specs.Elementary.{width};
ghost use Rattle.crn_vec.specs.Confluence.{IsNonzero};
ghost use Rattle.crn_tab.specs.Tableau.{AreEntered, IsRefused};
ghost use Rattle.crn_rank.specs.Rank.{IsWideStop};
ghost use Rattle.crn_reg.specs.Inner.Spaces.{HasNoColumn, IsFirstColumn, IsFirstPlace, HasEntryAt, IsBrought, GivesSpace};

use crate::columns::{column_part, free_column};
use crate::ties::ties;
use crn_cert::Rows;
use crn_farkas::Stop;
use crn_tab::{Refused, Tableau};
use crn_vec::{Ints, Matrix, NoMemory};
use std::alloc::Global;

/// The vectors that the rows of a matrix take to zero.
#[derive(Drop)]
pub(crate) enum Space {
    /// Only zero: a tie of each column.
    Zero {
        ties: Rows,
    },
    /// The multiples of a primitive vector: a tie of each column but that of its first entry that is not zero.
    Line {
        vector: Ints,
        ties: Rows,
    },
    /// More: two vectors, each not zero at its own column, counted from 1, and zero at that of the other.
    Plane {
        first: u32,
        second: u32,
        one: Ints,
        two: Ints,
    },
}

// The name of the wide vector of an exchange that was refused.
fn refused_stop(tableau: &Tableau, refused: &Refused) -> Result<Stop, NoMemory>
    requires { IsRefused tableau.now.matrix tableau.now.basis refused.now.leave refused.now.enter
        refused.now.index }
    ensures { IfOk result (λ stop. IsWideStop tableau.now.matrix stop) }
{
    Ok(Stop::Wide {
        index: refused.index,
        basis: tableau.basis_after(refused.leave, refused.enter)?,
    })
}

/// The place of the first entry that is not zero.
pub(crate) fn first_place(vector: &[i128]) -> usize
    requires { IsNonzero vector.now }
    ensures { IsFirstPlace vector.now result }
{
    for c in 0..vector.len() {
        if vector[c] != 0 {
            return c;
        }
    }
    vector.len()
}

// Brings a column into the basis in place of another, if it is not that one.
fn bring(tableau: &mut Tableau, leave: usize, enter: usize) -> Result<(), Stop>
    requires leave { IsIn leave tableau.old.basis }
    requires inside { enter < tableau.old.matrix.cols }
    requires outside { enter ≢ leave → IsIn enter tableau.old.basis → ⊥ }
    requires some { HasEntryAt tableau.old.matrix tableau.old.basis leave enter }
    ensures matrix { OnOk result (tableau.new.matrix ≡ tableau.old.matrix) }
    ensures basis { OnOk result (IsBrought tableau.old.basis leave enter tableau.new.basis) }
    ensures stop { IfErr result (λ stop. IsWideStop tableau.old.matrix stop) }
{
    if leave == enter {
        return Ok(());
    }
    tableau.names_rows();
    let _ = tableau.entry(enter, leave);
    if let Err(wide) = tableau.pivot(leave, enter) {
        return Err(Stop::Wide {
            index: wide.index,
            basis: tableau.basis_after(leave, enter)?,
        });
    }
    Ok(())
}

// Only zero is in the space: a tie for each column.
fn only_zero(alloc: Global, tableau: &Tableau, work: &mut [i128]) -> Result<Space, Stop>
    requires none { HasNoColumn tableau.now.basis 0 tableau.now.matrix.cols }
    requires work { length work.old ≡ width tableau.now.matrix }
    ensures space { IfOk result (λ space. GivesSpace tableau.now.matrix space) }
    ensures stop { IfErr result (λ stop. IsWideStop tableau.now.matrix stop) }
{
    tableau.names_rows();
    Ok(Space::Zero {
        ties: ties(alloc, tableau, work, tableau.cols())?,
    })
}

// The space is a line: its vector, and a tie for each column but that of the vector's first entry that is not zero.
fn line(alloc: Global, tableau: &mut Tableau, work: &mut [i128], free: usize) -> Result<Space, Stop>
    requires entered { AreEntered tableau.old.matrix tableau.old.basis tableau.old.matrix.cols }
    requires free { IsFirstColumn tableau.old.basis 0 tableau.old.matrix.cols free }
    requires none { HasNoColumn tableau.old.basis (free + 1) tableau.old.matrix.cols }
    requires work { length work.old ≡ width tableau.old.matrix }
    ensures space { IfOk result (λ space. GivesSpace tableau.old.matrix space) }
    ensures stop { IfErr result (λ stop. IsWideStop tableau.old.matrix stop) }
{
    tableau.names_rows();
    let vector = column_part(alloc, tableau, work, free)?;
    let place = first_place(vector.as_slice());
    bring(tableau, free, place)?;
    let ties = ties(alloc, tableau, work, place)?;
    Ok(Space::Line { vector, ties })
}

// The space is more than a line: the vectors of two columns.
fn plane(
    alloc: Global,
    tableau: &Tableau,
    work: &mut [i128],
    first: usize,
    second: usize,
) -> Result<Space, Stop>
    requires entered { AreEntered tableau.now.matrix tableau.now.basis tableau.now.matrix.cols }
    requires first { IsIn first tableau.now.basis }
    requires second { IsFirstColumn tableau.now.basis (first + 1) tableau.now.matrix.cols second }
    requires work { length work.old ≡ width tableau.now.matrix }
    ensures space { IfOk result (λ space. GivesSpace tableau.now.matrix space) }
    ensures stop { IfErr result (λ stop. IsWideStop tableau.now.matrix stop) }
{
    tableau.names_rows();
    let one = column_part(alloc, tableau, work, first)?;
    let two = column_part(alloc, tableau, work, second)?;
    Ok(Space::Plane {
        first: first as u32 + 1,
        second: second as u32 + 1,
        one,
        two,
    })
}

// The space, after the rows have entered the basis.
fn by_columns(alloc: Global, tableau: &mut Tableau) -> Result<Space, Stop>
    requires { AreEntered tableau.old.matrix tableau.old.basis tableau.old.matrix.cols }
    ensures space { IfOk result (λ space. GivesSpace tableau.old.matrix space) }
    ensures stop { IfErr result (λ stop. IsWideStop tableau.old.matrix stop) }
{
    tableau.names_rows();
    let mut work = vec![in alloc; 0i128; tableau.coordinates()]?;
    match free_column(tableau, 0) {
        None => only_zero(alloc, tableau, &mut work),
        Some(first) => match free_column(tableau, first + 1) {
            None => line(alloc, tableau, &mut work, first),
            Some(second) => plane(alloc, tableau, &mut work, first, second),
        },
    }
}

/// The vectors that the rows of a matrix take to zero, or the name of a wide vector of the matrix.
pub(crate) fn find_space(alloc: Global, matrix: &Matrix) -> Result<Space, Stop>
    ensures space { IfOk result (λ space. GivesSpace matrix.now space) }
    ensures stop { IfErr result (λ stop. IsWideStop matrix.now stop) }
{
    let mut tableau = Tableau::new(alloc, matrix)?;
    if let Err(refused) = tableau.enter_rows(matrix.cols()) {
        return Err(refused_stop(&tableau, &refused)?);
    }
    by_columns(alloc, &mut tableau)
}
