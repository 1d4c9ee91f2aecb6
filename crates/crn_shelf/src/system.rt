ghost use Rattle.std.specs.Prelude.{◌≡◌, ◌≤◌, ◌++◌, [], ◌∷◌, unsigned_abs, IfOk, OnOk};
ghost use Rattle.std.specs.List.{flat_map};
ghost use Rattle.crn_vec.specs.declared.limits.TheConstants.{MAX_AMOUNT};
ghost use Rattle.crn_vec.specs.Vectors.{AreWithin};
ghost use Rattle.crn_vec.specs.Signals.{complex_row, pair_row, shelf_matrix};

use crn_shape::Shape;
use crn_vec::{MAX_AMOUNT, Matrix, NoMemory};
use std::alloc::Global;

// Puts a row at the end: these entries, and one more.
fn put_row(entries: &mut Vec<i128>, row: &[i128], last: i128) -> Result<(), NoMemory>
    requires old { AreWithin MAX_AMOUNT entries.old.items }
    requires row { AreWithin MAX_AMOUNT row.now }
    requires last { unsigned_abs last ≤ MAX_AMOUNT }
    ensures value { OnOk result
        (entries.new.items ≡ entries.old.items ++ (row.now ++ last ∷ [])) }
    ensures small { OnOk result (AreWithin MAX_AMOUNT entries.new.items) }
{
    for s in 0..row.len() {
        entries.push(row[s])?;
    }
    entries.push(last)?;
    Ok(())
}

// Puts the rows of the complexes at the end.
fn put_complexes(entries: &mut Vec<i128>, shape: &Shape) -> Result<(), NoMemory>
    requires { AreWithin MAX_AMOUNT entries.old.items }
    ensures value { OnOk result
        (entries.new.items ≡ entries.old.items ++ flat_map complex_row shape.now.complexes) }
    ensures small { OnOk result (AreWithin MAX_AMOUNT entries.new.items) }
{
    for c in 0..shape.complexes() {
        put_row(entries, shape.complex(c), -1)?;
    }
    Ok(())
}

// Puts the rows of the linked pairs at the end.
fn put_pairs(entries: &mut Vec<i128>, shape: &Shape) -> Result<(), NoMemory>
    requires { AreWithin MAX_AMOUNT entries.old.items }
    ensures value { OnOk result
        (entries.new.items
        ≡ entries.old.items ++ flat_map (pair_row shape.now) shape.now.pairs) }
    ensures small { OnOk result (AreWithin MAX_AMOUNT entries.new.items) }
{
    for i in 0..shape.pairs() {
        put_row(entries, shape.difference(i), 0)?;
    }
    Ok(())
}

/// The matrix of system 5: a column for each species and one for the level, a row for each complex and
/// for each linked pair.
pub(crate) fn shelf_matrix(alloc: Global, shape: &Shape) -> Result<Matrix, NoMemory>
    ensures { IfOk result (λ made. made ≡ shelf_matrix shape.now) }
{
    let rows = shape.rows();
    let cols = shape.species() + 1;
    let mut entries = Vec::with_capacity(alloc, rows * cols)?;
    put_complexes(&mut entries, shape)?;
    put_pairs(&mut entries, shape)?;
    Matrix::from_entries(alloc, rows, cols, entries)
}
