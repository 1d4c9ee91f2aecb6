ghost use Rattle.std.specs.Prelude.{◌≡◌, ◌≤◌, ◌<◌, ◌+◌, ◌*◌, ℕ, pos, [], length, IfOk, unsigned_abs, slice_index_or, ◌^◌, take, drop};
ghost use Rattle.crn_vec.specs.Vectors.{AreOfLength, AreWithin, entry};
ghost use Rattle.crn_vec.specs.Matrices.{mat_of};

use crate::fault::NoMemory;
use crate::limits::{MAX_AMOUNT, MAX_COORDINATES};
use std::alloc::Global;
use std::marker::Model;
use std::rc::Rc;

// The row in a list of rows of this many entries.
fn row_of(entries: &[i128], row: usize, cols: usize) -> &[i128]
    requires few { length entries.now ≤ 2 ^ 20 }
    requires inside { row * cols + cols ≤ length entries.now }
    ensures { result.now ≡ take cols (drop (row * cols) entries.now) }
{
    let (_, rest) = entries.split_at(row * cols);
    let (part, _) = rest.split_at(cols);
    part
}

/// A matrix of small whole numbers, row by row.
#[derive(Drop)]
pub struct Matrix {
    rows: usize,
    cols: usize,
    entries: Rc<Vec<i128>>,
}

impl Model for Matrix {
    ghost use Rattle.crn_vec.specs.Vectors.{Mat};
    ghost use Rattle.crn_vec.specs.Matrices.{mat_of, IsMatrix};

    ghost Value = { Mat };

    ghost view = { λ s. mat_of s.rows s.cols s.entries.value.items };

    ghost invariant = { λ s. IsMatrix s.rows s.cols s.entries.value.items };
}

impl Matrix {
    /// A matrix of these entries, row by row. It may have no rows, but has a column.
    pub fn new(
        alloc: Global,
        rows: usize,
        cols: usize,
        entries: &[i128],
    ) -> Result<Matrix, NoMemory>
        requires count { length entries.now ≡ rows * cols }
        requires some { 1 ≤ cols }
        requires few { rows + cols ≤ MAX_COORDINATES }
        requires small { AreWithin MAX_AMOUNT entries.now }
        ensures { IfOk result (λ made. made ≡ mat_of rows cols entries.now) }
    {
        Matrix::from_entries(alloc, rows, cols, Vec::from_slice(alloc, entries)?)
    }

    /// A matrix that keeps this list of entries, row by row. It may have no rows, but has a column.
    pub fn from_entries(
        alloc: Global,
        rows: usize,
        cols: usize,
        entries: Vec<i128>,
    ) -> Result<Matrix, NoMemory>
        requires count { length entries.items ≡ rows * cols }
        requires some { 1 ≤ cols }
        requires few { rows + cols ≤ MAX_COORDINATES }
        requires small { AreWithin MAX_AMOUNT entries.items }
        ensures { IfOk result (λ made. made ≡ mat_of rows cols entries.items) }
    {
        Ok(Matrix {
            rows,
            cols,
            entries: Rc::new(alloc, entries)?,
        })
    }

    /// The number of rows.
    pub fn rows(&self) -> usize
        ensures count { result ≡ length self.now.rows }
        ensures few { result + self.now.cols ≤ MAX_COORDINATES }
        ensures small { (i : ℕ) → AreWithin MAX_AMOUNT (slice_index_or self.now.rows i []) }
    {
        self.rows
    }

    /// The number of columns.
    pub fn cols(&self) -> usize
        ensures count { result ≡ self.now.cols }
        ensures some { 1 ≤ result }
        ensures shape { AreOfLength self.now.cols self.now.rows }
    {
        self.cols
    }

    /// The entry of a row in a column.
    pub fn entry(&self, row: usize, col: usize) -> i128
        requires row { row < length self.now.rows }
        requires col { col < self.now.cols }
        ensures value { result ≡ entry (slice_index_or self.now.rows row []) col }
        ensures small { unsigned_abs result ≤ MAX_AMOUNT }
    {
        self.row(row)[col]
    }

    /// The entries of a row.
    pub fn row(&self, row: usize) -> &[i128]
        requires { row < length self.now.rows }
        ensures value { result.now ≡ slice_index_or self.now.rows row [] }
        ensures count { length result.now ≡ self.now.cols }
        ensures small { AreWithin MAX_AMOUNT result.now }
    {
        row_of(&self.entries, row, self.cols)
    }

    /// Another matrix of the same entries, in the same memory.
    pub fn copy(&self) -> Result<Matrix, NoMemory>
        ensures { IfOk result (λ made. made ≡ self.now) }
    {
        Ok(Matrix {
            rows: self.rows,
            cols: self.cols,
            entries: self.entries.clone()?,
        })
    }
}
