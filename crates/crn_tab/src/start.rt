ghost use Rattle.std.specs.Prelude.{◌≡◌, ◌≤◌, ◌++◌, ◌+◌, length, vec_len, vec_capacity, IfOk, neg_ℤ, unsigned_abs};
ghost use Rattle.crn_vec.specs.Vectors.{AreWithin};
ghost use Rattle.crn_tab.specs.Inner.Start.{IsIdentity, start_row, start_rows};

use crn_vec::{MAX_AMOUNT, Matrix, NoMemory};
use std::alloc::Global;

// The list of this many numbers from 0 on.
pub(crate) fn identity(alloc: Global, count: usize) -> Result<Vec<usize>, NoMemory>
    ensures { IfOk result (λ v. IsIdentity count v.items) }
{
    let mut v = Vec::with_capacity(alloc, count)?;
    for k in 0..count {
        v.push(k)?;
    }
    Ok(v)
}

// Minus an entry of a matrix.
fn negative_of(x: &i128) -> i64
    requires { unsigned_abs x.now ≤ MAX_AMOUNT }
    ensures { result ≡ neg_ℤ x.now }
{
    -(*x as i64)
}

// Adds what a tableau keeps at first of a row of the matrix, to a list that has room for it.
fn push_row(rows: &mut Vec<i64>, row: &[i128])
    requires small { AreWithin MAX_AMOUNT row.now }
    requires room { vec_len rows.old + (length row.now + 1) ≤ vec_capacity rows.old }
    ensures items { rows.new.items ≡ rows.old.items ++ start_row row.now }
    ensures count { vec_len rows.new ≡ vec_len rows.old + (length row.now + 1) }
    ensures room { vec_capacity rows.new ≡ vec_capacity rows.old }
{
    for x in row {
        rows.push_reserved(negative_of(x));
    }
    rows.push_reserved(1);
}

// What a tableau keeps at first: the negative of each row of the matrix, and then a 1.
pub(crate) fn first_rows(alloc: Global, matrix: &Matrix) -> Result<Vec<i64>, NoMemory>
    ensures { IfOk result (λ v. v.items ≡ start_rows matrix.now.rows) }
{
    let mut rows = Vec::with_capacity(alloc, matrix.rows() * (matrix.cols() + 1))?;
    for i in 0..matrix.rows() {
        push_row(&mut rows, matrix.row(i));
    }
    Ok(rows)
}
