// Matrices of small numbers.
ghost use Rattle.std.specs.Prelude.{◌≡◌, ◌≤◌, ◌+◌, unsigned_abs, vec_len};
ghost use Rattle.crn_vec.specs.Vectors.{AreWithin};

use crn_vec::{MAX_AMOUNT, Matrix};
use std::alloc::Global;
use std::process::Abort;

// Entries row by row, the rows -x_i + 99 x_(i + 1), and the rows p x_i - x_last, for each p.
#[derive(Clone, Copy)]
pub enum Entries {
    Rows(&'static [i128]),
    Chain,
    Fan(&'static [i128]),
}

// The numbers of rows and of columns, and the entries.
#[derive(Clone, Copy)]
pub struct Shape(pub usize, pub usize, pub Entries);

// The number at a place, or 0 where there is none.
pub fn at(list: &[i128], place: usize) -> i128 {
    match list.get(place) {
        Some(x) => *x,
        None => 0,
    }
}

// The entry in row i and column j.
fn entry(shape: Shape, i: usize, j: usize) -> i128 {
    let Shape(_, cols, entries) = shape;
    match entries {
        Entries::Rows(list) => at(list, i.wrapping_mul(cols).wrapping_add(j)),
        Entries::Chain if j == i => -1,
        Entries::Chain if j == i.wrapping_add(1) => 99,
        Entries::Fan(numbers) if j == i => at(numbers, i),
        Entries::Fan(numbers) if j == numbers.len() => -1,
        _ => 0,
    }
}

// A small number, as a matrix may hold it.
fn small(x: i128) -> i128
    ensures { unsigned_abs result ≤ MAX_AMOUNT }
{
    if -99 <= x && x <= 99 { x } else { 0 }
}

// Adds row i.
fn push_row(rt: &impl Abort, entries: &mut Vec<i128>, cols: usize, shape: Shape, i: usize)
    requires { AreWithin MAX_AMOUNT entries.old.items }
    ensures within { AreWithin MAX_AMOUNT entries.new.items }
    ensures count { vec_len entries.new ≡ vec_len entries.old + cols }
{
    for j in 0..cols {
        let x = entry(shape, i, j);
        entries.push(small(x)).expect(rt, "memory");
    }
}

// The matrix of this shape.
pub fn matrix(rt: &impl Abort, alloc: Global, shape: Shape) -> Matrix {
    let Shape(rows, cols, _) = shape;
    assert!(rt; 1 <= cols && cols < 100);
    assert!(rt; rows < 100);
    let mut made = Vec::new(alloc);
    for i in 0..rows {
        push_row(rt, &mut made, cols, shape, i);
    }
    Matrix::new(alloc, rows, cols, &made).expect(rt, "memory")
}
