ghost use Rattle.std.specs.Prelude.{◌≡◌, ◌≤◌, ◌<◌, ℕ, IsTrue, length, take, unsigned_abs};
ghost use Rattle.crn_vec.specs.Elementary.{InRowSpace, width};
ghost use Rattle.crn_vec.specs.Vectors.{entry};
ghost use Rattle.crn_vec.specs.declared.limits.TheConstants.{WIDE_SOLUTION};
ghost use Rattle.crn_farkas.specs.Decision.{IsSmallSolution};

use crn_vec::{Kind, Matrix, WIDE_SOLUTION, agrees, dot};

// Whether the absolute value is below the bound of solutions.
fn is_below(x: &i128) -> bool
    ensures { IsTrue result → unsigned_abs x.now < WIDE_SOLUTION }
{
    x.unsigned_abs() < WIDE_SOLUTION
}

// Whether each number is so.
fn are_below(v: &[i128]) -> bool
    ensures { IsTrue result → (k : ℕ) → unsigned_abs (entry v.now k) < WIDE_SOLUTION }
{
    for x in v {
        if !is_below(x) {
            return false;
        }
    }
    true
}

// Whether two numbers are equal.
fn are_same(x: i128, y: i128) -> bool
    ensures { IsTrue result → x ≡ y }
{
    x == y
}

// Whether a list is (x, Ax) for some x.
fn is_row_vector(matrix: &Matrix, v: &[i128]) -> bool
    requires long { length v.now ≡ width matrix.now }
    requires small { (k : ℕ) → unsigned_abs (entry v.now k) < WIDE_SOLUTION }
    ensures { IsTrue result → InRowSpace matrix.now v.now }
{
    let n = matrix.cols();
    let (x, _) = v.split_at(n);
    for i in 0..matrix.rows() {
        if !are_same(dot(x, matrix.row(i)), v[n + i]) {
            return false;
        }
    }
    true
}

/// Whether a list is (x, Ax) for a solution x below the bound. It multiplies the matrix by x, and rests on nothing that was computed before.
pub(crate) fn is_solution(matrix: &Matrix, kinds: &[Kind], v: &[i128]) -> bool
    requires kinds { length kinds.now ≡ width matrix.now }
    requires long { length v.now ≡ length kinds.now }
    ensures { IsTrue result → IsSmallSolution matrix.now kinds.now (take matrix.now.cols v.now) }
{
    if !are_below(v) {
        return false;
    }
    if !is_row_vector(matrix, v) {
        return false;
    }
    agrees(kinds, v)
}
