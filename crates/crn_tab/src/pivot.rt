ghost use Rattle.std.specs.Prelude.{◌≡◌, ◌≢◌, ◌≤◌, ◌<◌, ◌+◌, ℕ, ℤ, pos, List};
ghost use Rattle.crn_vec.specs.Vectors.{entry};
ghost use Rattle.crn_vec.specs.Lists.{IsIn};
ghost use Rattle.crn_vec.specs.Elementary.{width, IsNamed, WideAt, Exchanged};
ghost use Rattle.crn_tab.specs.Slots.{basis_of, IsTableau};

use crate::lead::Pivot;
use crate::rows::Rows;
use crate::scratch::Scratch;
use crn_vec::Matrix;

// Exchanges two coordinates: the new slots, and the rows after the exchange.
// The answer is the number of coordinates, or the least one whose new vector is wide, and then the slots and the rows stay.
pub(crate) fn exchange(
    matrix: &Matrix,
    at: &mut [usize],
    order: &mut [usize],
    rows: &mut Rows,
    scratch: &mut Scratch,
    leave: usize,
    enter: usize,
) -> usize
    requires tableau { IsTableau matrix.now at.old order.old rows.old }
    requires scratch { scratch.old ≡ matrix.now.cols + 1 }
    requires leave { IsIn leave (basis_of matrix.now.cols at.old) }
    requires inside { enter < width matrix.now }
    requires enter { IsIn enter (basis_of matrix.now.cols at.old) → ⊥ }
    requires some { (w : List ℤ) → IsNamed matrix.now (basis_of matrix.now.cols at.old) enter w
        → entry w leave ≢ pos 0 }
    ensures ok { result ≡ width matrix.now
        → Exchanged (basis_of matrix.now.cols at.old) leave enter (basis_of matrix.now.cols at.new)
        × ((k : ℕ) → (IsIn k (basis_of matrix.now.cols at.new) → ⊥)
        → WideAt matrix.now (basis_of matrix.now.cols at.new) k → ⊥) }
    ensures wide { result ≢ width matrix.now → (at.new ≡ at.old) × (order.new ≡ order.old)
        × (rows.new ≡ rows.old)
        × ((next : List ℕ) → Exchanged (basis_of matrix.now.cols at.old) leave enter next
        → WideAt matrix.now next result
        × ((k : ℕ) → k < result → (IsIn k next → ⊥) → WideAt matrix.now next k → ⊥)) }
    ensures row { result ≢ width matrix.now → (next : List ℕ)
        → Exchanged (basis_of matrix.now.cols at.old) leave enter next → IsIn result next → ⊥ }
    ensures most { result ≤ width matrix.now }
    ensures tableau { IsTableau matrix.now at.new order.new rows.new }
    ensures scratch { scratch.new ≡ scratch.old }
{
    let n = matrix.cols();
    let m = matrix.rows();
    let c = at[leave];
    let r = at[enter] - n;
    let pivot = Pivot {
        rows: m,
        row: r,
        slot: c,
    };
    let least = rows.exchange(pivot, order, scratch);
    if least < n + m {
        return least;
    }
    at[leave] = n + r;
    at[enter] = c;
    order[c] = enter;
    order[n + r] = leave;
    least
}
