ghost use Rattle.std.specs.Prelude.{◌≡◌, ◌<◌, ◌^◌, ℕ, pos, ◌≤ℤ◌, ◌*ℤ◌, length, unsigned_abs, IsTrue, IfSome};
ghost use Rattle.std.specs.Int.{IsGcd, ◌∣◌};
ghost use Rattle.crn_vec.specs.Vectors.{entry};
ghost use Rattle.crn_tab.specs.Slots.{IsContent};
ghost use Rattle.crn_tab.specs.Tableau.{AreSmall};

use crate::inverse::{Inverse, inverse_of, wide_inverse_quotient};
use crn_frac::gcd_of;
use crn_vec::WIDE_ENTRY;

// Whether a number is the quotient.
fn is_wide_quotient(y: &i64, by: &i64, x: &i128) -> bool
    requires { unsigned_abs by.now < WIDE_ENTRY }
    ensures { IsTrue result → y.now *ℤ by.now ≡ x.now }
{
    *y as i128 * *by as i128 == *x
}

// The bound of a kept entry, with a sign.
const BOUND: i64 = 1 << 62;

// Whether the absolute value is below the bound of a kept entry.
fn is_kept(y: &i64) -> bool
    ensures { IsTrue result → unsigned_abs y.now < WIDE_ENTRY }
{
    (-BOUND < *y) & (*y < BOUND)
}

// The quotient by the inverse, if it is whole and below the bound of a kept entry.
fn kept_quotient_by(x: &i128, by: &i64, inverse: Inverse) -> Option<i64>
    requires shift { inverse.shift < 64 }
    requires by_small { unsigned_abs by.now < WIDE_ENTRY }
    ensures whole { IfSome result (λ y. y *ℤ by.now ≡ x.now) }
    ensures small { IfSome result (λ y. unsigned_abs y < WIDE_ENTRY) }
{
    let y = wide_inverse_quotient(*x, inverse.shift, inverse.inverse);
    if is_wide_quotient(&y, by, x) && is_kept(&y) {
        Some(y)
    } else {
        None
    }
}

// Whether a number is a multiple of a divisor. `false` means that it is not known.
fn is_multiple(x: &i128, by: &i64, inverse: Inverse) -> bool
    requires shift { inverse.shift < 64 }
    requires by_small { unsigned_abs by.now < WIDE_ENTRY }
    ensures { IsTrue result → unsigned_abs by.now ∣ unsigned_abs x.now }
{
    let y = wide_inverse_quotient(*x, inverse.shift, inverse.inverse);
    is_wide_quotient(&y, by, x)
}

// The greatest common divisor of a number and of a small positive one.
fn divisor_with(x: &i128, g: &i64) -> i64
    requires x { unsigned_abs x.now < 2 ^ 125 }
    requires some { pos 1 ≤ℤ g.now }
    requires small { unsigned_abs g.now < WIDE_ENTRY }
    ensures gcd { IsGcd (unsigned_abs x.now) (unsigned_abs g.now) (unsigned_abs result) }
    ensures some { pos 1 ≤ℤ result }
    ensures small { unsigned_abs result < WIDE_ENTRY }
{
    gcd_of(x.unsigned_abs(), g.unsigned_abs() as u128) as i64
}

// The greatest common divisor of the entries, which divides `known`. Mostly that is 1.
pub(crate) fn content(work: &[i128], known: &i64) -> i64
    requires small { (k : ℕ) → k < length work.now → unsigned_abs (entry work.now k) < 2 ^ 125 }
    requires known { (d : ℕ) → ((k : ℕ) → d ∣ unsigned_abs (entry work.now k))
        → d ∣ unsigned_abs known.now }
    requires known_some { pos 1 ≤ℤ known.now }
    requires known_small { unsigned_abs known.now < WIDE_ENTRY }
    ensures content { IsContent work.now (unsigned_abs result) }
    ensures some { pos 1 ≤ℤ result }
    ensures small { unsigned_abs result < WIDE_ENTRY }
{
    let mut g = *known;
    let mut inverse = inverse_of(g);
    for x in work {
        if g == 1 {
            return 1;
        }
        // Mostly it is a multiple, and a product shows this in far less time than a remainder of 128 bits.
        if !is_multiple(x, &g, inverse) {
            g = divisor_with(x, &g);
            inverse = inverse_of(g);
        }
    }
    g
}

// The quotients of all entries, if they are whole and below the bound of an entry. If not, the row holds nothing of use.
pub(crate) fn quotients(work: &[i128], by: &i64, row: &mut [i64]) -> bool
    requires count { length row.old ≡ length work.now }
    requires by_small { unsigned_abs by.now < WIDE_ENTRY }
    ensures whole { IsTrue result → (k : ℕ) → k < length work.now
        → entry row.new k *ℤ by.now ≡ entry work.now k }
    ensures small { IsTrue result → AreSmall row.new }
{
    let inverse = inverse_of(*by);
    for j in 0..work.len() {
        match kept_quotient_by(&work[j], by, inverse) {
            None => return false,
            Some(y) => row[j] = y,
        }
    }
    true
}
