ghost use Rattle.std.specs.Prelude.{◌≤◌, ◌<◌};
ghost use Rattle.crn_vec.specs.declared.limits.TheConstants.{MAX_SPECIES};

use crn_vec::MAX_SPECIES;

/// Numbers by species. Sums and products of them wrap; whoever uses a result tests it.
pub(crate) type Row = [i64; MAX_SPECIES];

// The greatest number that divides both.
fn gcd(x: u64, y: u64) -> u64 {
    let (mut a, mut b) = (x, y);
    'euclid: while b != 0 {
        let rest = a % b;
        a = b;
        b = rest;
    }
    a
}

/// The quotient of two numbers, 0 if the second one is not positive.
pub(crate) fn quotient(x: i64, y: i64) -> i64 {
    if y > 0 { x / y } else { 0 }
}

/// The greatest number that divides both, and at least 1.
pub(crate) fn shared(x: i64, y: i64) -> i64 {
    let both = gcd(x.unsigned_abs(), y.unsigned_abs());
    if both > 1 && both <= i64::MAX as u64 {
        both as i64
    } else {
        1
    }
}

// The greatest number that divides the first entries, and 0 if all are 0.
fn divisor(row: &Row, count: usize) -> i64
    requires { count ≤ MAX_SPECIES }
{
    let mut both = 0;
    for s in 0..count {
        if row[s] != 0 {
            both = shared(row[s], both);
            if both == 1 {
                return 1;
            }
        }
    }
    both
}

/// Divides the first entries by the greatest number that divides them all.
pub(crate) fn reduce(row: &mut Row, count: usize)
    requires { count ≤ MAX_SPECIES }
{
    let by = divisor(row, count);
    if by > 1 {
        for s in 0..count {
            row[s] /= by;
        }
    }
}

/// Turns the signs of the first entries.
pub(crate) fn negate(row: &mut Row, count: usize)
    requires { count ≤ MAX_SPECIES }
{
    for s in 0..count {
        row[s] = row[s].wrapping_neg();
    }
}

// Takes a multiple of the other row from the row.
fn subtract(row: &mut Row, other: &Row, factor: i64, count: usize)
    requires { count ≤ MAX_SPECIES }
{
    for s in 0..count {
        row[s] = row[s].wrapping_sub(other[s].wrapping_mul(factor));
    }
}

/// Multiplies the first entries.
pub(crate) fn scale(row: &mut Row, times: i64, count: usize)
    requires { count ≤ MAX_SPECIES }
{
    for s in 0..count {
        row[s] = row[s].wrapping_mul(times);
    }
}

/// What to multiply by so that two numbers become equal, by the least numbers of which the first one is positive.
#[derive(Clone, Copy)]
pub(crate) struct Ratio {
    pub times: i64,
    pub factor: i64,
}

/// That of the numbers, `times` for the first one and `factor` for the second.
pub(crate) fn ratio_of(value: i64, lead: i64) -> Ratio {
    let both = shared(value, lead);
    let times = quotient(lead, both);
    let factor = quotient(value, both);
    if times < 0 {
        return Ratio {
            times: times.wrapping_neg(),
            factor: factor.wrapping_neg(),
        };
    }
    Ratio { times, factor }
}

/// Clears a row by another one: takes a multiple of the other row from a positive multiple of the row, so that a linear function which is
/// `value` at the row and `lead` at the other one is 0 at what comes of it, but for wrapping. If the row was multiplied, it is reduced.
pub(crate) fn clear(row: &mut Row, value: i64, other: &Row, lead: i64, count: usize)
    requires { count ≤ MAX_SPECIES }
{
    let ratio = ratio_of(value, lead);
    if ratio.times == 1 {
        subtract(row, other, ratio.factor, count);
    } else {
        scale(row, ratio.times, count);
        subtract(row, other, ratio.factor, count);
        reduce(row, count);
    }
}
