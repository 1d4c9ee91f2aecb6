ghost use Rattle.std.specs.Prelude.{◌≡◌, ◌≤◌, ◌<◌, IsTrue, IfSome, length, take};
ghost use Rattle.crn_vec.specs.Elementary.{width};
ghost use Rattle.crn_vec.specs.Lists.{IsIn};
ghost use Rattle.crn_farkas.specs.Decision.{IsSmallSolution};

use crate::tested::is_solution;
use crn_frac::{gcd_of, lcm_of_below};
use crn_tab::Tableau;
use crn_vec::{Kind, WIDE_ENTRY, is_asked, unit_asked};

// Here each member of the basis that has to be positive has 1, and one that has to be negative has -1. This fixes the vector (x, Ax).
// Nothing is proved of its numbers, which are computed from the rows and not from the columns: what is made of them is tested.

// A number times the one that a member of the basis has.
fn times_unit(kind: Kind, x: i128) -> i128 {
    x.wrapping_mul(unit_asked(kind) as i128)
}

// The quotient, or 0 if there is none.
fn quotient(x: i128, by: i128) -> i128 {
    match x.checked_div(by) {
        Some(y) => y,
        None => 0,
    }
}

// Puts what a coordinate has, rounded, into its place, and gives it in the direction that its kind requires, times 2^20 and rounded.
fn height(kinds: &[Kind], whole: i128, den: i128, own: usize, sum: &mut [i128]) -> i128
    requires sum { length sum.old ≡ length kinds.now }
    requires own { own < length kinds.now }
{
    sum[own] = quotient(whole, den);
    quotient(times_unit(kinds[own], whole).wrapping_mul(1 << 20), den)
}

// Whether a coordinate has to be 0.
fn is_zero(kind: Kind) -> bool {
    match kind {
        Kind::Zero => true,
        _ => false,
    }
}

// What a coordinate outside the basis that has to be positive or negative has, in the direction that its kind requires. It puts what any
// coordinate has that need not be 0.
fn height_outside(tableau: &Tableau, kinds: &[Kind], sum: &mut [i128], e: usize) -> Option<i128>
    requires kinds { length kinds.now ≡ width tableau.now.matrix }
    requires sum { length sum.old ≡ length kinds.now }
    requires inside { e < width tableau.now.matrix }
    ensures { IfSome result (λ _. IsIn e tableau.now.basis → ⊥) }
{
    if is_zero(kinds[e]) {
        return None;
    }
    if tableau.is_basic(e) {
        return None;
    }
    let (whole, den) = tableau.pull(e, kinds);
    let here = height(kinds, whole, den, e, sum);
    if is_asked(kinds[e]) { Some(here) } else { None }
}

// The coordinate outside the basis that has the least in the direction that its kind requires, if that, times 2^20 and
// rounded, is at most 0. What the coordinates have, rounded, is put into a list.
pub(crate) fn lowest(tableau: &Tableau, kinds: &[Kind], sum: &mut [i128]) -> Option<usize>
    requires kinds { length kinds.now ≡ width tableau.now.matrix }
    requires sum { length sum.old ≡ length kinds.now }
    ensures { IfSome result (λ e. (e < width tableau.now.matrix) × (IsIn e tableau.now.basis → ⊥)) }
{
    let mut least = 1;
    let mut at = None;
    for e in 0..kinds.len() {
        sum[e] = times_unit(kinds[e], 1);
        if let Some(here) = height_outside(tableau, kinds, sum, e) {
            if here < least {
                least = here;
                at = Some(e);
            }
        }
    }
    at
}

// By how much a coordinate grows, in the direction that its kind requires, if a member of the basis grows by 1; times the
// row's own entry.
fn gain(kinds: &[Kind], row: &[i128], own: usize, k: usize) -> i128
    requires same { length row.now ≡ length kinds.now }
    requires own { own < length kinds.now }
    requires place { k < length kinds.now }
{
    let up = times_unit(kinds[own], times_unit(kinds[k], row[k]));
    if row[own] < 0 { up } else { up.wrapping_neg() }
}

// The member of the basis that helps a coordinate outside it most.
pub(crate) fn most_help(
    tableau: &Tableau,
    kinds: &[Kind],
    work: &mut [i128],
    e: usize,
) -> Option<usize>
    requires kinds { length kinds.now ≡ width tableau.now.matrix }
    requires work { length work.old ≡ length kinds.now }
    requires inside { e < width tableau.now.matrix }
    requires outside { IsIn e tableau.now.basis → ⊥ }
    ensures { IfSome result (λ b. IsIn b tableau.now.basis) }
{
    tableau.put_row(e, work);
    let mut most = 0;
    let mut at = None;
    for k in 0..kinds.len() {
        if tableau.is_basic(k) {
            let here = gain(kinds, work, e, k);
            if here > most {
                most = here;
                at = Some(k);
            }
        }
    }
    at
}

// The least common multiple of a number and the denominator of a fraction, if it is small.
fn next_multiple(l: u128, num: i128, den: i128) -> Option<u128>
    requires { 1 ≤ l }
    ensures { IfSome result (λ next. 1 ≤ next) }
{
    let own = den.unsigned_abs();
    let shared = gcd_of(num.unsigned_abs(), own);
    if shared == 0 {
        return None;
    }
    let reduced = own / shared;
    if reduced == 0 {
        return None;
    }
    lcm_of_below(l, reduced, WIDE_ENTRY)
}

// A number that makes all that the coordinates have whole, if there is a small one.
fn multiple(tableau: &Tableau, kinds: &[Kind]) -> Option<u128>
    requires { length kinds.now ≡ width tableau.now.matrix }
{
    let mut l = 1u128;
    for e in 0..kinds.len() {
        if !is_zero(kinds[e]) && !tableau.is_basic(e) {
            let (whole, den) = tableau.pull(e, kinds);
            match next_multiple(l, whole, den) {
                None => return None,
                Some(next) => l = next,
            }
        }
    }
    Some(l)
}

// Puts what each coordinate has, times a number.
fn put_multiples(tableau: &Tableau, kinds: &[Kind], l: i128, sum: &mut [i128])
    requires kinds { length kinds.now ≡ width tableau.now.matrix }
    requires sum { length sum.old ≡ length kinds.now }
{
    for e in 0..kinds.len() {
        sum[e] = times_unit(kinds[e], l);
        if !is_zero(kinds[e]) && !tableau.is_basic(e) {
            let (whole, den) = tableau.pull(e, kinds);
            sum[e] = quotient(whole.wrapping_mul(l), den);
        }
    }
}

// Whether the numbers of the coordinates make a solution, which is then in the list. At first the list has them rounded.
pub(crate) fn by_units(tableau: &Tableau, kinds: &[Kind], sum: &mut [i128]) -> bool
    requires kinds { length kinds.now ≡ width tableau.now.matrix }
    requires sum { length sum.old ≡ length kinds.now }
    ensures { IsTrue result → IsSmallSolution tableau.now.matrix kinds.now
        (take tableau.now.matrix.cols sum.new) }
{
    if is_solution(tableau.matrix(), kinds, sum) {
        return true;
    }
    match multiple(tableau, kinds) {
        None => false,
        Some(l) => {
            if l >= WIDE_ENTRY {
                return false;
            }
            put_multiples(tableau, kinds, l as i128, sum);
            is_solution(tableau.matrix(), kinds, sum)
        }
    }
}
