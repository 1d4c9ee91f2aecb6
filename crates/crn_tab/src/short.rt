ghost use Rattle.std.specs.Prelude.{◌≡◌, ◌≤◌, ◌<◌, ◌^◌, ℕ, pos, ◌≤ℤ◌, ◌-ℤ◌, ◌*ℤ◌, length, unsigned_abs, IsTrue, false, ◌⊎◌};
ghost use Rattle.std.specs.Int.{◌∣◌};
ghost use Rattle.crn_vec.specs.Vectors.{entry};
ghost use Rattle.crn_tab.specs.Inner.Rows.{AreBelow, IsCombined};

use crate::low::{both, divisor_with};

// Of numbers below this, the difference of two products fits 32 bits, of which a vector holds twice as many as of 64.
pub(crate) const SHORT_ENTRY: i64 = 1 << 14;

// The same bound, for numbers of 32 bits.
const SHORT_PART: i32 = 1 << 14;

// This many entries of the difference of two rows are mostly enough to find its greatest common divisor.
const FIRST_ENTRIES: usize = 8;

// Whether the absolute value is below the bound of short numbers.
pub(crate) fn is_short(x: &i64) -> bool
    ensures { IsTrue result → unsigned_abs x.now < 2 ^ 14 }
{
    (-SHORT_ENTRY < *x) & (*x < SHORT_ENTRY)
}

// Whether each entry is so.
pub(crate) fn are_short(row: &[i64]) -> bool
    ensures { IsTrue result → AreBelow (2 ^ 14) row.now }
{
    let mut short = true;
    for x in row {
        short = both(short, is_short(x));
    }
    short
}

// The same of many rows. If they are not short, this is mostly found soon.
pub(crate) fn all_short(rows: &[i64]) -> bool
    ensures { IsTrue result → AreBelow (2 ^ 14) rows.now }
{
    for x in rows {
        if !is_short(x) {
            return false;
        }
    }
    true
}

// A short number, of 32 bits.
pub(crate) fn narrow(x: &i64) -> i32
    requires { unsigned_abs x.now < 2 ^ 14 }
    ensures { result ≡ x.now }
{
    *x as i32
}

// Short numbers, of 32 bits.
fn put_narrow(row: &[i64], into: &mut [i32])
    requires same { length into.old ≡ length row.now }
    requires short { AreBelow (2 ^ 14) row.now }
    ensures { into.new ≡ row.now }
{
    for j in 0..row.len() {
        into[j] = narrow(&row[j]);
    }
}

// The same if they are said to be short.
pub(crate) fn put_narrow_if(short: bool, row: &[i64], into: &mut [i32])
    requires same { length into.old ≡ length row.now }
    requires short { IsTrue short → AreBelow (2 ^ 14) row.now }
    ensures { IsTrue short → into.new ≡ row.now }
{
    if short {
        put_narrow(row, into);
    }
}

// Looks whether a row that was short still is.
pub(crate) fn look_again(short: &mut bool, row: &[i64])
    ensures { IsTrue short.new → IsTrue short.old × AreBelow (2 ^ 14) row.now }
{
    *short = *short && are_short(row);
}

// A row of fewer entries takes as many steps by numbers of 64 bits.
const MANY_ENTRIES: usize = 48;

// Whether rows are made by numbers of 32 bits: the lead has many entries, more than three eighths of them are not 0, and all rows are short,
// as is said, or else as they show.
pub(crate) fn is_narrow(short: &mut bool, rows: &[i64], places: usize, entries: usize) -> bool
    ensures narrow { IsTrue result → IsTrue short.new }
    ensures short { IsTrue short.new → IsTrue short.old ⊎ AreBelow (2 ^ 14) rows.now }
{
    if entries < MANY_ENTRIES || places <= entries / 8 * 3 {
        return false;
    }
    *short = *short || all_short(rows);
    *short
}

// The same numbers, of 64 bits.
fn put_long(row: &[i32], into: &mut [i64])
    requires { length into.old ≡ length row.now }
    ensures { into.new ≡ row.now }
{
    for j in 0..row.len() {
        into[j] = row[j] as i64;
    }
}

// One entry of the difference of two rows of short entries.
fn short_cross(p: &i32, x: &i32, q: &i32, y: &i32) -> i32
    requires p { unsigned_abs p.now < 2 ^ 14 }
    requires x { unsigned_abs x.now < 2 ^ 14 }
    requires q { unsigned_abs q.now < 2 ^ 14 }
    requires y { unsigned_abs y.now < 2 ^ 14 }
    ensures value { result ≡ (p.now *ℤ x.now) -ℤ (q.now *ℤ y.now) }
    ensures small { unsigned_abs result < 2 ^ 30 }
{
    *p * *x - *q * *y
}

// Of a divisor: how often it is even, and the inverse of the rest modulo 2^32. Nothing is proved of these numbers, as the quotients are tested.
#[derive(Clone, Copy)]
struct Inverse {
    shift: u32,
    odd: i32,
}

// A step of Newton's, which doubles the lowest bits that are right.
fn better(odd: i32, x: i32) -> i32 {
    x.wrapping_mul(2i32.wrapping_sub(odd.wrapping_mul(x)))
}

// What finds the quotients by a divisor.
fn inverse_of(by: i32) -> Inverse
    ensures { result.shift < 32 }
{
    let shift = by.trailing_zeros() % 32;
    let odd = by >> shift;
    // Of an odd number and itself, three bits are right at first.
    let x = better(odd, better(odd, better(odd, better(odd, odd))));
    Inverse { shift, odd: x }
}

// The quotient, if the number is a multiple of the divisor, and else any number.
fn quotient(x: i32, shift: u32, odd: i32) -> i32
    requires { shift < 32 }
{
    (x >> shift).wrapping_mul(odd)
}

// Whether the absolute value is below the bound of short numbers.
fn is_short_part(y: &i32) -> bool
    ensures { IsTrue result → unsigned_abs y.now < 2 ^ 14 }
{
    (-SHORT_PART < *y) & (*y < SHORT_PART)
}

// Whether a number is the quotient, if it is short.
fn is_quotient(y: &i32, by: &i32, x: &i32) -> bool
    requires { unsigned_abs by.now < 2 ^ 14 }
    ensures { IsTrue result → unsigned_abs y.now < 2 ^ 14 → y.now *ℤ by.now ≡ x.now }
{
    let (y, by, x) = (*y, *by, *x);
    y.wrapping_mul(by) == x
}

// The difference of two rows of short entries, each times a factor, over a divisor, in place of the first.
// The answer is whether all quotients are whole and short. If not, the row holds nothing of use.
fn put_quotients(row: &mut [i32], lead: &[i32], p: &i32, q: &i32, by: &i32) -> bool
    requires lead_count { length lead.now ≡ length row.old }
    requires row { AreBelow (2 ^ 14) row.old }
    requires lead { AreBelow (2 ^ 14) lead.now }
    requires p { unsigned_abs p.now < 2 ^ 14 }
    requires q { unsigned_abs q.now < 2 ^ 14 }
    requires by { unsigned_abs by.now < 2 ^ 14 }
    ensures value { IsTrue result → (k : ℕ) → k < length row.old
        → entry row.new k *ℤ by.now ≡ (p.now *ℤ entry row.old k) -ℤ (q.now *ℤ entry lead.now k) }
    ensures short { IsTrue result → (k : ℕ) → k < length row.old
        → unsigned_abs (entry row.new k) < 2 ^ 14 }
{
    let inverse = inverse_of(*by);
    let mut all = true;
    for j in 0..row.len() {
        let x = short_cross(p, &row[j], q, &lead[j]);
        let y = quotient(x, inverse.shift, inverse.odd);
        row[j] = y;
        all = both(all, both(is_short_part(&y), is_quotient(&y, by, &x)));
    }
    all
}

// The greatest common divisor of a number and of some first entries of the difference of two rows, each times a factor.
fn first_divisor(row: &[i32], lead: &[i32], p: &i32, q: &i32, known: &i64) -> i64
    requires lead_count { length lead.now ≡ length row.now }
    requires row { AreBelow (2 ^ 14) row.now }
    requires lead { AreBelow (2 ^ 14) lead.now }
    requires p { unsigned_abs p.now < 2 ^ 14 }
    requires q { unsigned_abs q.now < 2 ^ 14 }
    requires known { (d : ℕ)
        → ((k : ℕ) → d ∣ unsigned_abs ((p.now *ℤ entry row.now k) -ℤ (q.now *ℤ entry lead.now k)))
        → d ∣ unsigned_abs known.now }
    requires some { pos 1 ≤ℤ known.now }
    requires short { unsigned_abs known.now < 2 ^ 14 }
    ensures greatest { (d : ℕ)
        → ((k : ℕ) → d ∣ unsigned_abs ((p.now *ℤ entry row.now k) -ℤ (q.now *ℤ entry lead.now k)))
        → d ∣ unsigned_abs result }
    ensures some { pos 1 ≤ℤ result }
    ensures short { unsigned_abs result < 2 ^ 14 }
{
    let mut g = *known;
    for j in 0..row.len().min(FIRST_ENTRIES) {
        if g == 1 {
            return 1;
        }
        g = divisor_with(&(short_cross(p, &row[j], q, &lead[j]) as i64), &g, true);
    }
    g
}

// The primitive difference of two rows of short entries, each times a factor, in place of the first, if it is short, too, and some first
// entries show its greatest common divisor. Whatever divides all of it divides `known`. If the answer is no, the row stays.
pub(crate) fn change_short(
    row: &mut [i64],
    lead: &[i32],
    p: &i32,
    q: &i32,
    known: &i64,
    work: &mut [i32],
) -> bool
    requires lead_count { length lead.now ≡ length row.old }
    requires work_count { length work.old ≡ length row.old }
    requires row { AreBelow (2 ^ 14) row.old }
    requires lead { AreBelow (2 ^ 14) lead.now }
    requires p { unsigned_abs p.now < 2 ^ 14 }
    requires q { unsigned_abs q.now < 2 ^ 14 }
    requires known { (d : ℕ)
        → ((k : ℕ) → d ∣ unsigned_abs ((p.now *ℤ entry row.old k) -ℤ (q.now *ℤ entry lead.now k)))
        → d ∣ unsigned_abs known.now }
    requires known_some { pos 1 ≤ℤ known.now }
    requires known_short { unsigned_abs known.now < 2 ^ 14 }
    ensures combined { IsTrue result → IsCombined p.now q.now row.old lead.now row.new }
    ensures short { IsTrue result → AreBelow (2 ^ 14) row.new }
    ensures same { result ≡ false → row.new ≡ row.old }
{
    put_narrow(row, work);
    let by = narrow(&first_divisor(work, lead, p, q, known));
    if !put_quotients(work, lead, p, q, &by) {
        return false;
    }
    put_long(work, row);
    true
}
