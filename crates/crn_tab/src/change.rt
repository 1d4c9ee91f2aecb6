ghost use Rattle.std.specs.Prelude.{◌≡◌, ◌≢◌, ◌≤◌, ◌<◌, ◌^◌, ◌-◌, ◌*◌, ◌+◌, ℕ, ℤ, pos, ◌≤ℤ◌, ◌-ℤ◌, ◌*ℤ◌, List, length, unsigned_abs, slice_set, vec_capacity, IsTrue, false};
ghost use Rattle.std.specs.Int.{◌∣◌};
ghost use Rattle.crn_vec.specs.Vectors.{entry};
ghost use Rattle.crn_tab.specs.Slots.{IsContent, row_at};
ghost use Rattle.crn_tab.specs.Tableau.{AreSmall};
ghost use Rattle.crn_tab.specs.Inner.Rows.{AreBelow, AreFilled, ArePlaces, AreRowsBelow, IsCombined, IsKeptRow, IsNewRow, IsRowChanged};

use crate::combine::{common, over};
use crate::lead::{Lead, Pivot, make_lead, put_lead, put_places};
use crate::low::{LOW_ENTRY, are_low, both, is_below, low_cross, low_differences, make_primitive};
use crate::short::{
    SHORT_ENTRY, change_short, is_narrow, is_short, look_again, narrow, put_narrow_if,
};
use crn_vec::WIDE_ENTRY;

// If all entries are low, no new one reaches the bound, so an exchange cannot be refused, and the rows change in place.

// A row of entries below a bound less a low multiple of the lead. The answer is whether what changed is below the bound.
fn take_lead(row: &mut [i64], lead: &[i64], places: &[usize], q: &i64, bound: &i64) -> bool
    requires few { length row.old ≤ 2 ^ 20 }
    requires lead_count { length lead.now ≡ length row.old }
    requires bound { unsigned_abs bound.now ≤ 2 ^ 30 }
    requires row { AreBelow (unsigned_abs bound.now) row.old }
    requires lead { AreBelow (2 ^ 30) lead.now }
    requires q { unsigned_abs q.now < 2 ^ 30 }
    requires places { ArePlaces lead.now places.now }
    ensures value { (k : ℕ)
        → entry row.new k ≡ entry row.old k -ℤ (q.now *ℤ entry lead.now k) }
    ensures small { AreSmall row.new }
    ensures below { IsTrue result → AreBelow (unsigned_abs bound.now) row.new }
{
    let mut below = true;
    for s in 0..places.len() {
        let k = places[s];
        let x = low_cross(&1, &row[k], q, &lead[k]);
        row[k] = x;
        below = both(below, is_below(&x, bound));
    }
    below
}

// The same of a row of low entries. The answer is whether they are low, and `short` stays only if they are short.
fn take_places(row: &mut [i64], short: &mut bool, lead: &[i64], places: &[usize], q: &i64) -> bool
    requires few { length row.old ≤ 2 ^ 20 }
    requires lead_count { length lead.now ≡ length row.old }
    requires short { IsTrue short.old → AreBelow (2 ^ 14) row.old }
    requires row { AreBelow (2 ^ 30) row.old }
    requires lead { AreBelow (2 ^ 30) lead.now }
    requires q { unsigned_abs q.now < 2 ^ 30 }
    requires places { ArePlaces lead.now places.now }
    ensures value { (k : ℕ)
        → entry row.new k ≡ entry row.old k -ℤ (q.now *ℤ entry lead.now k) }
    ensures small { AreSmall row.new }
    ensures low { IsTrue result → AreBelow (2 ^ 30) row.new }
    ensures short { IsTrue short.new → IsTrue short.old × AreBelow (2 ^ 14) row.new }
{
    if !*short {
        return take_lead(row, lead, places, q, &LOW_ENTRY);
    }
    *short = take_lead(row, lead, places, q, &SHORT_ENTRY);
    *short || are_low(row)
}

// The primitive difference of a row and a multiple of the lead, in place of the row, if the row itself has the factor 1.
// Whatever divides all of it divides `known`. The answer is whether its entries are low, and `short` stays only if they are short.
fn change_few(
    row: &mut [i64],
    short: &mut bool,
    lead: &[i64],
    places: &[usize],
    q: &i64,
    known: &i64,
) -> bool
    requires few { length row.old ≤ 2 ^ 20 }
    requires lead_count { length lead.now ≡ length row.old }
    requires short { IsTrue short.old → AreBelow (2 ^ 14) row.old }
    requires row { AreBelow (2 ^ 30) row.old }
    requires lead { AreBelow (2 ^ 30) lead.now }
    requires q { unsigned_abs q.now < 2 ^ 30 }
    requires places { ArePlaces lead.now places.now }
    requires known { (d : ℕ)
        → ((k : ℕ) → d ∣ unsigned_abs ((pos 1 *ℤ entry row.old k) -ℤ (q.now *ℤ entry lead.now k)))
        → d ∣ unsigned_abs known.now }
    requires known_some { pos 1 ≤ℤ known.now }
    requires known_small { unsigned_abs known.now < WIDE_ENTRY }
    ensures combined { IsCombined (pos 1) q.now row.old lead.now row.new }
    ensures small { AreSmall row.new }
    ensures low { IsTrue result → AreBelow (2 ^ 30) row.new }
    ensures short { IsTrue short.new → IsTrue short.old × AreBelow (2 ^ 14) row.new }
{
    let low = take_places(row, short, lead, places, q);
    if *known == 1 {
        return low;
    }
    let low = make_primitive(row, known);
    look_again(short, row);
    low || are_low(row)
}

// The same with any factor of the row.
fn change_all(row: &mut [i64], lead: &[i64], p: &i64, q: &i64, known: &i64) -> bool
    requires lead_count { length lead.now ≡ length row.old }
    requires row { AreBelow (2 ^ 30) row.old }
    requires lead { AreBelow (2 ^ 30) lead.now }
    requires p { unsigned_abs p.now < 2 ^ 30 }
    requires q { unsigned_abs q.now < 2 ^ 30 }
    requires known { (d : ℕ)
        → ((k : ℕ) → d ∣ unsigned_abs ((p.now *ℤ entry row.old k) -ℤ (q.now *ℤ entry lead.now k)))
        → d ∣ unsigned_abs known.now }
    requires known_some { pos 1 ≤ℤ known.now }
    requires known_small { unsigned_abs known.now < WIDE_ENTRY }
    ensures combined { IsCombined p.now q.now row.old lead.now row.new }
    ensures small { AreSmall row.new }
    ensures low { IsTrue result → AreBelow (2 ^ 30) row.new }
{
    low_differences(row, lead, p, q);
    make_primitive(row, known) || are_low(row)
}

// The primitive difference of two rows of low entries, each times a factor, in place of the first. `short` stays only if the entries are short, too.
fn change_low(
    row: &mut [i64],
    short: &mut bool,
    lead: &[i64],
    places: &[usize],
    p: &i64,
    q: &i64,
    known: &i64,
) -> bool
    requires few { length row.old ≤ 2 ^ 20 }
    requires lead_count { length lead.now ≡ length row.old }
    requires short { IsTrue short.old → AreBelow (2 ^ 14) row.old }
    requires row { AreBelow (2 ^ 30) row.old }
    requires lead { AreBelow (2 ^ 30) lead.now }
    requires p { unsigned_abs p.now < 2 ^ 30 }
    requires q { unsigned_abs q.now < 2 ^ 30 }
    requires places { ArePlaces lead.now places.now }
    requires known { (d : ℕ)
        → ((k : ℕ) → d ∣ unsigned_abs ((p.now *ℤ entry row.old k) -ℤ (q.now *ℤ entry lead.now k)))
        → d ∣ unsigned_abs known.now }
    requires known_some { pos 1 ≤ℤ known.now }
    requires known_small { unsigned_abs known.now < WIDE_ENTRY }
    ensures combined { IsCombined p.now q.now row.old lead.now row.new }
    ensures small { AreSmall row.new }
    ensures low { IsTrue result → AreBelow (2 ^ 30) row.new }
    ensures short { IsTrue short.new → IsTrue short.old × AreBelow (2 ^ 14) row.new }
{
    if *p == 1 {
        return change_few(row, short, lead, places, q, known);
    }
    let low = change_all(row, lead, p, q, known);
    look_again(short, row);
    low
}

// The primitive difference of two rows of short entries, each times a factor, in place of the first. If the answer is no, the row stays.
fn change_if_short(
    row: &mut [i64],
    lead: &Lead,
    p: &i64,
    q: &i64,
    known: &i64,
    work: &mut [i32],
) -> bool
    requires lead_count { length lead.now.entries.now ≡ length row.old }
    requires work_count { length work.old ≡ length row.old }
    requires short { IsTrue lead.now.short → (lead.now.narrow.now ≡ lead.now.entries.now)
        × AreBelow (2 ^ 14) lead.now.entries.now × AreBelow (2 ^ 14) row.old }
    requires known { (d : ℕ)
        → ((k : ℕ) → d ∣ unsigned_abs
        ((p.now *ℤ entry row.old k) -ℤ (q.now *ℤ entry lead.now.entries.now k)))
        → d ∣ unsigned_abs known.now }
    requires known_some { pos 1 ≤ℤ known.now }
    ensures combined { IsTrue result
        → IsCombined p.now q.now row.old lead.now.entries.now row.new }
    ensures short { IsTrue result → AreBelow (2 ^ 14) row.new }
    ensures same { result ≡ false → row.new ≡ row.old }
{
    if !lead.short {
        return false;
    }
    if !is_short(p) || !is_short(q) || !is_short(known) {
        return false;
    }
    change_short(row, lead.narrow, &narrow(p), &narrow(q), known, work)
}

// The same, by numbers of 32 bits if that can be.
fn change(
    row: &mut [i64],
    short: &mut bool,
    lead: &Lead,
    p: &i64,
    q: &i64,
    known: &i64,
    work: &mut [i32],
) -> bool
    requires few { length row.old ≤ 2 ^ 20 }
    requires lead_count { length lead.now.entries.now ≡ length row.old }
    requires work_count { length work.old ≡ length row.old }
    requires short { IsTrue lead.now.short → (lead.now.narrow.now ≡ lead.now.entries.now)
        × AreBelow (2 ^ 14) lead.now.entries.now × AreBelow (2 ^ 14) row.old }
    requires short_row { IsTrue short.old → AreBelow (2 ^ 14) row.old }
    requires row { AreBelow (2 ^ 30) row.old }
    requires lead { AreBelow (2 ^ 30) lead.now.entries.now }
    requires p { unsigned_abs p.now < 2 ^ 30 }
    requires q { unsigned_abs q.now < 2 ^ 30 }
    requires places { ArePlaces lead.now.entries.now lead.now.places.now }
    requires known { (d : ℕ)
        → ((k : ℕ) → d ∣ unsigned_abs
        ((p.now *ℤ entry row.old k) -ℤ (q.now *ℤ entry lead.now.entries.now k)))
        → d ∣ unsigned_abs known.now }
    requires known_some { pos 1 ≤ℤ known.now }
    requires known_small { unsigned_abs known.now < WIDE_ENTRY }
    ensures combined { IsCombined p.now q.now row.old lead.now.entries.now row.new }
    ensures small { AreSmall row.new }
    ensures low { IsTrue result → AreBelow (2 ^ 30) row.new }
    ensures short { IsTrue short.new → IsTrue short.old × AreBelow (2 ^ 14) row.new }
{
    if change_if_short(row, lead, p, q, known, work) {
        return true;
    }
    change_low(row, short, lead.entries, lead.places, p, q, known)
}

// The new row of a row of low entries, in its place. `short` stays only if its entries are short.
fn new_low_row(row: &mut [i64], short: &mut bool, lead: &Lead, work: &mut [i32]) -> bool
    requires few { length row.old ≤ 2 ^ 20 }
    requires place { lead.now.slot + 1 < length row.old }
    requires lead_count { length lead.now.entries.now ≡ length row.old }
    requires work_count { length work.old ≡ length row.old }
    requires short { IsTrue lead.now.short → (lead.now.narrow.now ≡ lead.now.entries.now)
        × AreBelow (2 ^ 14) lead.now.entries.now × AreBelow (2 ^ 14) row.old }
    requires short_row { IsTrue short.old → AreBelow (2 ^ 14) row.old }
    requires row { AreBelow (2 ^ 30) row.old }
    requires lead { AreBelow (2 ^ 30) lead.now.entries.now }
    requires places { ArePlaces lead.now.entries.now lead.now.places.now }
    requires lead_last { entry lead.now.entries.now (length row.old - 1) ≡ pos 0 }
    requires lead_primitive { IsContent
        (slice_set lead.now.entries.now (length row.old - 1) lead.now.own.now) 1 }
    requires p { unsigned_abs lead.now.own.now < 2 ^ 30 }
    requires p_some { pos 1 ≤ℤ lead.now.own.now }
    requires den_some { pos 1 ≤ℤ entry row.old (length row.old - 1) }
    requires primitive { IsContent row.old 1 }
    ensures new { IsNewRow (length row.old - 1) lead.now.slot row.old
        (slice_set lead.now.entries.now (length row.old - 1) lead.now.own.now) row.new }
    ensures small { AreSmall row.new }
    ensures low { IsTrue result → AreBelow (2 ^ 30) row.new }
    ensures short { IsTrue short.new → IsTrue short.old × AreBelow (2 ^ 14) row.new }
{
    let c = lead.slot;
    let p = lead.own;
    let q = row[c];
    if q == 0 {
        return true;
    }
    let t = common(&q, p);
    let mine = over(p, &t);
    let other = over(&q, &t);
    // With no common divisor of the factors, what divides the difference divides both of these.
    let known = common(&lead.entries[c], &row[row.len() - 1]);
    row[c] = 0;
    change(row, short, lead, &mine, &other, &known, work)
}

// Row i becomes its new row, if it is not that of the entering coordinate.
fn change_row(rows: &mut [i64], short: &mut bool, i: usize, lead: &Lead, work: &mut [i32]) -> bool
    requires few { length rows.old ≤ 2 ^ 20 }
    requires work_count { length work.old ≡ length lead.now.entries.now }
    requires short { IsTrue lead.now.short → (lead.now.narrow.now ≡ lead.now.entries.now)
        × AreBelow (2 ^ 14) lead.now.entries.now
        × AreBelow (2 ^ 14) (row_at (length lead.now.entries.now) rows.old i) }
    requires short_row { IsTrue short.old
        → AreBelow (2 ^ 14) (row_at (length lead.now.entries.now) rows.old i) }
    requires inside { i * length lead.now.entries.now + length lead.now.entries.now ≤ length
        rows.old }
    requires place { lead.now.slot + 1 < length lead.now.entries.now }
    requires row { IsKeptRow (length lead.now.entries.now)
        (row_at (length lead.now.entries.now) rows.old i) }
    requires low_row { AreBelow (2 ^ 30) (row_at (length lead.now.entries.now) rows.old i) }
    requires lead { AreBelow (2 ^ 30) lead.now.entries.now }
    requires places { ArePlaces lead.now.entries.now lead.now.places.now }
    requires lead_last { entry lead.now.entries.now (length lead.now.entries.now - 1) ≡ pos 0 }
    requires lead_primitive { IsContent
        (slice_set lead.now.entries.now (length lead.now.entries.now - 1) lead.now.own.now) 1 }
    requires own { unsigned_abs lead.now.own.now < 2 ^ 30 }
    requires own_some { pos 1 ≤ℤ lead.now.own.now }
    ensures changed { i ≢ lead.now.row
        → IsRowChanged (length lead.now.entries.now) lead.now.slot i rows.old
        (slice_set lead.now.entries.now (length lead.now.entries.now - 1) lead.now.own.now)
        rows.new }
    ensures low { IsTrue result → i ≢ lead.now.row
        → AreBelow (2 ^ 30) (row_at (length lead.now.entries.now) rows.new i) }
    ensures short { IsTrue short.new → IsTrue short.old
        × (i ≢ lead.now.row
        → AreBelow (2 ^ 14) (row_at (length lead.now.entries.now) rows.new i)) }
    ensures others { (j : ℕ) → j ≢ i
        → row_at (length lead.now.entries.now) rows.new j ≡ row_at (length lead.now.entries.now)
        rows.old j }
{
    if i == lead.row {
        return true;
    }
    let w = lead.entries.len();
    let (_, rest) = rows.split_at_mut(i * w);
    let (row, _) = rest.split_at_mut(w);
    new_low_row(row, short, lead, work)
}

// Each row but that of the entering coordinate becomes its new row. The answer is whether all their entries are low.
fn change_rows(rows: &mut [i64], short: &mut bool, m: usize, lead: &Lead, work: &mut [i32]) -> bool
    requires few { length rows.old ≤ 2 ^ 20 }
    requires work_count { length work.old ≡ length lead.now.entries.now }
    requires short { IsTrue lead.now.short → (lead.now.narrow.now ≡ lead.now.entries.now)
        × AreBelow (2 ^ 14) lead.now.entries.now
        × AreRowsBelow (2 ^ 14) (length lead.now.entries.now) m rows.old }
    requires short_rows { IsTrue short.old
        → AreRowsBelow (2 ^ 14) (length lead.now.entries.now) m rows.old }
    requires count { length rows.old ≡ m * length lead.now.entries.now }
    requires place { lead.now.slot + 1 < length lead.now.entries.now }
    requires row { (i : ℕ) → i < m
        → IsKeptRow (length lead.now.entries.now)
        (row_at (length lead.now.entries.now) rows.old i) }
    requires low_rows { AreRowsBelow (2 ^ 30) (length lead.now.entries.now) m rows.old }
    requires lead { AreBelow (2 ^ 30) lead.now.entries.now }
    requires places { ArePlaces lead.now.entries.now lead.now.places.now }
    requires lead_last { entry lead.now.entries.now (length lead.now.entries.now - 1) ≡ pos 0 }
    requires lead_primitive { IsContent
        (slice_set lead.now.entries.now (length lead.now.entries.now - 1) lead.now.own.now) 1 }
    requires own { unsigned_abs lead.now.own.now < 2 ^ 30 }
    requires own_some { pos 1 ≤ℤ lead.now.own.now }
    ensures changed { (i : ℕ) → i < m → i ≢ lead.now.row
        → IsRowChanged (length lead.now.entries.now) lead.now.slot i rows.old
        (slice_set lead.now.entries.now (length lead.now.entries.now - 1) lead.now.own.now)
        rows.new }
    ensures low { IsTrue result → (i : ℕ) → i < m → i ≢ lead.now.row
        → AreBelow (2 ^ 30) (row_at (length lead.now.entries.now) rows.new i) }
    ensures short { IsTrue short.new → IsTrue short.old
        × ((i : ℕ) → i < m → i ≢ lead.now.row
        → AreBelow (2 ^ 14) (row_at (length lead.now.entries.now) rows.new i)) }
{
    let mut low = true;
    for i in 0..m {
        low = both(low, change_row(rows, short, i, lead, work));
    }
    low
}

// The rows after an exchange, if all entries are low. The answer is whether they all still are.
pub(crate) fn changed_rows(
    rows: &mut [i64],
    short: &mut bool,
    pivot: Pivot,
    lead: &mut [i64],
    places: &mut Vec<usize>,
    narrow_lead: &mut [i32],
    work: &mut [i32],
) -> bool
    requires few { length rows.old ≤ 2 ^ 20 }
    requires count { length rows.old ≡ pivot.rows * length lead.old }
    requires place { pivot.slot + 1 < length lead.old }
    requires inside { pivot.row < pivot.rows }
    requires room { length lead.old ≤ vec_capacity places.old }
    requires row { (i : ℕ) → i < pivot.rows
        → IsKeptRow (length lead.old) (row_at (length lead.old) rows.old i) }
    requires low_rows { AreRowsBelow (2 ^ 30) (length lead.old) pivot.rows rows.old }
    requires short_rows { IsTrue short.old
        → AreRowsBelow (2 ^ 14) (length lead.old) pivot.rows rows.old }
    requires narrow_count { length narrow_lead.old ≡ length lead.old }
    requires narrow_work { length work.old ≡ length lead.old }
    requires some { entry (row_at (length lead.old) rows.old pivot.row) pivot.slot ≢ pos 0 }
    ensures filled { (order : List ℕ) → AreFilled (length lead.old) pivot.rows pivot.slot pivot.row
        rows.old rows.new order (length order) }
    ensures low { IsTrue result → AreRowsBelow (2 ^ 30) (length lead.old) pivot.rows rows.new }
    ensures short { IsTrue short.new → AreRowsBelow (2 ^ 14) (length lead.old) pivot.rows rows.new }
    ensures room { vec_capacity places.new ≡ vec_capacity places.old }
{
    make_lead(rows, pivot.row, pivot.slot, lead);
    let last = lead.len() - 1;
    let p = lead[last];
    lead[last] = 0;
    put_places(places, lead);
    let by_narrow = is_narrow(short, rows, places.len(), lead.len());
    put_narrow_if(by_narrow, lead, narrow_lead);
    let made = Lead {
        row: pivot.row,
        slot: pivot.slot,
        own: &p,
        entries: lead,
        places,
        low: true,
        short: by_narrow,
        narrow: narrow_lead,
    };
    let low = change_rows(rows, short, pivot.rows, &made, work);
    lead[last] = p;
    put_lead(rows, pivot.row, lead);
    low
}
