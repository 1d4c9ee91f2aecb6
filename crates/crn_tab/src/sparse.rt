ghost use Rattle.std.specs.Prelude.{◌≡◌, ◌≤◌, ◌<◌, ◌^◌, ℕ, pos, ◌≤ℤ◌, ◌-ℤ◌, ◌*ℤ◌, length, unsigned_abs, neg_ℤ, IsTrue};
ghost use Rattle.std.specs.Int.{◌∣◌};
ghost use Rattle.crn_vec.specs.Vectors.{entry};
ghost use Rattle.crn_tab.specs.Inner.Rows.{AreBelow, ArePlaces, IsCombined, put};
ghost use Rattle.crn_tab.specs.Tableau.{AreSmall};

use crate::lead::Lead;
use crate::low::{is_low, make_primitive};
use crn_vec::WIDE_ENTRY;

// The bound of an entry, in 64 bits.
const WIDE: i64 = 1 << 62;

// Whether the absolute value is below the bound of an entry.
fn is_entry(x: &i64) -> bool
    ensures { IsTrue result → unsigned_abs x.now < WIDE_ENTRY }
{
    -WIDE < *x && *x < WIDE
}

// An entry less a low multiple of a low one.
fn less(x: &i64, q: &i64, y: &i64) -> i64
    requires x { unsigned_abs x.now < WIDE_ENTRY }
    requires q { unsigned_abs q.now < 2 ^ 30 }
    requires y { unsigned_abs y.now < 2 ^ 30 }
    ensures { result ≡ x.now -ℤ (q.now *ℤ y.now) }
{
    *x - *q * *y
}

// The negative of a low multiple of a low entry.
fn negative_times(q: &i64, y: &i64) -> i64
    requires q { unsigned_abs q.now < 2 ^ 30 }
    requires y { unsigned_abs y.now < 2 ^ 30 }
    ensures value { result ≡ neg_ℤ (q.now *ℤ y.now) }
    ensures small { unsigned_abs result < WIDE_ENTRY }
{
    -(*q * *y)
}

// A row less a low multiple of the lead, into a copy of the row: what it has where the lead is 0 stays.
// The answer is no if an entry exceeds the bound, and then the copy holds nothing of use.
fn put_differences(row: &[i64], lead: &[i64], places: &[usize], q: &i64, into: &mut [i64]) -> bool
    requires few { length row.now ≤ 2 ^ 20 }
    requires lead_count { length lead.now ≡ length row.now }
    requires into { into.old ≡ row.now }
    requires row { AreSmall row.now }
    requires lead { AreBelow (2 ^ 30) lead.now }
    requires q { unsigned_abs q.now < 2 ^ 30 }
    requires places { ArePlaces lead.now places.now }
    ensures value { IsTrue result → (k : ℕ)
        → entry into.new k ≡ entry row.now k -ℤ (q.now *ℤ entry lead.now k) }
    ensures small { IsTrue result → AreSmall into.new }
{
    for s in 0..places.len() {
        let k = places[s];
        let x = less(&row[k], q, &lead[k]);
        if !is_entry(&x) {
            return false;
        }
        into[k] = x;
    }
    true
}

// The primitive difference of a row without its entry at the lead's slot and a low multiple of the lead, into a list of its length, if the row itself has the factor 1.
// It goes over the places of the lead, so a lead with few makes few steps. If the answer is no, the list holds nothing of use.
pub(crate) fn combine_sparse(
    row: &[i64],
    lead: &Lead,
    p: &i64,
    q: &i64,
    known: &i64,
    into: &mut [i64],
) -> bool
    requires few { length row.now ≤ 2 ^ 20 }
    requires lead_count { length lead.now.entries.now ≡ length row.now }
    requires into_count { length into.old ≡ length row.now }
    requires place { lead.now.slot < length row.now }
    requires row { AreSmall row.now }
    requires low { IsTrue lead.now.low → AreBelow (2 ^ 30) lead.now.entries.now }
    requires places { ArePlaces lead.now.entries.now lead.now.places.now }
    requires p { unsigned_abs p.now < WIDE_ENTRY }
    requires known { (d : ℕ)
        → ((k : ℕ) → d ∣ unsigned_abs ((p.now *ℤ entry (put row.now lead.now.slot (pos 0)) k)
        -ℤ (q.now *ℤ entry lead.now.entries.now k)))
        → d ∣ unsigned_abs known.now }
    requires known_some { pos 1 ≤ℤ known.now }
    requires known_small { unsigned_abs known.now < WIDE_ENTRY }
    ensures combined { IsTrue result
        → IsCombined p.now q.now (put row.now lead.now.slot (pos 0)) lead.now.entries.now into.new }
    ensures small { IsTrue result → AreSmall into.new }
{
    if *p != 1 || !lead.low || !is_low(q) {
        return false;
    }
    into.copy_from_slice(row);
    if !put_differences(row, lead.entries, lead.places, q, into) {
        return false;
    }
    into[lead.slot] = negative_times(q, &lead.entries[lead.slot]);
    make_primitive(into, known);
    true
}
