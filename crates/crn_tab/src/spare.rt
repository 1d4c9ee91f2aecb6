ghost use Rattle.std.specs.Prelude.{◌≡◌, ◌≢◌, ◌≤◌, ◌<◌, ◌^◌, ◌-◌, ◌*◌, ◌+◌, ℕ, pos, length, vec_capacity};
ghost use Rattle.crn_vec.specs.Vectors.{entry};
ghost use Rattle.crn_tab.specs.Slots.{row_at};
ghost use Rattle.crn_tab.specs.Inner.Rows.{AreCoordinates, AreFilled, IsKeptRow};

use crate::fill::{fill_rows, part};
use crate::lead::{Lead, Pivot, make_lead, put_lead, put_places};
use crate::low::are_low;

// Row i becomes that of the spare rows, if it has the leaving coordinate.
fn bring_row(rows: &mut [i64], spare: &[i64], i: usize, w: usize, c: usize)
    requires few { length rows.old ≤ 2 ^ 20 }
    requires same { length spare.now ≡ length rows.old }
    requires inside { i * w + w ≤ length rows.old }
    requires place { c < w }
    ensures changed { entry (row_at w rows.old i) c ≢ pos 0
        → row_at w rows.new i ≡ row_at w spare.now i }
    ensures same { entry (row_at w rows.old i) c ≡ pos 0
        → row_at w rows.new i ≡ row_at w rows.old i }
    ensures others { (j : ℕ) → j ≢ i → row_at w rows.new j ≡ row_at w rows.old j }
{
    if part(rows, i, w)[c] == 0 {
        return;
    }
    put_lead(rows, i, part(spare, i, w));
}

// Each row that has the leaving coordinate becomes that of the spare rows.
fn bring_rows(rows: &mut [i64], spare: &[i64], m: usize, w: usize, c: usize)
    requires few { length rows.old ≤ 2 ^ 20 }
    requires same { length spare.now ≡ length rows.old }
    requires count { length rows.old ≡ m * w }
    requires place { c < w }
    ensures changed { (i : ℕ) → i < m → entry (row_at w rows.old i) c ≢ pos 0
        → row_at w rows.new i ≡ row_at w spare.now i }
    ensures same { (i : ℕ) → i < m → entry (row_at w rows.old i) c ≡ pos 0
        → row_at w rows.new i ≡ row_at w rows.old i }
{
    for i in 0..m {
        bring_row(rows, spare, i, w, c);
    }
}

// The rows after an exchange. Those that don't have the leaving coordinate stay.
// The answer is the least coordinate whose new row is wide, and then the rows stay; or else the number of coordinates.
pub(crate) fn spare_rows(
    rows: &mut [i64],
    spare: &mut [i64],
    pivot: Pivot,
    order: &[usize],
    lead: &mut [i64],
    places: &mut Vec<usize>,
    work: &mut [i128],
) -> usize
    requires few { length rows.old ≤ 2 ^ 20 }
    requires count { length rows.old ≡ pivot.rows * length lead.old }
    requires same { length spare.old ≡ length rows.old }
    requires order { length order.now ≡ length lead.old - 1 + pivot.rows }
    requires order_below { AreCoordinates order.now }
    requires place { pivot.slot + 1 < length lead.old }
    requires inside { pivot.row < pivot.rows }
    requires room { length lead.old ≤ vec_capacity places.old }
    requires work_count { length work.old ≡ length lead.old }
    requires row { (i : ℕ) → i < pivot.rows
        → IsKeptRow (length lead.old) (row_at (length lead.old) rows.old i) }
    requires some { entry (row_at (length lead.old) rows.old pivot.row) pivot.slot ≢ pos 0 }
    ensures filled { AreFilled (length lead.old) pivot.rows pivot.slot pivot.row rows.old
        rows.new order.now result }
    ensures stay { result < length order.now → rows.new ≡ rows.old }
    ensures room { vec_capacity places.new ≡ vec_capacity places.old }
{
    make_lead(rows, pivot.row, pivot.slot, lead);
    let last = lead.len() - 1;
    let p = lead[last];
    lead[last] = 0;
    put_places(places, lead);
    let made = Lead {
        row: pivot.row,
        slot: pivot.slot,
        own: &p,
        entries: lead,
        places,
        low: are_low(lead),
        short: false,
        narrow: &[],
    };
    let least = fill_rows(rows, spare, pivot.rows, &made, order, work);
    if least < order.len() {
        return least;
    }
    lead[last] = p;
    bring_rows(rows, spare, pivot.rows, lead.len(), pivot.slot);
    put_lead(rows, pivot.row, lead);
    least
}
