ghost use Rattle.std.specs.Prelude.{◌≡◌, ◌≢◌, ◌≤◌, ◌<◌, ◌^◌, ◌-◌, ◌*◌, ◌+◌, ℕ, pos, length, IfOk};
ghost use Rattle.crn_vec.specs.Vectors.{entry};
ghost use Rattle.crn_tab.specs.Slots.{row_at};
ghost use Rattle.crn_tab.specs.Inner.Rows.{AreCoordinates, AreFilled, IsKeptRow};

use crate::change::changed_rows;
use crate::lead::Pivot;
use crate::low::all_low;
use crate::scratch::Scratch;
use crate::short::all_short;
use crate::spare::spare_rows;
use crn_vec::{NoMemory, set_length};
use std::marker::Model;

/// Rows of one length, one after another, and what is known of their entries.
#[derive(Drop)]
pub(crate) struct Rows {
    entries: Vec<i64>,
    /// That they are all low; `false` means that it is not known.
    low: bool,
    /// That they are all short; `false` means that it is not known.
    short: bool,
    /// Room for as many.
    spare: Vec<i64>,
}

impl Model for Rows {
    ghost use Rattle.std.specs.Prelude.{List, ℤ, vec_capacity};
    ghost use Rattle.crn_tab.specs.Inner.Rows.{AreCoordinates, AreRows};

    ghost Value = { List ℤ };

    ghost view = { λ s. s.entries.items };

    ghost invariant = { λ s. AreRows s.entries.items s.low s.short (vec_capacity s.spare) };
}

impl Rows {
    // These rows, with the memory that an exchange needs.
    pub(crate) fn new(entries: Vec<i64>) -> Result<Rows, NoMemory>
        ensures { IfOk result (λ made. made ≡ entries.items) }
    {
        let low = all_low(&entries);
        let short = all_short(&entries);
        let spare = Vec::with_capacity(*entries.allocator(), entries.len())?;
        Ok(Rows {
            entries,
            low,
            short,
            spare,
        })
    }

    // The same rows once more.
    pub(crate) fn copy(&self) -> Result<Rows, NoMemory>
        ensures { IfOk result (λ made. made ≡ self.now) }
    {
        let alloc = *self.entries.allocator();
        Ok(Rows {
            entries: Vec::from_slice(alloc, &self.entries)?,
            low: self.low,
            short: self.short,
            spare: Vec::with_capacity(alloc, self.entries.len())?,
        })
    }

    // Their entries.
    pub(crate) fn entries(&self) -> &[i64]
        ensures { result.now ≡ self.now }
    {
        &self.entries
    }

    // The rows after an exchange, made in place if all entries are low, and else by spare rows.
    // The answer is the least coordinate whose new row is wide, and then the rows stay; or else the number of coordinates.
    pub(crate) fn exchange(&mut self, pivot: Pivot, order: &[usize], scratch: &mut Scratch) -> usize
        requires few { length self.old ≤ 2 ^ 20 }
        requires count { length self.old ≡ pivot.rows * scratch.old }
        requires order { length order.now ≡ scratch.old - 1 + pivot.rows }
        requires order_below { AreCoordinates order.now }
        requires place { pivot.slot + 1 < scratch.old }
        requires inside { pivot.row < pivot.rows }
        requires row { (i : ℕ) → i < pivot.rows
            → IsKeptRow scratch.old (row_at scratch.old self.old i) }
        requires some { entry (row_at scratch.old self.old pivot.row) pivot.slot ≢ pos 0 }
        ensures filled { AreFilled scratch.old pivot.rows pivot.slot pivot.row self.old self.new
            order.now result }
        ensures stay { result < length order.now → self.new ≡ self.old }
        ensures long { length self.new ≡ length self.old }
        ensures scratch { scratch.new ≡ scratch.old }
    {
        if self.low {
            self.low = changed_rows(
                &mut self.entries,
                &mut self.short,
                pivot,
                &mut scratch.lead,
                &mut scratch.places,
                &mut scratch.narrow_lead,
                &mut scratch.narrow_work,
            );
            return order.len();
        }
        self.short = false;
        set_length(&mut self.spare, self.entries.len(), 0);
        let least = spare_rows(
            &mut self.entries,
            &mut self.spare,
            pivot,
            order,
            &mut scratch.lead,
            &mut scratch.places,
            &mut scratch.work,
        );
        self.low = all_low(&self.entries);
        least
    }
}
