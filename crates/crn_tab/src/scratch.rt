ghost use Rattle.std.specs.Prelude.{◌≡◌, IfOk};

use crn_vec::NoMemory;
use std::alloc::Global;
use std::marker::Model;

/// The memory that an exchange works in: lists as long as a row.
#[derive(Drop)]
pub(crate) struct Scratch {
    /// The row of the entering coordinate in its new places.
    pub lead: Vec<i64>,
    /// Where it is not 0.
    pub places: Vec<usize>,
    /// A new row before its division.
    pub work: Vec<i128>,
    /// The same two if all entries are short.
    pub narrow_lead: Vec<i32>,
    pub narrow_work: Vec<i32>,
}

impl Model for Scratch {
    ghost use Rattle.std.specs.Prelude.{ℕ, length, vec_capacity};
    ghost use Rattle.crn_tab.specs.Inner.Rows.{IsScratch};

    ghost Value = { ℕ };

    ghost view = { λ s. length s.lead.items };

    ghost invariant = { λ s. IsScratch (length s.lead.items) (vec_capacity s.places) s.work.items
        s.narrow_lead.items s.narrow_work.items };
}

impl Scratch {
    // What an exchange of rows of this many entries needs.
    pub(crate) fn new(alloc: Global, entries: usize) -> Result<Scratch, NoMemory>
        ensures { IfOk result (λ made. made ≡ entries) }
    {
        Ok(Scratch {
            lead: vec![in alloc; 0i64; entries]?,
            places: Vec::with_capacity(alloc, entries)?,
            work: vec![in alloc; 0i128; entries]?,
            narrow_lead: vec![in alloc; 0i32; entries]?,
            narrow_work: vec![in alloc; 0i32; entries]?,
        })
    }
}
