ghost use Rattle.std.specs.Prelude.{◌≡◌, ◌<◌, [], ◌∷◌, ◌++◌, length, slice_index_or, OnOk, OnErr, IfOk};

use crn_vec::{Ints, NoMemory};
use std::alloc::Global;
use std::marker::Model;

/// A list of lists of signed numbers. Contracts see it as such.
#[derive(Drop)]
pub struct Rows {
    items: Vec<Ints>,
}

impl Model for Rows {
    ghost use Rattle.std.specs.Prelude.{List, ℤ, map};
    ghost use Rattle.crn_vec.specs.Kept.{KeptInts};

    ghost Value = { List (List ℤ) };

    ghost view = { λ s. map (λ (row : KeptInts). row.list) s.items.items };
}

impl Rows {
    /// An empty list.
    pub fn new(alloc: Global) -> Result<Rows, NoMemory>
        ensures { IfOk result (λ made. made ≡ []) }
    {
        Ok(Rows {
            items: Vec::new(alloc),
        })
    }

    /// Adds a row at the end. If it runs out of memory, the list is as before.
    pub fn push(&mut self, row: Ints) -> Result<(), NoMemory>
        ensures ok { OnOk result (self.new ≡ self.old ++ row.list ∷ []) }
        ensures err { OnErr result (self.new ≡ self.old) }
    {
        self.items.push(row)?;
        Ok(())
    }

    /// The number of rows.
    pub fn len(&self) -> usize
        ensures { result ≡ length self.now }
    {
        self.items.len()
    }

    /// Row `i`, counted from 0.
    pub fn row(&self, i: usize) -> &[i128]
        requires { i < length self.now }
        ensures { result.now ≡ slice_index_or self.now i [] }
    {
        self.items[i].as_slice()
    }
}
