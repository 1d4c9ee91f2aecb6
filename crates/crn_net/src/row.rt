ghost use Rattle.std.specs.Prelude.{◌≡◌, ◌<◌, ◌≤◌, pos, ◌+ℤ◌, ◌≤ℤ◌, replicate, slice_index_or, slice_set, take};
ghost use Rattle.std.specs.Ordering.{int_eq};
ghost use Rattle.std.proofs.Common.{ap};
ghost use Rattle.std.specs.Cmp.{partial_equiv_from_equiv, int_eq_equiv};
ghost use Rattle.std.specs.Cmp.Lexicographic.{pointwise, lists_equiv};
ghost use Rattle.std.specs.Cmp.Rules.{signed_items};
ghost use Rattle.crn_net.specs.Inner.Rows.{fed_by};

use crate::same::are_same;
use crn_vec::{MAX_AMOUNT, MAX_SPECIES};
use indexmap::IndexSet;
use std::hash::{Hash, Hasher};
use std::marker::Model;

// A number for each species, and 0 at the places past the last species: the amounts of a complex, or the vector of a
// reaction.
pub(crate) type Row = [i128; MAX_SPECIES];

// The amounts of a complex while a network is built. One byte holds an amount, so rows are fast to compare and to hash.
// Equal rows have the same mark, whatever the order in which their terms came.
#[derive(Drop)]
pub(crate) struct Amounts {
    row: [u8; MAX_SPECIES],
    mark: usize,
}

// The amounts of the complexes, each once, in the order in which they were inserted.
pub(crate) type Complexes = IndexSet<Amounts>;

impl Model for Amounts {
    ghost use Rattle.std.specs.Prelude.{ℤ, pos, List, map};

    ghost Value = { List ℤ };

    ghost view = { λ a. map pos a.row };
}

// What one of the species at a place adds to the mark of a row.
fn weight(place: usize) -> usize {
    let odd = place.wrapping_mul(2).wrapping_add(1);
    odd.wrapping_mul(odd).wrapping_mul(odd)
}

impl Amounts {
    pub(crate) fn zeros() -> Amounts
        ensures { result ≡ replicate MAX_SPECIES (pos 0) }
    {
        Amounts {
            row: [0; MAX_SPECIES],
            mark: 0,
        }
    }

    // A number that other rows seldom share.
    pub(crate) fn mark(&self) -> usize {
        self.mark
    }

    // Adds to the amount at a place.
    pub(crate) fn add(&mut self, place: usize, count: u32)
        requires place { place < MAX_SPECIES }
        requires small { (slice_index_or self.old place (pos 0) +ℤ pos count) ≤ℤ pos MAX_AMOUNT }
        ensures { let sum = slice_index_or self.old place (pos 0) +ℤ pos count in
            self.new ≡ slice_set self.old place sum }
    {
        let sum = u32::from(self.row[place]) + count;
        self.row[place] = sum as u8;
        self.mark = self
            .mark
            .wrapping_add(weight(place).wrapping_mul(count as usize));
    }

    // Puts the amounts of this many species into a row, in numbers as large as a network's vectors have them.
    pub(crate) fn put_row(&self, species: usize, row: &mut Row)
        requires { species ≤ MAX_SPECIES }
        ensures { take species row.new ≡ take species self.now }
    {
        for s in 0..species {
            row[s] = i128::from(self.row[s]);
        }
    }
}

impl PartialEq for Amounts {
    ghost eq = { pointwise int_eq };

    ghost laws = { partial_equiv_from_equiv (lists_equiv int_eq_equiv) };

    fn eq(&self, other: &Amounts) -> bool {
        are_same(&self.row, &other.row)
    }
}

impl Eq for Amounts {
    ghost laws = { lists_equiv int_eq_equiv };
}

impl Hash for Amounts {
    ghost hash_input = { fed_by };

    ghost respects_eq = { λ x y h. ap fed_by ((signed_items x y).0 h) };

    fn hash<H: Hasher>(&self, state: &mut H) {
        state.write(&self.row);
    }
}
