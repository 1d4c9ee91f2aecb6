ghost use Rattle.std.specs.Prelude.{◌≡◌};

use crn_vec::{NoMemory, Nums};

/// Why a search stopped without an end.
#[derive(Drop)]
pub enum SearchStop {
    /// A coordinate and a basis name a wide vector of part A's matrix.
    WideA {
        /// The coordinate, counted from 1.
        index: u32,
        /// The coordinates of the basis, ascending and counted from 1.
        basis: Nums,
    },
    /// A coordinate and a basis name a wide vector of part B's matrix.
    WideB {
        /// The coordinate, counted from 1.
        index: u32,
        /// The coordinates of the basis, ascending and counted from 1.
        basis: Nums,
        /// Whether its system was the first of part B that was left to the solver.
        ///
        /// The solver then began at the basis with which it was handed in, and nothing was kept for it.
        is_first: bool,
    },
    NoMemory,
}

impl From<NoMemory> for SearchStop {
    ghost use Rattle.crn_sign.specs.declared.fault.SearchStop.{SearchStop};

    ghost from_gives = { λ _ stop. stop ≡ SearchStop.NoMemory };

    fn from(_: NoMemory) -> SearchStop {
        SearchStop::NoMemory
    }
}
