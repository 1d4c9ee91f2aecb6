ghost use Rattle.std.specs.Prelude.{◌≡◌};

use crn_vec::{NoMemory, Nums};

/// Why a system is not decided.
#[derive(Drop)]
pub enum Stop {
    /// A coordinate and a basis of the matrix name a vector that exceeds the bound.
    Wide {
        /// The coordinate, counted from 1.
        index: u32,
        /// The coordinates of the basis, ascending and counted from 1, while `Solver::basis` counts from 0.
        basis: Nums,
    },
    NoMemory,
}

impl From<NoMemory> for Stop {
    ghost use Rattle.crn_farkas.specs.declared.fault.Stop.{Stop};

    ghost from_gives = { λ _ e. e ≡ Stop.NoMemory };

    fn from(_: NoMemory) -> Stop {
        Stop::NoMemory
    }
}
