ghost use Rattle.std.specs.Prelude.{◌≡◌};

use crn_vec::NoMemory;

/// A vector of an exchanged basis exceeds the bound of what a tableau keeps.
#[derive(Clone, Copy, Debug, PartialEq, Eq)]
pub struct Wide {
    /// Its coordinate, counted from 1.
    pub index: u32,
}

/// An exchange that was not made, as it would name a vector that exceeds the bound of what a tableau keeps.
#[derive(Clone, Copy, Debug, PartialEq, Eq)]
pub struct Refused {
    /// The member of the basis that was to leave.
    pub leave: usize,
    /// The coordinate that was to enter.
    pub enter: usize,
    /// The coordinate of the vector, counted from 1.
    pub index: u32,
}

/// Why a column vector is not given.
#[derive(Clone, Copy, Debug, PartialEq, Eq)]
pub enum ColumnStop {
    /// The vector exceeds the bound of what a tableau keeps.
    Wide,
    NoMemory,
}

impl From<NoMemory> for ColumnStop {
    ghost use Rattle.crn_tab.specs.declared.fault.ColumnStop.{ColumnStop};

    ghost from_gives = { λ _ e. e ≡ ColumnStop.NoMemory };

    fn from(_: NoMemory) -> ColumnStop {
        ColumnStop::NoMemory
    }
}
