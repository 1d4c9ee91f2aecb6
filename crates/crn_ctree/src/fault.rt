ghost use Rattle.std.specs.Prelude.{◌≡◌};
ghost use Rattle.crn_ctree.specs.Gives.{code_of};

/// Why a tree is refused.
#[derive(Clone, Copy, Debug, PartialEq, Eq)]
pub enum TreeFault {
    /// The multipliers do not rule their part of the prefix out.
    BadLeaf,
    /// The prefix is full at a split, or not closed at a flat leaf.
    NodeNotAllowed,
    /// Some prefix is still due.
    TreeEndsEarly,
    /// The shared vector has another length than the multipliers of its part.
    WrongShape,
}

impl TreeFault {
    /// The number of the fault in formats.
    pub fn code(self) -> u32
        ensures { result ≡ code_of self }
    {
        match self {
            TreeFault::BadLeaf => 41,
            TreeFault::NodeNotAllowed => 42,
            TreeFault::TreeEndsEarly => 43,
            TreeFault::WrongShape => 46,
        }
    }
}
