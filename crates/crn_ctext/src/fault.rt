ghost use Rattle.std.specs.Prelude.{◌≡◌};
ghost use Rattle.crn_ctext.specs.Expect.{code_of};

/// Why a line is not the record that is due.
#[derive(Clone, Copy, Debug, PartialEq, Eq)]
pub enum DocCode {
    /// The line begins with no word of the document's version.
    UnknownWord,
    /// A field is missing, there are too many, or one is not spelled or ranged as it has to be.
    BadField,
    /// A free number is too great.
    NumberWide,
    /// The word is not the one that is due.
    WrongOrder,
    /// A node of a tree is due, and the word is not one of a node.
    TreeEndsEarly,
    /// The line before ended a tree, and the word is one of a node.
    TreeGoesOn,
}

impl DocCode {
    /// The number under which the fault is reported.
    pub fn number(self) -> u32
        ensures { result ≡ code_of self }
    {
        match self {
            DocCode::UnknownWord => 23,
            DocCode::BadField => 24,
            DocCode::NumberWide => 25,
            DocCode::WrongOrder => 26,
            DocCode::TreeEndsEarly => 43,
            DocCode::TreeGoesOn => 44,
        }
    }
}
