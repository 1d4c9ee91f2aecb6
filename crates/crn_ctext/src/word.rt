ghost use Rattle.std.specs.Prelude.{◌≡◌};
ghost use Rattle.crn_ctext.specs.Expect.{text_of};

use crate::kinds::kinds;

/// The kind of a record of a document: one for each word that begins a line. The last five are those of version 2.
#[derive(Clone, Copy, Debug, PartialEq, Eq)]
pub enum Word {
    Q1,
    Q2,
    Q3,
    Q4,
    Q5,
    Q6,
    Q7,
    Q8,
    Q9,
    Q10,
    Q11,
    Q12,
    Q13,
    Q14,
    Q15,
    Label,
    Up,
    Depth,
    From,
    To,
    FromDepth,
    ToDepth,
    Level,
    Exit,
    Back,
    Base,
    Dual,
    Comb,
    Vec,
    Cut,
    Side,
    Walk,
    Tie,
    Shelves,
    Mu,
    M,
    Weights,
    Alpha,
    Split,
    Flat,
    CutA,
    CutB,
    End,
    Vectors,
    Vector,
    Section,
    RefA,
    RefB,
}

impl Word {
    /// The word that begins a line of this kind.
    pub fn text(self) -> &'static [u8]
        ensures { result.now ≡ text_of self }
    {
        kinds!(text self)
    }
}
