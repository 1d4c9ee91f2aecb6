ghost use Rattle.std.specs.Prelude.{◌≡◌, ◌<◌, List, IsTrue};
ghost use Rattle.crn_vec.specs.Network.{Statement};
ghost use Rattle.crn_text.specs.Inner.Said.{says, AreIn, AreSaid};

use crate::token::TokenKind;

// How many arrows are remembered at most.
const SLOTS: usize = 16;

// 2^64 over the golden ratio, an odd number. The high bits of a product with it depend on all bits of the other factor.
const SPREAD: u64 = 0x9e37_79b9_7f4a_7c15;

/// An arrow, with the sides before and after it.
#[derive(Clone, Copy)]
pub(crate) struct Step<'a> {
    pub(crate) left: &'a [u8],
    pub(crate) kind: TokenKind,
    pub(crate) right: &'a [u8],
}

impl<'a> Step<'a> {
    pub(crate) fn new(left: &'a [u8], kind: TokenKind, right: &'a [u8]) -> Step<'a>
        ensures left { result.left.now ≡ left.now }
        ensures kind { result.kind ≡ kind }
        ensures right { result.right.now ≡ right.now }
    {
        Step { left, kind, right }
    }
}

/// Arrows of a line whose statements were added, each in the slot of its sides. A later one takes the slot of an
/// earlier one, so one that is not found here may have been read all the same.
#[derive(Drop)]
pub(crate) struct Said<'a> {
    pub(crate) steps: [Option<Step<'a>>; SLOTS],
}

// A number for a side, which few others of a line share: its length, its first byte and its last one.
fn mark(side: &[u8]) -> u64 {
    let length = side.len();
    if length == 0 {
        return 0;
    }
    let first = u64::from(side[0]);
    let last = u64::from(side[length - 1]);
    (length as u64)
        .wrapping_mul(256)
        .wrapping_add(first)
        .wrapping_mul(256)
        .wrapping_add(last)
}

// The slot of an arrow.
fn slot(step: &Step<'_>) -> usize
    ensures { result < SLOTS }
{
    let mark = mark(step.left)
        .wrapping_mul(SPREAD)
        .wrapping_add(mark(step.right))
        .wrapping_mul(SPREAD);
    (mark >> 60) as usize
}

// Whether two arrows are of one kind, between the same sides.
fn are_same(one: &Step<'_>, other: &Step<'_>) -> bool
    ensures { IsTrue result →
        says one.now.left.now one.now.kind one.now.right.now
        ≡ says other.now.left.now other.now.kind other.now.right.now }
{
    one.kind == other.kind && one.left == other.left && one.right == other.right
}

impl<'a> Said<'a> {
    /// Remembers no arrow.
    pub(crate) fn new() -> Said<'a>
        ensures { (ss : List Statement) → AreSaid ss result.steps }
    {
        Said {
            steps: [None; SLOTS],
        }
    }

    /// Whether the arrow is remembered.
    pub(crate) fn has(&self, step: &Step<'a>) -> bool
        ensures { (ss : List Statement) → AreSaid ss self.now.steps → IsTrue result →
            AreIn (says step.now.left.now step.now.kind step.now.right.now) ss }
    {
        match &self.steps[slot(step)] {
            Some(known) => are_same(step, known),
            None => false,
        }
    }

    /// Remembers an arrow.
    pub(crate) fn put(&mut self, step: &Step<'a>)
        ensures { (ss : List Statement) → AreSaid ss self.old.steps →
            AreIn (says step.now.left.now step.now.kind step.now.right.now) ss →
            AreSaid ss self.new.steps }
    {
        self.steps[slot(step)] = Some(*step);
    }
}
