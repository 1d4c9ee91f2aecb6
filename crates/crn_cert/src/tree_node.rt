use crn_vec::Ints;
use std::rc::Rc;

/// A node of a tree, without those below it.
#[derive(Drop)]
pub enum TreeNode {
    /// A prefix of zeros, which has two children.
    SplitTwo,
    /// Any other prefix that is split, into three children.
    SplitThree,
    /// Multipliers that rule part A of the prefix out, one for each row. Leaves with the same list may share it.
    CutA(Rc<Ints>),
    /// Multipliers that rule part B of the prefix out, one for each row.
    CutB(Rc<Ints>),
    /// The prefix is closed.
    Flat,
}
