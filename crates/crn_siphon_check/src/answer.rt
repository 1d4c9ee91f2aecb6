use crate::tree::SiphonTree;
use crn_vec::{Ints, Nums};

/// The answer to the question whether a network is persistent by its siphons.
#[derive(Drop)]
pub enum Persist {
    /// A law with positive weights, and a tree that shows that each siphon contains the species of a law.
    Yes {
        law: Ints,
        tree: SiphonTree,
    },
    /// Numbers, one for each reaction, that exclude every law with positive weights.
    NoLaw {
        cut: Ints,
    },
    /// A siphon by marks, 1 for each member and 0 for the others, and numbers, one for each reaction, whose combination increases
    /// each member.
    NoSiphon {
        marks: Ints,
        cover: Ints,
    },
    /// System 1 or 2 is wide at this coordinate and basis, counted from 1.
    Wide {
        system: u32,
        index: u32,
        basis: Nums,
    },
    /// The visits exceed this budget.
    Spent {
        nodes: u32,
    },
}

/// What a document says of persistence.
#[derive(Clone, Copy, Debug, PartialEq, Eq)]
pub enum Outcome {
    Yes,
    No,
    Undecided,
}
