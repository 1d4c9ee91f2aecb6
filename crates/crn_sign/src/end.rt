use crate::signs::Signs;
use crn_cert::Tree;
use crn_vec::Ints;

/// How a search ended.
#[derive(Drop)]
pub enum SearchEnd {
    /// The first full feasible prefix, with solutions of both its parts.
    Found {
        /// The options of the prefix.
        pattern: Signs,
        /// Numbers of the columns of part A's matrix.
        a: Ints,
        /// Numbers of the columns of part B's matrix.
        b: Ints,
    },
    /// A tree that shows that no full prefix is feasible.
    Refuted(Tree),
    /// No full prefix is feasible, and no tree is kept.
    Infeasible,
    /// The visits exceed the budget.
    Spent,
}
