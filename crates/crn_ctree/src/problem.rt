use crn_shape::Shape;

/// An influence table of a network.
#[derive(Clone, Copy, Debug, PartialEq, Eq)]
pub enum InfluenceTable {
    /// The plain one: a tree shows concordance.
    Plain,
    /// The strong one: a tree shows strong concordance.
    Strong,
}

/// The sign problem of a tree.
#[derive(Clone, Copy)]
pub enum Problem<'a> {
    /// Of an influence table.
    Concordance(InfluenceTable),
    /// Of the signals over a shape: a tree shows that there is none.
    Signals(&'a Shape<'a>),
}
