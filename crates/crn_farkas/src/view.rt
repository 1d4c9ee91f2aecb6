/// Which elementary vector of a tableau is looked at for the goal, a coordinate g that has to be positive or negative. It is read by
/// signs from the kept rows, and its numbers are not formed.
#[derive(Clone, Copy, Debug, PartialEq, Eq)]
pub enum View {
    /// The vector that the basis names by g, which is outside it.
    Row,
    /// The vector that the basis names by this member.
    Column(usize),
}
