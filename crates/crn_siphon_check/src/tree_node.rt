/// A node of a tree, without those below it.
#[derive(Clone, Copy)]
pub enum SiphonNode {
    /// The next species is in, or out: first comes the tree with it in, then that with it out.
    Fork,
    /// This reaction, counted from 1, excludes every siphon.
    Bad(u32),
    /// The law at this place of the tree's laws, counted from 0, is within every siphon.
    Law(usize),
    /// All species are out.
    Void,
}
