/// What the structural hypotheses of Shinar and Feinberg (2010) say of a network. Species and complexes count from 1.
#[derive(Clone, Copy)]
pub enum Robust {
    /// They hold: the deficiency is 1, and two complexes of no terminal strong class differ at this species alone. It is the
    /// least such pair.
    Yes {
        species: u32,
        first: u32,
        second: u32,
    },
    /// They fail: the deficiency is this number, which is not 1.
    Number(u32),
    /// They fail: the deficiency is 1, and there is no such pair.
    None,
    /// They are open, because the rank is.
    Rests,
}
