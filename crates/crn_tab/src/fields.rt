use crn_vec::Matrix;

/// What a tableau keeps, to be read: its matrix, the slot of each coordinate and the coordinate at each slot, and the rows one after another.
#[derive(Clone, Copy)]
pub(crate) struct Fields<'a> {
    pub matrix: &'a Matrix,
    pub at: &'a [usize],
    pub order: &'a [usize],
    pub rows: &'a [i64],
}
