/// The first test of an answer that fails.
#[derive(Debug, Drop)]
pub struct CheckFault {
    /// The code of the test: from 31 to 37, or 45.
    pub code: u32,
    /// The record of the test below the head, counted from 1, and 0 for the head.
    pub part: u32,
}
