use crn_vec::Nums;

/// What is seen of a document on the finest independent decomposition: whether it is open, and else the rank of each part in
/// order.
#[derive(Drop)]
pub struct PartsSeen {
    pub undecided: bool,
    pub ranks: Nums,
}
