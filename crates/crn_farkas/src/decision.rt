use crn_vec::Ints;

/// What decides a linear system.
#[derive(Drop)]
pub enum Decision {
    /// A solution.
    Feasible(Ints),
    /// Multipliers of the rows that rule every solution out.
    Infeasible(Ints),
}
