ghost use Rattle.std.specs.Prelude.{◌<◌};
ghost use Rattle.crn_vec.specs.declared.limits.TheConstants.{MAX_SPECIES};

/// A species that a reaction changes, and by how much.
#[derive(Clone, Copy)]
pub(crate) struct Change {
    pub species: usize,
    pub by: i128,
    ghost in_range: { species < MAX_SPECIES },
}
