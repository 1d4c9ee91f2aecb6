ghost use Rattle.crn_vec.specs.NetSignals.{MultiplesShareSignals, NetworksAreLawful, ShapesAreOne, NegativesHaveOppositeShapes, SignalsAreOfShape, SignalsAreFeasible};
ghost use Rattle.crn_vec.specs.SignalLaws.{LevelIsZero, SignalsAreLawful, SignalsAreSteady, FeasiblePrefixesDecideSignals};

/// The sign problem of signals meets the laws of sign problems.
pub fn signals_meet_the_laws_of_sign_problems()
    ensures { SignalsAreLawful }
{}

/// The sign problem of signals of any shape meets the laws that trees depend on.
pub fn signals_are_steady()
    ensures { SignalsAreSteady }
{}

/// Numbers of the species that give all complexes one level, and have the signs of a combination of the
/// reactions, are zero.
pub fn level_is_zero()
    ensures { LevelIsZero }
{}

/// There is a signal if and only if some full prefix of its sign problem is feasible.
pub fn feasible_prefixes_decide_signals()
    ensures { FeasiblePrefixesDecideSignals }
{}

/// A network has at most one shape for each vector over its complexes.
pub fn shapes_are_one()
    ensures { ShapesAreOne }
{}

/// The shape of the negative of a vector has the opposite sums.
pub fn negatives_have_opposite_shapes()
    ensures { NegativesHaveOppositeShapes }
{}

/// Positive multiples of a vector have the same signals.
pub fn multiples_share_signals()
    ensures { MultiplesShareSignals }
{}

/// The signals of a regular network are those over its shape, which has each cut pair in one order only.
pub fn signals_are_of_shape()
    ensures { SignalsAreOfShape }
{}

/// In a regular network a signal gives a full feasible prefix.
pub fn signals_of_networks_are_feasible()
    ensures { SignalsAreFeasible }
{}

/// In a regular network the sign problem of signals meets the laws of sign problems.
pub fn networks_are_lawful()
    ensures { NetworksAreLawful }
{}
