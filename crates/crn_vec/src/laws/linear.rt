ghost use Rattle.crn_vec.specs.Rank.{BaseGivesRank, RankIsOneNumber};
ghost use Rattle.crn_vec.specs.Systems.{CutsExcludeSolutions, WeightsDecideCuts};

/// If every vector of a list depends on independent members of it, then their number is the rank of the list.
pub fn base_gives_rank()
    ensures { BaseGivesRank }
{}

/// A list of vectors has one rank.
pub fn rank_is_one_number()
    ensures { RankIsOneNumber }
{}

/// A system that multipliers rule out has no solution.
pub fn cuts_exclude_solutions()
    ensures { CutsExcludeSolutions }
{}

/// Of a list (-uA, u), the weights alone decide whether the multipliers u rule a system out, as `rules_out` does.
pub fn weights_decide_cuts()
    ensures { WeightsDecideCuts }
{}
