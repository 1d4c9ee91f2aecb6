ghost use Rattle.crn_endo_check.specs.Endo.{ValidEndosAreTrue};
ghost use Rattle.crn_endo_check.specs.SlopeLaws.{FeasiblePrefixesDecideEndotactic, FeasiblePrefixesDecideSlopes, NoneAgainstIsEndotactic, SlopesAreLawful, SlopesAreSteady, SlopesShowNotEndotactic, ValidTreesShowEndotactic};

/// The sign problem of a reaction meets the laws that trees depend on.
pub fn slopes_are_steady()
    ensures { SlopesAreSteady }
{}

/// The sign problem of a reaction meets the laws of sign problems.
pub fn slopes_meet_the_laws_of_sign_problems()
    ensures { SlopesAreLawful }
{}

/// A slope is against a reaction if and only if some full prefix of the reaction's sign problem is feasible.
pub fn feasible_prefixes_decide_slopes()
    ensures { FeasiblePrefixesDecideSlopes }
{}

/// A network with no slope against a reaction is endotactic at it.
pub fn networks_with_nothing_against_are_endotactic()
    ensures { NoneAgainstIsEndotactic }
{}

/// A valid tree of a reaction's sign problem shows that the network is endotactic at the reaction.
pub fn valid_trees_show_endotactic()
    ensures { ValidTreesShowEndotactic }
{}

/// A slope against a reaction shows that the network is not endotactic at it.
pub fn slopes_show_not_endotactic()
    ensures { SlopesShowNotEndotactic }
{}

/// A network is endotactic if and only if no full prefix of the sign problem of a reaction is feasible.
pub fn feasible_prefixes_decide_endotactic_networks()
    ensures { FeasiblePrefixesDecideEndotactic }
{}

/// A valid answer on endotactic networks is true.
pub fn valid_answers_on_endotactic_networks_are_true()
    ensures { ValidEndosAreTrue }
{}
