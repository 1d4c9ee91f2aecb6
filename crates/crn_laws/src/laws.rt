ghost use Rattle.crn_laws.specs.Implied.{
  ClassRanksSumToAtLeast,
  DeficiencyZeroGivesDeficiencyOne,
  NetworksHaveDeficiencies,
  WeaklyReversibleAreDependent,
  WeaklyReversibleAreRegularByCutPairs,
  WeaklyReversibleAreRegularOrFail,
  WeaklyReversibleHaveOneTerminalEach,
};
ghost use Rattle.crn_laws.specs.Renumbered.{
  RenumberedShareClasses,
  RenumberedShareConcordance,
  RenumberedShareConfluence,
  RenumberedShareDependence,
  RenumberedShareHypotheses,
  RenumberedShareNumbers,
  RenumberedShareSignals,
  StatementsInAnyOrder,
};
ghost use Rattle.crn_laws.specs.Systems.{NetworksHaveFullRows};

/// A weakly reversible network is positively dependent.
pub fn weakly_reversible_networks_are_positively_dependent()
    ensures { WeaklyReversibleAreDependent }
{}

/// Each linkage class of a weakly reversible network has one terminal strong class.
pub fn weakly_reversible_networks_have_one_terminal_class_each()
    ensures { WeaklyReversibleHaveOneTerminalEach }
{}

/// A weakly reversible network is regular if and only if all its linked pairs are cut pairs, whatever its deficiency is;
/// so it is regular, or some linked pair is no cut pair.
pub fn weakly_reversible_networks_are_regular_by_cut_pairs()
    ensures pairs { WeaklyReversibleAreRegularByCutPairs }
    ensures fails { WeaklyReversibleAreRegularOrFail }
{}

/// Each network has a deficiency, and one for each of its linkage classes.
pub fn networks_have_deficiencies()
    ensures { NetworksHaveDeficiencies }
{}

/// The ranks of the linkage classes sum to at least that of the network.
pub fn class_ranks_sum_to_at_least_the_rank()
    ensures { ClassRanksSumToAtLeast }
{}

/// If the hypotheses of the Deficiency Zero Theorem hold, and each linkage class has one terminal strong class, as in a
/// weakly reversible network, those of the Deficiency One Theorem hold.
pub fn deficiency_zero_and_one_terminal_class_each_give_deficiency_one()
    ensures { DeficiencyZeroGivesDeficiencyOne }
{}

/// The rows of each system of a network have an entry for each column, as laws on wide vectors require.
pub fn systems_have_rows_of_one_length()
    ensures { NetworksHaveFullRows }
{}

/// Texts that say the same amounts on both sides of their statements, in any order of lines and of terms and each once or
/// more often, spell the same network in another order.
pub fn statements_in_any_order_spell_renumbered_networks()
    ensures { StatementsInAnyOrder }
{}

/// Networks that are the same in another order have the same rank, the same deficiency, and the same deficiencies of
/// their linkage classes, in another order.
pub fn renumbered_networks_share_rank_and_deficiencies()
    ensures { RenumberedShareNumbers }
{}

/// All or none of them meet the hypotheses of the Deficiency Zero Theorem, or of the Deficiency One Theorem.
pub fn renumbered_networks_share_hypotheses()
    ensures { RenumberedShareHypotheses }
{}

/// All or none of them are reversible, weakly reversible, with one terminal strong class in each linkage class, or regular.
pub fn renumbered_networks_share_reversibility_and_regularity()
    ensures { RenumberedShareClasses }
{}

/// All or none of them are positively dependent, or conservative.
pub fn renumbered_networks_share_dependence_and_conservation()
    ensures { RenumberedShareDependence }
{}

/// All or none of them are concordant, or strongly concordant.
pub fn renumbered_networks_share_concordance()
    ensures { RenumberedShareConcordance }
{}

/// Their normal confluence vectors are the same, numbered anew, or negatives of one another, and then both are weakly
/// reversible.
pub fn renumbered_networks_share_the_confluence_vector()
    ensures { RenumberedShareConfluence }
{}

/// They have signals for the same vectors, numbered anew.
pub fn renumbered_networks_share_signals()
    ensures { RenumberedShareSignals }
{}
