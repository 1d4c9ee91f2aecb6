ghost use Rattle.std.specs.Prelude.{ℤ, List};
ghost use Rattle.crn_vec.specs.Confluence.{IsConfluenceVector};
ghost use Rattle.crn_vec.specs.Deficiency.{IsDeficiencyZero};
ghost use Rattle.crn_vec.specs.Network.{IsNetwork, Net};
ghost use Rattle.crn_space.specs.ClassSums.{ClassDeficienciesSumToAtMost};
ghost use Rattle.crn_space.specs.Dimension.{
  DeficiencyOneLeavesLine,
  DeficiencyZeroLeavesOnlyZero,
  SpaceDimensionIsDeficiency,
};

/// The confluence space has as many dimensions as the deficiency says.
pub fn confluence_dimension_is_the_deficiency()
    ensures { SpaceDimensionIsDeficiency }
{}

/// The confluence space holds only zero if and only if the deficiency is 0, whether the network is weakly reversible
/// or not. So a network of deficiency 0 has no confluence vector.
pub fn deficiency_zero_leaves_only_zero()
    ensures space { DeficiencyZeroLeavesOnlyZero }
    ensures vectors { (net : Net) (g : List ℤ) → IsNetwork net →
        IsDeficiencyZero net → IsConfluenceVector net g → ⊥ }
{}

/// The confluence space is a line if and only if the deficiency is 1.
pub fn deficiency_one_leaves_a_line()
    ensures { DeficiencyOneLeavesLine }
{}

/// The deficiencies of the linkage classes sum to at most that of the network.
pub fn class_deficiencies_sum_to_at_most_the_deficiency()
    ensures { ClassDeficienciesSumToAtMost }
{}
