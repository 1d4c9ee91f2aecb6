ghost use Rattle.crn_indep_check.specs.Law.{ShownDecompositionsAreFinest, ValidAnswersAreTrue};

/// A decomposition whose proof passes its tests is independent, and each of its parts lies within one part of every
/// independent decomposition.
pub fn shown_decompositions_are_finest()
    ensures { ShownDecompositionsAreFinest }
{}

/// A formed and valid answer has the labels of the finest independent decomposition and the ranks of its parts.
pub fn valid_answers_on_decompositions_are_true()
    ensures { ValidAnswersAreTrue }
{}
