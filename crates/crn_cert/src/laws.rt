ghost use Rattle.crn_cert.specs.BlockLaw.{BlocksAreOfAnswers};
ghost use Rattle.crn_cert.specs.Heads.{HeadsDependOnNoLists};
ghost use Rattle.crn_cert.specs.FormedVerdicts.{FormedAnswersHaveFormedVerdicts};
ghost use Rattle.crn_cert.specs.Preorder.{NodesAreOfOneTree};
ghost use Rattle.crn_cert.specs.Shares.{SharesFit};
ghost use Rattle.crn_cert.specs.TreeLaw.{TestsDecideValidTrees, ValidTreesLeaveNothing};
ghost use Rattle.crn_cert.specs.Law.{PairPlacesArePairs, ShapesExist, TestedMarksAreSides, ValidAnswersAreTrue, ValidDocumentsAreTrue};

/// A valid answer on each of these questions is true of the network, or open.
pub fn valid_answers_are_true()
    ensures { ValidAnswersAreTrue }
{}

/// If all answers are formed and valid, each verdict is true of the network or open.
pub fn valid_documents_are_true()
    ensures { ValidDocumentsAreTrue }
{}

/// Marks that pass the test of a side mark the side of a cut pair.
pub fn tested_marks_are_sides()
    ensures { TestedMarksAreSides }
{}

/// If a tree is valid at the empty prefix, no full prefix of its sign problem is feasible.
pub fn valid_trees_leave_nothing()
    ensures { ValidTreesLeaveNothing }
{}

/// The pairs that are computed from true strong classes are the linked pairs within terminal classes.
pub fn pair_places_are_pairs()
    ensures { PairPlacesArePairs }
{}

/// If the strong classes are true, the network has a shape for each vector over its complexes.
pub fn shapes_exist()
    ensures { ShapesExist }
{}

/// The form of a verdict's head and its tests do not depend on the lists that later records hold.
pub fn heads_depend_on_no_lists()
    ensures { HeadsDependOnNoLists }
{}

/// The verdict of a formed answer is formed.
pub fn formed_answers_have_formed_verdicts()
    ensures { FormedAnswersHaveFormedVerdicts }
{}

/// The tests of a formed tree hold if and only if the tree is valid.
pub fn tests_decide_valid_trees()
    ensures { TestsDecideValidTrees }
{}

/// The share of cuts that lines may hold fits them.
pub fn shares_fit()
    ensures { SharesFit }
{}

/// The nodes of a tree in preorder are those of no other tree.
pub fn nodes_are_of_one_tree()
    ensures { NodesAreOfOneTree }
{}

/// The block of the answer of a block that fits is that block.
pub fn blocks_are_of_answers()
    ensures { BlocksAreOfAnswers }
{}
