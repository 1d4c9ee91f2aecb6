ghost use Rattle.crn_cert.specs.Nodes.{NodesOfValidTrees};
ghost use Rattle.crn_ctree.specs.Laws.{CompleteTreesShow, CompleteIfAndOnlyIfValid, FirstFaultsAreThoseOfTests, FirstSignalFaultsAreThoseOfTests, SignalNodesAreOfShape};

/// The nodes that leave nothing due are just those of a valid tree.
pub fn nodes_of_valid_trees()
    ensures { NodesOfValidTrees }
{}

/// After nodes that fit one after another, nothing is due if and only if they are those of a valid tree.
pub fn complete_if_and_only_if_valid()
    ensures { CompleteIfAndOnlyIfValid }
{}

/// Nodes that fit one after another until nothing is due show the table of the problem concordant, or that the vector
/// of its shape has no signal.
pub fn complete_trees_show()
    ensures { CompleteTreesShow }
{}

/// The first node of a formed tree that does not fit is the first of the tree's tests that fails, with its code.
pub fn first_faults_are_those_of_tests()
    ensures { FirstFaultsAreThoseOfTests }
{}

/// The tests of the trees of question 13 are those by the shape of the network and of the vector of question 12.
pub fn signal_nodes_are_of_shape()
    ensures { SignalNodesAreOfShape }
{}

/// The first node of a tree of question 13 that does not fit is the first of the tree's tests that fails, with its code.
pub fn first_signal_faults_are_those_of_tests()
    ensures { FirstSignalFaultsAreThoseOfTests }
{}
