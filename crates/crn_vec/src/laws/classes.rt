ghost use Rattle.crn_vec.specs.Confluence.{ConfluenceVectorsAreOne};
ghost use Rattle.crn_vec.specs.CutPairs.{MarksAreSides};
ghost use Rattle.crn_vec.specs.Deficiency.{DeficiencyIsOne};
ghost use Rattle.crn_vec.specs.Strong.{TerminalByReactions, WeaklyReversibleByReactions};

/// A network is weakly reversible if and only if every reaction stays within its strong class.
pub fn weak_reversibility_is_by_reactions()
    ensures { WeaklyReversibleByReactions }
{}

/// A strong class is terminal if and only if no reaction leaves it.
pub fn terminal_classes_are_by_reactions()
    ensures { TerminalByReactions }
{}

/// Marks that differ only between a and b show that a and b are a cut pair, and mark the side of b.
pub fn marks_are_sides()
    ensures { MarksAreSides }
{}

/// The deficiency is one number.
pub fn deficiency_is_one_number()
    ensures { DeficiencyIsOne }
{}

/// A regular network whose confluence space is a line has a confluence vector. It is unique up to positive
/// multiples and, in a weakly reversible network, up to its sign.
pub fn confluence_vectors_are_one()
    ensures { ConfluenceVectorsAreOne }
{}
