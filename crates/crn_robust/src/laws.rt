ghost use Rattle.crn_robust.specs.Law.{CasesAreOne, CasesDecideRobustness, LinesAreTrue};

/// At most one case of the hypotheses on robustness holds of a network.
pub fn cases_are_one()
    ensures { CasesAreOne }
{}

/// The case that holds of a network says whether the hypotheses do, and for which species and complexes.
pub fn cases_decide_robustness()
    ensures { CasesDecideRobustness }
{}

/// What says whether the deficiency is one says whether the confluence space is a line.
pub fn lines_are_true()
    ensures { LinesAreTrue }
{}
