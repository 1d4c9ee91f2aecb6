ghost use Rattle.std.specs.Prelude.{[], Bool, List};
ghost use Rattle.crn_vec.specs.Network.{Net};
ghost use Rattle.crn_siphon_check.specs.Siphons.{ContainsLaw, IsSiphon};
ghost use Rattle.crn_siphon_check.specs.Trees.{IsValidTree, Plan};
ghost use Rattle.crn_siphon_check.specs.SiphonVisits.{AreLonger, VisitsAreOne};
ghost use Rattle.crn_siphon_check.specs.Answers.{ValidAnswersAreTrue};

/// If a tree is valid at the empty prefix, each siphon contains the species of a law.
pub fn valid_trees_show_laws()
    ensures { (net : Net) (tree : Plan) → IsValidTree net [] tree →
        (set : List Bool) → IsSiphon net set → ContainsLaw net set }
{}

/// Formed answers on persistence whose tests hold say the truth.
pub fn valid_answers_on_persistence_are_true()
    ensures { ValidAnswersAreTrue }
{}

/// A network has one visit list.
pub fn siphon_visits_are_one_list()
    ensures { VisitsAreOne }
{}

/// More than n prefixes are visited if and only if the visit list is longer than n.
pub fn longer_siphon_visits()
    ensures { AreLonger }
{}
