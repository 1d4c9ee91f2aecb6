ghost use Rattle.crn_vec.specs.VisitList.{BudgetsNeverSpent, LongVisits, NoProblemLacksVisits, VisitsAreOne, VisitsAreReached, VisitsArePreorder};

/// A sign problem has one visit list.
pub fn visits_are_one_list()
    ensures { VisitsAreOne }
{}

/// It is impossible that a sign problem has no visit list.
pub fn no_problem_lacks_visits()
    ensures { NoProblemLacksVisits }
{}

/// The visit list holds reached prefixes only, and all of them if no full feasible prefix ends it.
pub fn visits_are_reached()
    ensures { VisitsAreReached }
{}

/// More than n prefixes are visited if and only if the visit list is longer than n.
pub fn longer_visits()
    ensures { LongVisits }
{}

/// The number of visits is bounded by the number of choices, so a budget of that bound is never spent.
pub fn budgets_that_are_never_spent()
    ensures { BudgetsNeverSpent }
{}

/// The visit list is in preorder, and ends after the first full feasible prefix.
pub fn visits_are_in_preorder()
    ensures { VisitsArePreorder }
{}
