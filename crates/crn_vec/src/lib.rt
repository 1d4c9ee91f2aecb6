//! Lists of numbers and matrices, and the definitions of networks and of linear algebra that every crate speaks of.
#![tactic(auto)]

mod fault;
mod ints;
mod kinds;
mod laws;
mod lengths;
mod limits;
mod matrix;
mod nums;
mod signs;
mod skips;
mod vectors;

pub use fault::NoMemory;
pub use ints::Ints;
pub use kinds::{
    counts, is_asked, kind_of_sign, kind_of_sum, may_take, may_weigh, opposite, product, rules_out,
    sign_asked, unit_asked,
};
pub use laws::{
    base_gives_rank, budgets_that_are_never_spent, confluence_vectors_are_one,
    cuts_exclude_solutions, deficiency_is_one_number, feasible_prefixes_decide_discordance,
    feasible_prefixes_decide_signals, level_is_zero, longer_visits, marks_are_sides,
    multiples_share_signals, negatives_have_opposite_shapes, networks_are_lawful,
    networks_have_tables, no_problem_lacks_visits, rank_is_one_number, shapes_are_one,
    signals_are_of_shape, signals_are_steady, signals_meet_the_laws_of_sign_problems,
    signals_of_networks_are_feasible, tables_are_steady, tables_meet_the_laws_of_sign_problems,
    terminal_classes_are_by_reactions, visits_are_in_preorder, visits_are_one_list,
    visits_are_reached, weak_reversibility_is_by_reactions, weights_decide_cuts,
};
pub use lengths::set_length;
pub use limits::{
    DEFAULT_BUDGET, MAX_AMOUNT, MAX_BUDGET, MAX_BUDGET_DIGITS, MAX_COMPLEXES, MAX_COORDINATES,
    MAX_NAME, MAX_REACTIONS, MAX_SIGNED, MAX_SPECIES, MAX_TERMS, MAX_TEXT, WIDE_ENTRY,
    WIDE_SOLUTION,
};
pub use matrix::Matrix;
pub use nums::Nums;
pub use signs::{Kind, Sign, agrees, has_kind, is_all_zero, is_minus_sign, is_plus_sign, sign_of};
pub use skips::{Skips, dot_past, is_nought, skips_of};
pub use vectors::{dot, support, times};
