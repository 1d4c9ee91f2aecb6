//! What the definitions say of one another, by laws alone: functions without a body.
#![tactic(auto)]

mod laws;

pub use laws::{
    class_ranks_sum_to_at_least_the_rank,
    deficiency_zero_and_one_terminal_class_each_give_deficiency_one, networks_have_deficiencies,
    renumbered_networks_share_concordance, renumbered_networks_share_dependence_and_conservation,
    renumbered_networks_share_hypotheses, renumbered_networks_share_rank_and_deficiencies,
    renumbered_networks_share_reversibility_and_regularity, renumbered_networks_share_signals,
    renumbered_networks_share_the_confluence_vector,
    statements_in_any_order_spell_renumbered_networks, systems_have_rows_of_one_length,
    weakly_reversible_networks_are_positively_dependent,
    weakly_reversible_networks_are_regular_by_cut_pairs,
    weakly_reversible_networks_have_one_terminal_class_each,
};
