//! What the deficiency says of the confluence space, and of the deficiencies of the linkage classes.
#![tactic(auto)]

mod laws;

pub use laws::{
    class_deficiencies_sum_to_at_most_the_deficiency, confluence_dimension_is_the_deficiency,
    deficiency_one_leaves_a_line, deficiency_zero_leaves_only_zero,
};
