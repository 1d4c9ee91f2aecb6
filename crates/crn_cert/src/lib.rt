//! The data of answers: verdicts, their proofs and what leaves a question open, with what each says of a network.
#![tactic(auto)]

mod answer;
mod answers;
mod head_kind;
mod laws;
mod place;
mod rank_list;
mod rows;
mod share;
mod tree;
mod tree_node;
mod verdicts;

pub use answer::{Answer, Gap, Proof, RankProof, Verdict};
pub use answers::Answers;
pub use head_kind::HeadKind;
pub use laws::{
    blocks_are_of_answers, formed_answers_have_formed_verdicts, heads_depend_on_no_lists,
    nodes_are_of_one_tree, pair_places_are_pairs, shapes_exist, shares_fit, tested_marks_are_sides,
    tests_decide_valid_trees, valid_answers_are_true, valid_documents_are_true,
    valid_trees_leave_nothing,
};
pub use place::question_number;
pub use rank_list::RankList;
pub use rows::Rows;
pub use share::{Share, share_of};
pub use tree::Tree;
pub use tree_node::TreeNode;
pub use verdicts::Verdicts;
