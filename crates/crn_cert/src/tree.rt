use crate::tree_node::TreeNode;
use std::marker::Model;

/// A tree that shows that no full prefix of a sign problem is feasible: its nodes in one list, each before those of its children.
#[derive(Drop)]
pub struct Tree {
    nodes: Vec<TreeNode>,
}

impl Model for Tree {
    ghost use Rattle.crn_cert.specs.Trees.{Plan};
    ghost use Rattle.crn_cert.specs.PlanCode.{plan_code};

    ghost Value = { Plan };

    ghost coded = { plan_code };

    ghost use Rattle.crn_cert.specs.Preorder.{AreNodesOf, tree_of};

    ghost view = { λ s. tree_of s.nodes.items };

    ghost invariant = { λ s. AreNodesOf (tree_of s.nodes.items) s.nodes.items };
}

impl Tree {
    ghost use Rattle.crn_cert.specs.Trees.{Plan};
    ghost use Rattle.crn_cert.specs.Preorder.{AreNodesOf};

    /// The tree of these nodes. It takes no memory.
    pub fn new(nodes: Vec<TreeNode>) -> Tree
        requires { (tree : Plan) × AreNodesOf tree nodes.items }
        ensures { AreNodesOf result nodes.items }
    {
        Tree { nodes }
    }

    /// The nodes, each before those of its children.
    pub fn nodes(&self) -> &[TreeNode]
        ensures { AreNodesOf self.now result.now }
    {
        &self.nodes
    }
}
