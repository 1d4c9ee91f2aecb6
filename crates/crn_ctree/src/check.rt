ghost use Rattle.std.specs.Prelude.{◌≡◌, ◌≢◌, [], length, IfOk};
ghost use Rattle.crn_vec.specs.Visits.{root};
ghost use Rattle.crn_cert.specs.Nodes.{AreNumbersFor};
ghost use Rattle.crn_ctree.specs.Gives.{FinishGives, NodeGives, SharedGives, said_by};
ghost use Rattle.crn_ctree.specs.Problem.{problem_of};
ghost use Rattle.crn_ctree.specs.Shared.{IsPlaceIn, said_by_shared};
ghost use Rattle.crn_ctree.specs.Inner.Kinds.{matrix_of, part_of};

use crate::cut::{rows, system_of};
use crate::fault::TreeFault;
use crate::known::{KnownCut, KnownCuts};
use crate::node::{Node, Step, choices, fits};
use crate::path::Path;
use crate::problem::Problem;
use crate::shared::{SharedCut, SharedTable};
use crn_net::Network;
use crn_vec::NoMemory;
use std::alloc::Global;
use std::marker::Model;

/// A tree that is checked node by node, in preorder. Contracts see the prefixes that are still due.
#[derive(Drop)]
pub struct TreeCheck<'a> {
    path: Path,
    problem: Problem<'a>,
}

impl<'a> Model for TreeCheck<'a> {
    ghost use Rattle.crn_ctree.specs.Due.{KeptTree};

    ghost Value = { KeptTree };

    ghost view = { λ s.
        record { due = s.path.due; choices = s.path.choices; problem = s.problem } };
}

impl<'a> TreeCheck<'a> {
    /// The root of a tree is due. Takes memory for one option of each choice.
    pub fn new(
        alloc: Global,
        net: &Network,
        problem: Problem<'a>,
    ) -> Result<TreeCheck<'a>, NoMemory>
        ensures due { IfOk result (λ made. made.due ≡ root) }
        ensures choices { IfOk result (λ made.
            made.choices ≡ (problem_of net.now problem.entry).choices) }
        ensures problem { IfOk result (λ made. made.problem ≡ problem.entry) }
    {
        let path = Path::new(alloc, choices(net, problem))?;
        Ok(TreeCheck { path, problem })
    }

    /// Tests a node at the prefix that is due, and takes it if it passes. If not, the check is as before.
    pub fn node(&mut self, net: &Network, node: &Node) -> Result<Step, TreeFault>
        requires due { self.old.due ≢ [] }
        requires choices { self.old.choices
            ≡ (problem_of net.now self.old.problem).choices }
        requires numbers { AreNumbersFor (problem_of net.now self.old.problem) (said_by node.now) }
        ensures gives { NodeGives (problem_of net.now self.old.problem) self.old.due
            (said_by node.now) self.new.due result }
        ensures choices { self.new.choices ≡ self.old.choices }
        ensures problem { self.new.problem ≡ self.old.problem }
    {
        if !fits(net, self.problem, self.path.prefix(), node) {
            return Err(match node {
                Node::Split | Node::Flat => TreeFault::NodeNotAllowed,
                Node::CutA(_) | Node::CutB(_) => TreeFault::BadLeaf,
            });
        }
        match node {
            Node::Split => self.path.open(),
            _ => self.path.close(),
        }
        Ok(if self.path.is_complete() {
            Step::Complete
        } else {
            Step::More
        })
    }

    // The number of rows of the part that a cut rules out.
    fn row_count(&self, net: &Network, cut: SharedCut) -> usize
        ensures { result ≡ length (matrix_of net.now self.now.problem (part_of cut)).rows }
    {
        rows(net, system_of(self.problem, cut.part()))
    }

    /// Tests a cut with the multipliers of a shared vector, and answers as `node` if it has their number.
    pub fn shared_node(
        &mut self,
        net: &Network,
        table: &SharedTable,
        cut: SharedCut,
    ) -> Result<Step, TreeFault>
        requires due { self.old.due ≢ [] }
        requires choices { self.old.choices
            ≡ (problem_of net.now self.old.problem).choices }
        requires place { IsPlaceIn table.now cut }
        ensures gives { SharedGives (problem_of net.now self.old.problem) self.old.due
            (said_by_shared table.now cut) self.new.due result }
        ensures choices { self.new.choices ≡ self.old.choices }
        ensures problem { self.new.problem ≡ self.old.problem }
    {
        let numbers = table.get(cut.place());
        if numbers.len() != self.row_count(net, cut) {
            return Err(TreeFault::WrongShape);
        }
        self.node(net, &cut.node(numbers))
    }

    /// Tests a cut with the multipliers of a shared vector, as `shared_node`, but by what was worked out once.
    pub fn known_node(&mut self, cuts: &KnownCuts, cut: SharedCut) -> Result<Step, TreeFault>
        requires due { self.old.due ≢ [] }
        requires problem { self.old.problem ≡ cuts.now.problem }
        requires choices { self.old.choices
            ≡ (problem_of cuts.now.net self.old.problem).choices }
        requires place { IsPlaceIn cuts.now.table cut }
        ensures gives { SharedGives (problem_of cuts.now.net self.old.problem) self.old.due
            (said_by_shared cuts.now.table cut) self.new.due result }
        ensures choices { self.new.choices ≡ self.old.choices }
        ensures problem { self.new.problem ≡ self.old.problem }
    {
        if !cuts.has_shape(cut) {
            return Err(TreeFault::WrongShape);
        }
        if !cuts.rules_out(cut, self.path.prefix()) {
            return Err(TreeFault::BadLeaf);
        }
        self.path.close();
        Ok(if self.path.is_complete() {
            Step::Complete
        } else {
            Step::More
        })
    }

    /// Tests a cut that is worked out, and answers as `node`.
    pub fn cut_node(&mut self, cuts: &KnownCuts, cut: &KnownCut) -> Result<Step, TreeFault>
        requires due { self.old.due ≢ [] }
        requires problem { self.old.problem ≡ cuts.now.problem }
        requires cut_net { cut.now.net ≡ cuts.now.net }
        requires cut_problem { cut.now.problem ≡ cuts.now.problem }
        ensures gives { NodeGives (problem_of cuts.now.net self.old.problem) self.old.due
            cut.now.said self.new.due result }
        ensures choices { self.new.choices ≡ self.old.choices }
        ensures problem { self.new.problem ≡ self.old.problem }
    {
        if !cuts.rules_out_by(cut, self.path.prefix()) {
            return Err(TreeFault::BadLeaf);
        }
        self.path.close();
        Ok(if self.path.is_complete() {
            Step::Complete
        } else {
            Step::More
        })
    }

    /// Ends the check of a tree.
    pub fn finish(self) -> Result<(), TreeFault>
        ensures { FinishGives self.entry.due result }
    {
        if self.path.is_complete() {
            Ok(())
        } else {
            Err(TreeFault::TreeEndsEarly)
        }
    }
}
