ghost use Rattle.std.specs.Prelude.{◌≡◌, ◌-◌, ◌↔◌, true, [], length, slice_index_or, IfOk, IsTrue};
ghost use Rattle.crn_vec.specs.Systems.{IsCut};
ghost use Rattle.crn_cert.specs.Nodes.{AreNumbersFor, Fits};
ghost use Rattle.crn_ctree.specs.Gives.{is_cut, said_by};
ghost use Rattle.crn_ctree.specs.Problem.{problem_of};
ghost use Rattle.crn_ctree.specs.Shared.{IsPlaceIn, place_of};
ghost use Rattle.crn_ctree.specs.Inner.Kinds.{kinds_of, matrix_of, part_of};

use crate::cut::Part;
use crate::node::Node;
use crate::problem::Problem;
use crate::shared::{SharedCut, SharedTable};
use crate::worked::{Worked, WorkedCut};
use crn_net::Network;
use crn_vec::{NoMemory, Sign};
use std::alloc::Global;
use std::marker::Model;

/// The cuts of a sign problem by the vectors of a table, each worked out once, however many nodes name it. Contracts see
/// the network, the problem and the vectors.
#[derive(Drop)]
pub struct KnownCuts<'a> {
    worked: Worked<'a>,
}

impl<'a> Model for KnownCuts<'a> {
    ghost use Rattle.crn_ctree.specs.Known.{KeptCuts};

    ghost Value = { KeptCuts };

    ghost view = { λ s. s.worked };
}

/// A cut of a sign problem, worked out once, however many nodes say it. Contracts see the network, the problem and what
/// the cut says.
#[derive(Drop)]
pub struct KnownCut<'a> {
    worked: WorkedCut<'a>,
}

impl<'a> Model for KnownCut<'a> {
    ghost use Rattle.crn_ctree.specs.Known.{KeptCut};

    ghost Value = { KeptCut };

    ghost view = { λ s. s.worked };
}

impl<'a> KnownCuts<'a> {
    /// Works the cuts out. Takes memory for each coordinate that a vector weighs, and for each entry of a table's
    /// columns that is not 0.
    pub fn new(
        alloc: Global,
        net: &'a Network,
        problem: Problem<'a>,
        table: &'a SharedTable,
    ) -> Result<KnownCuts<'a>, NoMemory>
        ensures net { IfOk result (λ made. made.net ≡ net.now) }
        ensures problem { IfOk result (λ made. made.problem ≡ problem.entry) }
        ensures table { IfOk result (λ made. made.table ≡ table.now) }
    {
        Ok(KnownCuts {
            worked: Worked::new(alloc, net, problem, table)?,
        })
    }

    /// The number of vectors.
    pub fn len(&self) -> usize
        ensures { result ≡ length self.now.table }
    {
        self.worked.len()
    }

    /// Works out a cut that says its multipliers. Takes memory for them, and for each coordinate that they weigh.
    pub fn work_out(&self, alloc: Global, node: &Node) -> Result<KnownCut<'a>, NoMemory>
        requires cut { is_cut (said_by node.now) ≡ true }
        requires numbers { AreNumbersFor (problem_of self.now.net self.now.problem)
            (said_by node.now) }
        ensures net { IfOk result (λ made. made.net ≡ self.now.net) }
        ensures problem { IfOk result (λ made. made.problem ≡ self.now.problem) }
        ensures said { IfOk result (λ made. made.said ≡ said_by node.now) }
    {
        let worked = match node {
            Node::CutA(u) => self.worked.work_out(alloc, Part::A, u)?,
            Node::CutB(u) => self.worked.work_out(alloc, Part::B, u)?,
            Node::Split | Node::Flat => unreachable!(),
        };
        Ok(KnownCut { worked })
    }

    // Whether a cut that is worked out rules its part of a prefix out.
    pub(crate) fn rules_out_by(&self, cut: &KnownCut, prefix: &[Sign]) -> bool
        requires net { cut.now.net ≡ self.now.net }
        requires problem { cut.now.problem ≡ self.now.problem }
        ensures fits { IsTrue result
            ↔ Fits (problem_of self.now.net self.now.problem) prefix.now cut.now.said }
        ensures cut { is_cut cut.now.said ≡ true }
    {
        self.worked.rules_out_by(&cut.worked, prefix)
    }

    // Whether the vector that a cut names has as many numbers as the part has rows.
    pub(crate) fn has_shape(&self, cut: SharedCut) -> bool
        requires { IsPlaceIn self.now.table cut }
        ensures { IsTrue result
            ↔ (length (slice_index_or self.now.table (place_of cut - 1) [])
            ≡ length (matrix_of self.now.net self.now.problem (part_of cut)).rows) }
    {
        self.worked.has_shape(cut)
    }

    // Whether the vector that a cut names rules its part of a prefix out.
    pub(crate) fn rules_out(&self, cut: SharedCut, prefix: &[Sign]) -> bool
        requires place { IsPlaceIn self.now.table cut }
        requires shape { length (slice_index_or self.now.table (place_of cut - 1) [])
            ≡ length (matrix_of self.now.net self.now.problem (part_of cut)).rows }
        ensures { let a = matrix_of self.now.net self.now.problem (part_of cut) in
            let kinds = kinds_of self.now.net self.now.problem (part_of cut) prefix.now in
            IsTrue result ↔ IsCut a kinds (slice_index_or self.now.table (place_of cut - 1) []) }
    {
        self.worked.rules_out(cut, prefix)
    }
}
