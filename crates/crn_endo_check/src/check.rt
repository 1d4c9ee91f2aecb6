ghost use Rattle.std.specs.Prelude.{◌≡◌, ◌≢◌, ◌↔◌, [], IfOk, IsTrue};
ghost use Rattle.crn_vec.specs.Visits.{root};
ghost use Rattle.crn_cert.specs.Nodes.{AreNumbersFor, Fits};
ghost use Rattle.crn_ctree.specs.Due.{first};
ghost use Rattle.crn_ctree.specs.Gives.{NodeGives, said_by};
ghost use Rattle.crn_endo_check.specs.Slopes.{IsSmallEnough, slopes};

use crate::cut::rules_out;
use crate::slopes::Slopes;
use crn_ctree::{Node, Path, Step, TreeFault};
use crn_vec::{Matrix, NoMemory};
use std::alloc::Global;
use std::marker::Model;

/// The tree of a reaction, checked node by node, in preorder. Contracts see the prefixes that are still due.
#[derive(Drop)]
pub struct SlopeCheck<'a> {
    path: Path,
    given: Slopes<'a>,
    matrix: Matrix,
}

impl<'a> Model for SlopeCheck<'a> {
    ghost use Rattle.std.specs.Prelude.{◌≡◌, ◌+◌, length};
    ghost use Rattle.crn_endo_check.specs.Kept.{KeptCheck};
    ghost use Rattle.crn_endo_check.specs.Slopes.{others, slope_matrix};

    ghost Value = { KeptCheck };

    ghost view = { λ s. record {
      due = s.path.due;
      net = s.given.net;
      reaction = s.given.reaction;
    } };

    ghost invariant = { λ s. (s.matrix ≡ slope_matrix s.given.net s.given.reaction)
        × (s.path.choices ≡ 1 + length (others s.given.net s.given.reaction)) };
}

impl<'a> SlopeCheck<'a> {
    /// The root of a reaction's tree is due.
    pub fn new(alloc: Global, given: Slopes<'a>) -> Result<SlopeCheck<'a>, NoMemory>
        requires { IsSmallEnough given.net }
        ensures { IfOk result (λ made. made
            ≡ record { due = root; net = given.entry.net; reaction = given.entry.reaction }) }
    {
        let path = Path::new(alloc, given.choices())?;
        let matrix = given.matrix(alloc)?;
        Ok(SlopeCheck {
            path,
            given,
            matrix,
        })
    }

    // Whether a node passes its test at the prefix that is due. Part B requires nothing, so nothing rules it out.
    fn fits(&self, node: &Node) -> bool
        requires due { self.now.due ≢ [] }
        requires numbers { AreNumbersFor (slopes self.now.net self.now.reaction)
            (said_by node.now) }
        ensures { IsTrue result
            ↔ Fits (slopes self.now.net self.now.reaction) (first self.now.due) (said_by node.now) }
    {
        let prefix = self.path.prefix();
        match node {
            Node::Split => prefix.len() < self.given.choices(),
            Node::Flat => self.given.is_closed(prefix),
            Node::CutA(multipliers) => rules_out(&self.given, &self.matrix, prefix, multipliers),
            Node::CutB(_) => false,
        }
    }

    /// Tests a node at the prefix that is due, and takes it if it passes. If not, the check is as before.
    pub fn node(&mut self, node: &Node) -> Result<Step, TreeFault>
        requires due { self.old.due ≢ [] }
        requires numbers { AreNumbersFor (slopes self.old.net self.old.reaction)
            (said_by node.now) }
        ensures gives { NodeGives (slopes self.old.net self.old.reaction) self.old.due
            (said_by node.now) self.new.due result }
        ensures net { self.new.net ≡ self.old.net }
        ensures reaction { self.new.reaction ≡ self.old.reaction }
    {
        if !self.fits(node) {
            return Err(match node {
                Node::Split | Node::Flat => TreeFault::NodeNotAllowed,
                Node::CutA(_) | Node::CutB(_) => TreeFault::BadLeaf,
            });
        }
        match node {
            Node::Split => self.path.open(),
            _ => self.path.close(),
        }
        Ok(if self.path.is_complete() {
            Step::Complete
        } else {
            Step::More
        })
    }
}
