ghost use Rattle.std.specs.Prelude.{◌≡◌, ◌<◌, length, true, IsTrue, ◌↔◌};
ghost use Rattle.crn_vec.specs.Problems.{all_zero};
ghost use Rattle.crn_cert.specs.Nodes.{AreNumbersFor, Fits};
ghost use Rattle.crn_ctree.specs.Gives.{said_by};
ghost use Rattle.crn_ctree.specs.Problem.{problem_of};

use crate::cut::{Part, rules_out};
use crate::problem::Problem;
use crn_net::Network;
use crn_vec::{Sign, is_all_zero};

/// A node of a tree, as a line says it.
#[derive(Clone, Copy)]
pub enum Node<'a> {
    /// The children of the prefix follow.
    Split,
    /// The prefix is closed.
    Flat,
    /// The multipliers rule part A of the prefix out.
    CutA(&'a [i128]),
    /// The multipliers rule part B of the prefix out.
    CutB(&'a [i128]),
}

/// Whether more nodes are due.
#[derive(Clone, Copy, Debug, PartialEq, Eq)]
pub enum Step {
    /// Some prefix is still due.
    More,
    /// Nothing is due: the tree is valid.
    Complete,
}

// The number of choices of a problem.
pub(crate) fn choices(net: &Network, problem: Problem) -> usize
    ensures { result ≡ (problem_of net.now problem.entry).choices }
{
    match problem {
        Problem::Concordance(_) => net.species(),
        Problem::Signals(shape) => shape.choices(),
    }
}

// Whether a prefix is not full.
fn is_not_full(net: &Network, problem: Problem, prefix: &[Sign]) -> bool
    ensures { IsTrue result ↔ (length prefix.now < (problem_of net.now problem.entry).choices) }
{
    prefix.len() < choices(net, problem)
}

// Whether a prefix of all species is of zeros only.
fn is_all_nought(net: &Network, prefix: &[Sign]) -> bool
    ensures { IsTrue result
        ↔ ((length prefix.now ≡ length net.now.names) × (all_zero prefix.now ≡ true)) }
{
    prefix.len() == net.species() && is_all_zero(prefix)
}

// Whether a prefix is closed.
fn is_closed(net: &Network, problem: Problem, prefix: &[Sign]) -> bool
    ensures { IsTrue result ↔ IsTrue ((problem_of net.now problem.entry).closed prefix.now) }
{
    match problem {
        Problem::Concordance(_) => is_all_nought(net, prefix),
        Problem::Signals(shape) => shape.is_closed(prefix),
    }
}

// Whether a node passes its test at a prefix.
pub(crate) fn fits(net: &Network, problem: Problem, prefix: &[Sign], node: &Node) -> bool
    requires { AreNumbersFor (problem_of net.now problem) (said_by node.now) }
    ensures { IsTrue result
        ↔ Fits (problem_of net.now problem.entry) prefix.now (said_by node.now) }
{
    match node {
        Node::Split => is_not_full(net, problem, prefix),
        Node::Flat => is_closed(net, problem, prefix),
        Node::CutA(multipliers) => rules_out(net, problem, Part::A, prefix, multipliers),
        Node::CutB(multipliers) => rules_out(net, problem, Part::B, prefix, multipliers),
    }
}
