ghost use Rattle.std.specs.Prelude.{◌≡◌, ◌≤◌, length, MatchResult, IfSome};
ghost use Rattle.crn_vec.specs.Systems.{signed_count};
ghost use Rattle.crn_vec.specs.Elementary.{width};
ghost use Rattle.crn_vec.specs.declared.limits.TheConstants.{MAX_SIGNED};
ghost use Rattle.crn_farkas.specs.Decision.{IsDecision, IsStop};

use crate::decision::Decision;
use crate::fault::Stop;
use crate::solver::Solver;
use crn_tab::Tableau;
use crn_vec::{Kind, Matrix};
use std::alloc::Global;

/// A matrix, and a kind for each of its coordinates: the columns x first, and then the rows Ax.
#[derive(Clone, Copy)]
pub struct System<'a> {
    pub matrix: &'a Matrix,
    pub kinds: &'a [Kind],
}

/// Decides a system: a solution, or multipliers that rule every solution out.
pub fn decide(alloc: Global, system: &System) -> Result<Decision, Stop>
    requires kinds { length system.now.kinds.now ≡ width system.now.matrix.now }
    requires few { signed_count system.now.kinds.now ≤ MAX_SIGNED }
    ensures { MatchResult result (λ d. IsDecision system.now.matrix.now system.now.kinds.now d)
        (λ s. IsStop system.now.matrix.now system.now.kinds.now s) }
{
    decide_by(alloc, system, None)
}

/// Decides as `decide` does, but looks for an answer in plain view from the basis of `viewed`, to which other questions on the matrix have
/// led, if one is given.
pub fn decide_by(alloc: Global, system: &System, viewed: Option<Tableau>) -> Result<Decision, Stop>
    requires viewed { IfSome viewed (λ t. t.matrix ≡ system.now.matrix.now) }
    requires kinds { length system.now.kinds.now ≡ width system.now.matrix.now }
    requires few { signed_count system.now.kinds.now ≤ MAX_SIGNED }
    ensures { MatchResult result (λ d. IsDecision system.now.matrix.now system.now.kinds.now d)
        (λ s. IsStop system.now.matrix.now system.now.kinds.now s) }
{
    let mut solver = Solver::new(alloc, system.matrix)?;
    solver.decide_by(viewed, system.kinds)
}
