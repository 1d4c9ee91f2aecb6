ghost use Rattle.std.specs.Prelude.{◌≡◌, ◌≤◌, ◌<◌, ◌+◌, ◌⊎◌, length, take, MatchResult, MatchOption, IfErr, IfOk, IfSome, OnOk};
ghost use Rattle.crn_vec.specs.Elementary.{width};
ghost use Rattle.crn_vec.specs.declared.limits.TheConstants.{MAX_COORDINATES};
ghost use Rattle.crn_farkas.specs.Decision.{IsSmallSolution, IsDecision, IsTargetStop};
ghost use Rattle.crn_farkas.specs.Inner.Views.{AreLevels};
ghost use Rattle.crn_farkas.specs.Solver.{IsNamedCut, IsNamedDecision, IsNearStop};
ghost use Rattle.crn_farkas.specs.Inner.Sums.{AreZeros, CanDecide, IsDeciding, IsPartSum};

use crate::columns::in_view;
use crate::decision::Decision;
use crate::fault::Stop;
use crate::goal::{Part, part_of};
use crate::sum::add;
use crn_tab::Tableau;
use crn_vec::{Ints, Kind, NoMemory, is_asked};
use std::alloc::Global;

// Makes the sum not 0 at one more coordinate that has to be positive or negative, or finds multipliers.
fn target(
    alloc: Global,
    tableau: &mut Tableau,
    kinds: &[Kind],
    levels: &[usize],
    sum: &mut [i128],
    work: &mut [i128],
    g: usize,
) -> Result<Option<Ints>, Stop>
    requires goal { g < width tableau.old.matrix }
    requires lists { IsDeciding tableau.old.matrix kinds.now levels.now g sum.old work.old }
    ensures matrix { tableau.new.matrix ≡ tableau.old.matrix }
    ensures work { OnOk result (length work.new ≡ length work.old) }
    ensures end { MatchResult result
        (λ cut.
        MatchOption cut (IsPartSum tableau.new.matrix kinds.now (g + 1) sum.new)
        (λ u. IsNamedCut tableau.new.matrix tableau.new.basis kinds.now u.list))
        (λ s. IsTargetStop tableau.new.matrix kinds.now s) }
    ensures near { IfErr result (λ s. IsNearStop tableau.new.basis s) }
{
    if !is_asked(kinds[g]) {
        return Ok(None);
    }
    if sum[g] != 0 {
        return Ok(None);
    }
    match part_of(alloc, tableau, kinds, levels, work, g)? {
        Part::Cut(cut) => Ok(Some(cut)),
        Part::Witness { stays } => {
            add(sum, work, stays);
            Ok(None)
        }
    }
}

// Makes the sum not 0 at each coordinate that has to be positive or negative, or finds multipliers.
fn targets(
    alloc: Global,
    tableau: &mut Tableau,
    kinds: &[Kind],
    levels: &[usize],
    sum: &mut [i128],
    work: &mut [i128],
) -> Result<Option<Ints>, Stop>
    requires lists { IsDeciding tableau.old.matrix kinds.now levels.now 0 sum.old work.old }
    ensures matrix { tableau.new.matrix ≡ tableau.old.matrix }
    ensures end { MatchResult result
        (λ cut.
        MatchOption cut (IsPartSum tableau.new.matrix kinds.now (length kinds.now) sum.new)
        (λ u. IsNamedCut tableau.new.matrix tableau.new.basis kinds.now u.list))
        (λ s. IsTargetStop tableau.new.matrix kinds.now s) }
    ensures near { IfErr result (λ s. IsNearStop tableau.new.basis s) }
{
    for g in 0..kinds.len() {
        if let Some(cut) = target(alloc, tableau, kinds, levels, sum, work, g)? {
            return Ok(Some(cut));
        }
    }
    Ok(None)
}

// The level of coordinate c of this kind, of this many coordinates: those that are zero or free are settled first, as they
// cross at most once.
fn level_of(kind: Kind, c: usize, count: usize) -> usize
    requires inside { c < count }
    requires few { count ≤ MAX_COORDINATES }
    ensures { (result ≡ c) ⊎ (result ≡ count + c) }
{
    match kind {
        Kind::Zero | Kind::Free => c,
        _ => count + c,
    }
}

// Puts the levels of coordinates of these kinds.
pub(crate) fn put_levels(tableau: &Tableau, level: &mut [usize], kinds: &[Kind])
    requires kinds { length kinds.now ≡ width tableau.now.matrix }
    requires level { length level.old ≡ length kinds.now }
    ensures { AreLevels (length kinds.now) level.new }
{
    tableau.names_rows();
    for c in 0..kinds.len() {
        level[c] = level_of(kinds[c], c, kinds.len());
    }
}

// Puts a zero at each place.
pub(crate) fn put_zeros(sum: &mut [i128])
    ensures { AreZeros (length sum.old) sum.new }
{
    sum.fill(0);
}

// The part of a sum that the columns have.
pub(crate) fn columns_of(alloc: Global, tableau: &Tableau, sum: &[i128]) -> Result<Ints, NoMemory>
    requires { length sum.now ≡ width tableau.now.matrix }
    ensures { IfOk result (λ x. x.list ≡ take tableau.now.matrix.cols sum.now) }
{
    let (prefix, _) = sum.split_at(tableau.cols());
    let columns = Ints::from_slice(alloc, prefix)?;
    Ok(columns)
}

// Decides a system by its targets, one after another, from the basis where the last question left the tableau.
pub(crate) fn by_targets(
    alloc: Global,
    tableau: &mut Tableau,
    kinds: &[Kind],
    level: &mut [usize],
    sum: &mut [i128],
    work: &mut [i128],
) -> Result<Decision, Stop>
    requires lists { CanDecide tableau.old.matrix kinds.now level.old sum.old work.old }
    ensures matrix { tableau.new.matrix ≡ tableau.old.matrix }
    ensures answer { MatchResult result (λ d. IsDecision tableau.new.matrix kinds.now d)
        (λ s. IsTargetStop tableau.new.matrix kinds.now s) }
    ensures named { IfOk result (λ d. IsNamedDecision tableau.new.matrix tableau.new.basis d) }
    ensures near { IfErr result (λ s. IsNearStop tableau.new.basis s) }
{
    put_levels(tableau, level, kinds);
    put_zeros(sum);
    match targets(alloc, tableau, kinds, level, sum, work)? {
        Some(cut) => Ok(Decision::Infeasible(cut)),
        None => Ok(Decision::Feasible(columns_of(alloc, tableau, sum)?)),
    }
}

// Decides a system by what a basis shows, that of `viewed` or else the kept one, or else by its targets.
pub(crate) fn by_view(
    alloc: Global,
    tableau: &mut Tableau,
    viewed: Option<Tableau>,
    kinds: &[Kind],
    level: &mut [usize],
    sum: &mut [i128],
    work: &mut [i128],
) -> Result<Decision, Stop>
    requires viewed { IfSome viewed (λ t. t.matrix ≡ tableau.old.matrix) }
    requires lists { CanDecide tableau.old.matrix kinds.now level.old sum.old work.old }
    ensures matrix { tableau.new.matrix ≡ tableau.old.matrix }
    ensures answer { MatchResult result (λ d. IsDecision tableau.new.matrix kinds.now d)
        (λ s. IsTargetStop tableau.new.matrix kinds.now s) }
    ensures named { IfOk result (λ d. IsNamedDecision tableau.new.matrix tableau.new.basis d) }
    ensures near { IfErr result (λ s. IsNearStop tableau.new.basis s) }
{
    if let Some(decision) = in_view(alloc, tableau, viewed, kinds, sum, work)? {
        return Ok(decision);
    }
    by_targets(alloc, tableau, kinds, level, sum, work)
}
