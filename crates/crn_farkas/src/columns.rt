ghost use Rattle.std.specs.Prelude.{◌≡◌, ◌<◌, IfOk, IfSome, length};
ghost use Rattle.crn_vec.specs.Elementary.{width};
ghost use Rattle.crn_vec.specs.Lists.{IsIn};
ghost use Rattle.crn_farkas.specs.Decision.{IsDecision};
ghost use Rattle.crn_farkas.specs.Solver.{IsNamedDecision};
ghost use Rattle.crn_farkas.specs.Inner.Sums.{IsShown};

use crate::cut::{Cut, kept_cut, multipliers};
use crate::decision::Decision;
use crate::targets::columns_of;
use crate::units::{by_units, lowest, most_help};
use crn_tab::Tableau;
use crn_vec::{Kind, NoMemory};
use std::alloc::Global;

/// What a basis shows of a system.
#[derive(Clone, Copy)]
pub(crate) enum Shown {
    /// Its members, each with the number that its kind requires, make a solution.
    Solution,
    /// A vector that it names rules the system out.
    Cut(Cut),
    Nothing,
}

// Makes an exchange, if it can be made.
fn exchange(tableau: &mut Tableau, leave: usize, enter: usize) -> bool
    requires leave { IsIn leave tableau.old.basis }
    requires inside { enter < width tableau.old.matrix }
    requires outside { IsIn enter tableau.old.basis → ⊥ }
    ensures { tableau.new.matrix ≡ tableau.old.matrix }
{
    if tableau.entry(enter, leave).num() == 0 {
        return false;
    }
    tableau.pivot(leave, enter).is_ok()
}

// Exchanges a coordinate that is below what its kind requires for the member that helps it most. False if there is no such exchange.
fn improve(tableau: &mut Tableau, kinds: &[Kind], work: &mut [i128], e: usize) -> bool
    requires kinds { length kinds.now ≡ width tableau.old.matrix }
    requires work { length work.old ≡ length kinds.now }
    requires inside { e < width tableau.old.matrix }
    requires outside { IsIn e tableau.old.basis → ⊥ }
    ensures { tableau.new.matrix ≡ tableau.old.matrix }
{
    match most_help(tableau, kinds, work, e) {
        None => false,
        Some(b) => exchange(tableau, b, e),
    }
}

// What a basis shows, after some exchanges. If an answer is found, it is mostly after fewer exchanges than an eighth of the number of coordinates.
fn first_shown(tableau: &mut Tableau, kinds: &[Kind], sum: &mut [i128], work: &mut [i128]) -> Shown
    requires kinds { length kinds.now ≡ width tableau.old.matrix }
    requires sum { length sum.old ≡ length kinds.now }
    requires work { length work.old ≡ length kinds.now }
    ensures matrix { tableau.new.matrix ≡ tableau.old.matrix }
    ensures shown { IsShown tableau.new.matrix tableau.new.basis kinds.now sum.new result }
{
    for _round in 0..kinds.len() / 4 {
        if let Some(cut) = kept_cut(tableau, kinds) {
            return Shown::Cut(cut);
        }
        match lowest(tableau, kinds, sum) {
            None => {
                if by_units(tableau, kinds, sum) {
                    return Shown::Solution;
                }
                return Shown::Nothing;
            }
            Some(e) => {
                if !improve(tableau, kinds, work, e) {
                    return Shown::Nothing;
                }
            }
        }
    }
    Shown::Nothing
}

// The tableau that is given, or else a copy of the kept one.
fn trial_of(tableau: &Tableau, viewed: Option<Tableau>) -> Result<Tableau, NoMemory>
    requires { IfSome viewed (λ t. t.matrix ≡ tableau.now.matrix) }
    ensures { IfOk result (λ t. t.matrix ≡ tableau.now.matrix) }
{
    match viewed {
        Some(trial) => Ok(trial),
        None => tableau.copy(),
    }
}

/// An answer in plain view, with the rows in the basis as far as they go: a vector that it names by a coordinate outside
/// rules the system out, or its members, each with 1 or -1 as its kind requires, make a solution. If neither is so, coordinates that have to be positive
/// or negative are exchanged for one another, a few times.
///
/// The exchanges are those of `viewed`, or else of a copy, which is kept if it shows a cut. So a search that begins where no answer is in plain view has
/// the basis that it had before.
pub(crate) fn in_view(
    alloc: Global,
    tableau: &mut Tableau,
    viewed: Option<Tableau>,
    kinds: &[Kind],
    sum: &mut [i128],
    work: &mut [i128],
) -> Result<Option<Decision>, NoMemory>
    requires viewed { IfSome viewed (λ t. t.matrix ≡ tableau.old.matrix) }
    requires kinds { length kinds.now ≡ width tableau.old.matrix }
    requires sum { length sum.old ≡ length kinds.now }
    requires work { length work.old ≡ length kinds.now }
    ensures matrix { tableau.new.matrix ≡ tableau.old.matrix }
    ensures sum { length sum.new ≡ length sum.old }
    ensures work { length work.new ≡ length work.old }
    ensures answer { IfOk result
        (λ d. IfSome d (λ d. IsDecision tableau.new.matrix kinds.now d
        × IsNamedDecision tableau.new.matrix tableau.new.basis d)) }
{
    let mut trial = trial_of(tableau, viewed)?;
    if trial.enter_rows(trial.cols()).is_err() {
        return Ok(None);
    }
    match first_shown(&mut trial, kinds, sum, work) {
        Shown::Nothing => Ok(None),
        Shown::Solution => Ok(Some(Decision::Feasible(columns_of(alloc, tableau, sum)?))),
        Shown::Cut(cut) => {
            *tableau = trial;
            let u = multipliers(alloc, tableau, kinds, work, &cut)?;
            Ok(Some(Decision::Infeasible(u)))
        }
    }
}
