ghost use Rattle.std.specs.Prelude.{◌≡◌, ◌<◌, ℕ, ℤ, true, length, MatchResult, IfOk, IfErr, OnOk};
ghost use Rattle.crn_vec.specs.Lists.{IsIn};
ghost use Rattle.crn_vec.specs.Elementary.{width};
ghost use Rattle.crn_vec.specs.Systems.{HasKind, kind_at, is_signed};
ghost use Rattle.crn_vec.specs.Vectors.{HasSign};
ghost use Rattle.crn_farkas.specs.Solver.{IsCutBy, IsRefusedStop};
ghost use Rattle.crn_farkas.specs.Inner.Sums.{IsGoalStop, IsPart};
ghost use Rattle.crn_farkas.specs.Inner.Views.{AreLevels, IsView, IsRightEverywhere};
ghost use Rattle.crn_tab.specs.Tableau.{IsRefused};

use crate::cut::{Cut, multipliers, stays};
use crate::fault::Stop;
use crate::settle::settle;
use crate::view::View;
use crn_tab::{Refused, Tableau};
use crn_vec::{Ints, Kind, sign_asked};
use std::alloc::Global;

/// Which part of the alternative holds at the goal: the one coordinate that has to be positive or negative for which a vector is sought.
#[derive(Drop)]
pub(crate) enum Part {
    /// Multipliers that rule the system out.
    Cut(Ints),
    /// The lent list has a vector (x, Ax) whose multiple by 1, or by -1 if `stays` is false, is right everywhere and not 0 at the coordinate.
    Witness { stays: bool },
}

// The vector (x, Ax) that a settled view shows.
fn witness(
    tableau: &Tableau,
    kinds: &[Kind],
    work: &mut [i128],
    b: usize,
    g: usize,
) -> Result<Part, Stop>
    requires kinds { length kinds.now ≡ width tableau.now.matrix }
    requires goal { g < width tableau.now.matrix }
    requires asked { is_signed (kind_at kinds.now g) ≡ true }
    requires view { IsView tableau.now.matrix tableau.now.basis (View.Column b) g }
    requires right { IsRightEverywhere tableau.now.matrix tableau.now.basis (View.Column b) g
        kinds.now }
    requires work { length work.old ≡ width tableau.now.matrix }
    ensures work { OnOk result (length work.new ≡ length work.old) }
    ensures part { MatchResult result
        (λ part. IsPart tableau.now.matrix tableau.now.basis kinds.now g work.new part)
        (λ s. IsGoalStop tableau.now.matrix tableau.now.basis s) }
{
    tableau.names_rows();
    if let Err(_) = tableau.put_column(b, work) {
        return Err(Stop::Wide {
            index: b as u32 + 1,
            basis: tableau.basis_after(b, b)?,
        });
    }
    let stays = stays(&work[g], sign_asked(kinds[g]));
    Ok(Part::Witness { stays })
}

// Settles all coordinates for one that has to be positive or negative, and gives the view that is settled. Levels are
// below twice their count.
pub(crate) fn settled_view(
    tableau: &mut Tableau,
    kinds: &[Kind],
    levels: &[usize],
    g: usize,
) -> Result<View, Stop>
    requires kinds { length kinds.now ≡ width tableau.old.matrix }
    requires goal { g < width tableau.old.matrix }
    requires asked { is_signed (kind_at kinds.now g) ≡ true }
    requires levels { AreLevels (length kinds.now) levels.now }
    ensures matrix { tableau.new.matrix ≡ tableau.old.matrix }
    ensures view { IfOk result (λ view. IsView tableau.new.matrix tableau.new.basis view g) }
    ensures right { IfOk result
        (λ view. IsRightEverywhere tableau.new.matrix tableau.new.basis view g kinds.now) }
    ensures refused { IfErr result (λ s. IsRefusedStop tableau.new.matrix tableau.new.basis s) }
{
    let mut view = first_view(tableau, g);
    tableau.names_rows();
    let end = kinds.len() + kinds.len();
    if let Err(refused) = settle(tableau, &mut view, kinds, levels, g, end) {
        return Err(refused_stop(tableau, &refused));
    }
    Ok(view)
}

// What an exchange that was refused stops with.
fn refused_stop(tableau: &Tableau, refused: &Refused) -> Stop
    requires { IsRefused tableau.now.matrix tableau.now.basis refused.now.leave refused.now.enter
        refused.now.index }
    ensures { IsRefusedStop tableau.now.matrix tableau.now.basis result }
{
    match tableau.basis_after(refused.leave, refused.enter) {
        Ok(basis) => Stop::Wide {
            index: refused.index,
            basis,
        },
        Err(_) => Stop::NoMemory,
    }
}

// The cut that a settled view of a row shows.
pub(crate) fn settled_cut(_tableau: &Tableau, kinds: &[Kind], g: usize) -> Cut
    requires kinds { length kinds.now ≡ width _tableau.now.matrix }
    requires goal { g < width _tableau.now.matrix }
    requires asked { is_signed (kind_at kinds.now g) ≡ true }
    requires view { IsView _tableau.now.matrix _tableau.now.basis View.Row g }
    requires right { IsRightEverywhere _tableau.now.matrix _tableau.now.basis View.Row g kinds.now }
    ensures cut { IsCutBy _tableau.now.matrix _tableau.now.basis kinds.now result.row result.sign }
    ensures row { result.row ≡ g }
    ensures sign { (x : ℤ) → HasKind (kind_at kinds.now g) x → HasSign result.sign x }
{
    Cut {
        row: g,
        sign: sign_asked(kinds[g]),
    }
}

// Which part of the alternative holds at one coordinate that has to be positive or negative.
pub(crate) fn part_of(
    alloc: Global,
    tableau: &mut Tableau,
    kinds: &[Kind],
    levels: &[usize],
    work: &mut [i128],
    g: usize,
) -> Result<Part, Stop>
    requires kinds { length kinds.now ≡ width tableau.old.matrix }
    requires goal { g < width tableau.old.matrix }
    requires asked { is_signed (kind_at kinds.now g) ≡ true }
    requires levels { AreLevels (length kinds.now) levels.now }
    requires work { length work.old ≡ width tableau.old.matrix }
    ensures matrix { tableau.new.matrix ≡ tableau.old.matrix }
    ensures work { OnOk result (length work.new ≡ length work.old) }
    ensures part { MatchResult result
        (λ part. IsPart tableau.new.matrix tableau.new.basis kinds.now g work.new part)
        (λ s. IsGoalStop tableau.new.matrix tableau.new.basis s) }
{
    match settled_view(tableau, kinds, levels, g)? {
        View::Row => {
            let cut = settled_cut(tableau, kinds, g);
            Ok(Part::Cut(multipliers(alloc, tableau, kinds, work, &cut)?))
        }
        View::Column(b) => witness(tableau, kinds, work, b, g),
    }
}

// The view of a basis for a coordinate that nothing was exchanged for yet.
fn first_view(tableau: &Tableau, g: usize) -> View
    requires { g < width tableau.now.matrix }
    ensures { IsView tableau.now.matrix tableau.now.basis result g }
{
    tableau.names_rows();
    if tableau.is_basic(g) {
        View::Column(g)
    } else {
        View::Row
    }
}
