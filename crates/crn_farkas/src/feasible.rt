ghost use Rattle.std.specs.Prelude.{◌≡◌, ◌≢◌, ◌<◌, ◌+◌, ◌⊎◌, ℕ, ℤ, pos, List, true, false, IsTrue, length, slice_index_or, MatchResult, MatchOption, IfErr};
ghost use Rattle.crn_vec.specs.Lists.{IsIn};
ghost use Rattle.crn_vec.specs.Vectors.{entry};
ghost use Rattle.crn_vec.specs.Elementary.{width};
ghost use Rattle.crn_vec.specs.Systems.{kind_at, is_signed};
ghost use Rattle.crn_farkas.specs.Solver.{HasKeptCut, IsCutBy, IsUnsolvable, IsRefusedStop, IsFeasibility};
ghost use Rattle.crn_farkas.specs.Inner.Sums.{HasPartSum};
ghost use Rattle.crn_farkas.specs.Decision.{IsTargetStop};
ghost use Rattle.crn_farkas.specs.Inner.Views.{AreLevels, IsSeen, IsView};

use crate::cut::{Cut, kept_cut};
use crate::fault::Stop;
use crate::feasibility::Feasibility;
use crate::goal::{settled_cut, settled_view};
use crate::level::{column_sign, lead_sign};
use crate::targets::put_levels;
use crate::view::View;
use crn_tab::Tableau;
use crn_vec::{Kind, counts, is_asked, sign_asked};

// Marks the coordinates at which the vectors that the basis names by its member b are not 0.
fn mark(tableau: &Tableau, kinds: &[Kind], marks: &mut [bool], b: usize, g: usize)
    requires kinds { length kinds.now ≡ width tableau.now.matrix }
    requires marks { length marks.old ≡ length kinds.now }
    requires goal { g < width tableau.now.matrix }
    requires asked { is_signed (kind_at kinds.now g) ≡ true }
    requires view { IsView tableau.now.matrix tableau.now.basis (View.Column b) g }
    ensures count { length marks.new ≡ length marks.old }
    ensures marks { (y : List ℤ)
        → IsSeen tableau.now.matrix tableau.now.basis (View.Column b) g (kind_at kinds.now g) y
        → (k : ℕ) → IsTrue (slice_index_or marks.new k false)
        → IsTrue (slice_index_or marks.old k false) ⊎ (entry y k ≢ pos 0) }
{
    let lead = lead_sign(tableau, b, g, sign_asked(kinds[g]));
    for c in 0..kinds.len() {
        if counts(kinds[c], column_sign(tableau, b, lead, c)) {
            marks[c] = true;
        }
    }
}

// Handles one more coordinate that has to be positive or negative, or finds a vector that rules the system out.
fn settle_at(
    tableau: &mut Tableau,
    kinds: &[Kind],
    levels: &[usize],
    marks: &mut [bool],
    g: usize,
) -> Result<Option<Cut>, Stop>
    requires kinds { length kinds.now ≡ width tableau.old.matrix }
    requires marks { length marks.old ≡ length kinds.now }
    requires goal { g < width tableau.old.matrix }
    requires levels { AreLevels (length kinds.now) levels.now }
    requires sum { HasPartSum tableau.old.matrix kinds.now g marks.old }
    ensures matrix { tableau.new.matrix ≡ tableau.old.matrix }
    ensures count { length marks.new ≡ length marks.old }
    ensures end { MatchResult result
        (λ cut.
        MatchOption cut (HasPartSum tableau.new.matrix kinds.now (g + 1) marks.new)
        (λ cut. IsCutBy tableau.new.matrix tableau.new.basis kinds.now cut.row cut.sign))
        (λ s. IsTargetStop tableau.new.matrix kinds.now s) }
    ensures refused { IfErr result (λ s. IsRefusedStop tableau.new.matrix tableau.new.basis s) }
{
    if !is_asked(kinds[g]) {
        return Ok(None);
    }
    if marks[g] {
        return Ok(None);
    }
    match settled_view(tableau, kinds, levels, g)? {
        View::Row => Ok(Some(settled_cut(tableau, kinds, g))),
        View::Column(b) => {
            tableau.names_rows();
            mark(tableau, kinds, marks, b, g);
            Ok(None)
        }
    }
}

// Handles each coordinate that has to be positive or negative, or finds a vector that rules the system out.
fn settle_everywhere(
    tableau: &mut Tableau,
    kinds: &[Kind],
    levels: &[usize],
    marks: &mut [bool],
) -> Result<Option<Cut>, Stop>
    requires kinds { length kinds.now ≡ width tableau.old.matrix }
    requires marks { length marks.old ≡ length kinds.now }
    requires levels { AreLevels (length kinds.now) levels.now }
    requires sum { HasPartSum tableau.old.matrix kinds.now 0 marks.old }
    ensures matrix { tableau.new.matrix ≡ tableau.old.matrix }
    ensures count { length marks.new ≡ length marks.old }
    ensures end { MatchResult result
        (λ cut.
        MatchOption cut (HasPartSum tableau.new.matrix kinds.now (length kinds.now) marks.new)
        (λ cut. IsCutBy tableau.new.matrix tableau.new.basis kinds.now cut.row cut.sign))
        (λ s. IsTargetStop tableau.new.matrix kinds.now s) }
    ensures refused { IfErr result (λ s. IsRefusedStop tableau.new.matrix tableau.new.basis s) }
{
    for g in 0..kinds.len() {
        if let Some(cut) = settle_at(tableau, kinds, levels, marks, g)? {
            return Ok(Some(cut));
        }
    }
    Ok(None)
}

// Whether a system has a solution, by its targets, one after another.
fn by_signs(
    tableau: &mut Tableau,
    kinds: &[Kind],
    level: &mut [usize],
    marks: &mut [bool],
) -> Result<Feasibility, Stop>
    requires kinds { length kinds.now ≡ width tableau.old.matrix }
    requires level { length level.old ≡ width tableau.old.matrix }
    requires marks { length marks.old ≡ width tableau.old.matrix }
    ensures matrix { tableau.new.matrix ≡ tableau.old.matrix }
    ensures count { length marks.new ≡ length marks.old }
    ensures answer { MatchResult result
        (λ d. IsFeasibility tableau.new.matrix tableau.new.basis kinds.now d)
        (λ s. IsTargetStop tableau.new.matrix kinds.now s) }
    ensures refused { IfErr result (λ s. IsRefusedStop tableau.new.matrix tableau.new.basis s) }
{
    put_levels(tableau, level, kinds);
    marks.fill(false);
    match settle_everywhere(tableau, kinds, level, marks)? {
        Some(cut) => Ok(Feasibility::Unsolvable(cut)),
        None => Ok(Feasibility::Solvable),
    }
}

// Whether a system has a solution: a vector that the basis names rules it out, or its targets decide.
pub(crate) fn feasibility(
    tableau: &mut Tableau,
    kinds: &[Kind],
    level: &mut [usize],
    marks: &mut [bool],
) -> Result<Feasibility, Stop>
    requires kinds { length kinds.now ≡ width tableau.old.matrix }
    requires level { length level.old ≡ width tableau.old.matrix }
    requires marks { length marks.old ≡ width tableau.old.matrix }
    ensures matrix { tableau.new.matrix ≡ tableau.old.matrix }
    ensures count { length marks.new ≡ length marks.old }
    ensures answer { MatchResult result
        (λ d. IsFeasibility tableau.new.matrix tableau.new.basis kinds.now d)
        (λ s. IsTargetStop tableau.new.matrix kinds.now s) }
    ensures kept { HasKeptCut tableau.old.matrix tableau.old.basis kinds.now → IsUnsolvable result
        × (tableau.new ≡ tableau.old) }
    ensures refused { IfErr result (λ s. IsRefusedStop tableau.new.matrix tableau.new.basis s) }
{
    match kept_cut(tableau, kinds) {
        Some(cut) => Ok(Feasibility::Unsolvable(cut)),
        None => by_signs(tableau, kinds, level, marks),
    }
}
