ghost use Rattle.std.specs.Prelude.{◌≡◌, ◌≤◌, ◌<◌, ◌↔◌, ℕ, true, length, MatchResult, IfErr, IfOk, IfSome};
ghost use Rattle.crn_vec.specs.Lists.{IsIn};
ghost use Rattle.crn_vec.specs.Elementary.{width, IsBasis};
ghost use Rattle.crn_vec.specs.Systems.{HasOneRowCut, is_signed, kind_at, signed_count};
ghost use Rattle.crn_vec.specs.declared.limits.TheConstants.{MAX_SIGNED};
ghost use Rattle.crn_tab.specs.Tableau.{NamesRows};
ghost use Rattle.crn_farkas.specs.Solver.{AreSignsOf, HasKeptCut, IsCutBy, IsAlternative, IsUnsolvable, IsNamedCut, IsNamedDecision, IsNearStop, IsRefusedStop, IsRuledOut, IsFeasibility};
ghost use Rattle.crn_farkas.specs.Decision.{IsDecision, IsTargetStop};
ghost use Rattle.crn_farkas.specs.Inner.Sums.{CanDecide};

use crate::alternative::{Alternative, alternative_at};
use crate::cut::{Cut, kept_cut, multipliers};
use crate::decision::Decision;
use crate::fault::Stop;
use crate::feasibility::Feasibility;
use crate::feasible::feasibility;
use crate::targets::{by_targets, by_view};
use crn_tab::Tableau;
use crn_vec::{Ints, Kind, Matrix, NoMemory, Nums, Sign};
use std::alloc::Global;
use std::marker::Model;

/// A matrix whose systems are decided for one list of kinds after another: each question begins with the basis where the last one ended.
///
/// It keeps a copy of the matrix, and room for all that a decision works in.
#[derive(Drop)]
pub struct Solver {
    tableau: Tableau,
    level: Vec<usize>,
    sum: Vec<i128>,
    work: Vec<i128>,
    marks: Vec<bool>,
}

impl Model for Solver {
    ghost use Rattle.crn_tab.specs.Tableau.{KeptTableau};
    ghost use Rattle.crn_farkas.specs.Solver.{HasRoom};

    ghost Value = { KeptTableau };

    ghost view = { λ s. s.tableau };

    ghost invariant = { λ s. HasRoom s.tableau.matrix
        s.level.items s.sum.items s.work.items s.marks.items };
}

// Decides a system by a vector that the basis names, if one rules it out, or else by what a basis shows or by its targets.
fn answer(
    alloc: Global,
    tableau: &mut Tableau,
    viewed: Option<Tableau>,
    kinds: &[Kind],
    level: &mut [usize],
    sum: &mut [i128],
    work: &mut [i128],
) -> Result<Decision, Stop>
    requires viewed { IfSome viewed (λ t. t.matrix ≡ tableau.old.matrix) }
    requires lists { CanDecide tableau.old.matrix kinds.now level.old sum.old work.old }
    ensures matrix { tableau.new.matrix ≡ tableau.old.matrix }
    ensures answer { MatchResult result (λ d. IsDecision tableau.new.matrix kinds.now d)
        (λ s. IsTargetStop tableau.new.matrix kinds.now s) }
    ensures kept { HasKeptCut tableau.old.matrix tableau.old.basis kinds.now → IsRuledOut result
        × (tableau.new ≡ tableau.old) }
    ensures named { IfOk result (λ d. IsNamedDecision tableau.new.matrix tableau.new.basis d) }
    ensures near { IfErr result (λ s. IsNearStop tableau.new.basis s) }
{
    match kept_cut(tableau, kinds) {
        Some(cut) => Ok(Decision::Infeasible(multipliers(alloc, tableau, kinds, work, &cut)?)),
        None => by_view(alloc, tableau, viewed, kinds, level, sum, work),
    }
}

// Decides a system by a vector that the basis names, if one rules it out, or else by its targets.
fn settled_answer(
    alloc: Global,
    tableau: &mut Tableau,
    kinds: &[Kind],
    level: &mut [usize],
    sum: &mut [i128],
    work: &mut [i128],
) -> Result<Decision, Stop>
    requires lists { CanDecide tableau.old.matrix kinds.now level.old sum.old work.old }
    ensures matrix { tableau.new.matrix ≡ tableau.old.matrix }
    ensures answer { MatchResult result (λ d. IsDecision tableau.new.matrix kinds.now d)
        (λ s. IsTargetStop tableau.new.matrix kinds.now s) }
    ensures kept { HasKeptCut tableau.old.matrix tableau.old.basis kinds.now → IsRuledOut result
        × (tableau.new ≡ tableau.old) }
    ensures named { IfOk result (λ d. IsNamedDecision tableau.new.matrix tableau.new.basis d) }
    ensures near { IfErr result (λ s. IsNearStop tableau.new.basis s) }
{
    match kept_cut(tableau, kinds) {
        Some(cut) => Ok(Decision::Infeasible(multipliers(alloc, tableau, kinds, work, &cut)?)),
        None => by_targets(alloc, tableau, kinds, level, sum, work),
    }
}

impl Solver {
    /// A solver of a matrix, whose basis is the columns. It takes the lists that `decide` works in.
    pub fn new(alloc: Global, matrix: &Matrix) -> Result<Solver, NoMemory>
        ensures matrix { IfOk result (λ made. made.matrix ≡ matrix.now) }
        ensures basis { IfOk result (λ made. (k : ℕ) → IsIn k made.basis ↔ (k < matrix.now.cols)) }
    {
        let count = matrix.cols() + matrix.rows();
        Ok(Solver {
            tableau: Tableau::new(alloc, matrix)?,
            level: vec![in alloc; 0usize; count]?,
            sum: vec![in alloc; 0i128; count]?,
            work: vec![in alloc; 0i128; count]?,
            marks: vec![in alloc; false; count]?,
        })
    }

    /// Decides the system of the kept matrix and these kinds, from the basis where the last question ended.
    ///
    /// A vector of this basis that rules the system out is found at once, and then the basis stays.
    /// Memory is taken for the answer, to name a wide vector, and for a copy of the tableau.
    pub fn decide(&mut self, kinds: &[Kind]) -> Result<Decision, Stop>
        requires kinds { length kinds.now ≡ width self.old.matrix }
        requires few { signed_count kinds.now ≤ MAX_SIGNED }
        ensures matrix { self.new.matrix ≡ self.old.matrix }
        ensures basis { NamesRows self.new.matrix self.new.basis }
        ensures answer { MatchResult result (λ d. IsDecision self.old.matrix kinds.now d)
            (λ s. IsTargetStop self.old.matrix kinds.now s) }
        ensures kept { HasKeptCut self.old.matrix self.old.basis kinds.now → IsRuledOut result
            × (self.new.basis ≡ self.old.basis) }
        ensures from_columns { ((k : ℕ) → IsIn k self.old.basis ↔ (k < self.old.matrix.cols))
            → HasOneRowCut self.old.matrix kinds.now → IsRuledOut result }
        ensures named { IfOk result (λ d. IsNamedDecision self.new.matrix self.new.basis d) }
        ensures near { IfErr result (λ s. IsNearStop self.new.basis s) }
    {
        self.decide_by(None, kinds)
    }

    /// Decides as `decide` does, but looks for an answer in plain view from the basis of `viewed`, if one is given; `viewed` is used up.
    pub fn decide_by(&mut self, viewed: Option<Tableau>, kinds: &[Kind]) -> Result<Decision, Stop>
        requires viewed { IfSome viewed (λ t. t.matrix ≡ self.old.matrix) }
        requires kinds { length kinds.now ≡ width self.old.matrix }
        requires few { signed_count kinds.now ≤ MAX_SIGNED }
        ensures matrix { self.new.matrix ≡ self.old.matrix }
        ensures basis { NamesRows self.new.matrix self.new.basis }
        ensures answer { MatchResult result (λ d. IsDecision self.old.matrix kinds.now d)
            (λ s. IsTargetStop self.old.matrix kinds.now s) }
        ensures kept { HasKeptCut self.old.matrix self.old.basis kinds.now → IsRuledOut result
            × (self.new.basis ≡ self.old.basis) }
        ensures from_columns { ((k : ℕ) → IsIn k self.old.basis ↔ (k < self.old.matrix.cols))
            → HasOneRowCut self.old.matrix kinds.now → IsRuledOut result }
        ensures named { IfOk result (λ d. IsNamedDecision self.new.matrix self.new.basis d) }
        ensures near { IfErr result (λ s. IsNearStop self.new.basis s) }
    {
        let alloc = *self.level.allocator();
        let result = answer(
            alloc,
            &mut self.tableau,
            viewed,
            kinds,
            &mut self.level,
            &mut self.sum,
            &mut self.work,
        );
        self.tableau.names_rows();
        result
    }

    /// Decides as `decide` does, but looks for no answer in plain view: if no vector of this basis rules the system out,
    /// coordinate after coordinate is settled. That is the shorter way if the rows can't enter the basis.
    pub fn settle(&mut self, kinds: &[Kind]) -> Result<Decision, Stop>
        requires kinds { length kinds.now ≡ width self.old.matrix }
        requires few { signed_count kinds.now ≤ MAX_SIGNED }
        ensures matrix { self.new.matrix ≡ self.old.matrix }
        ensures basis { NamesRows self.new.matrix self.new.basis }
        ensures answer { MatchResult result (λ d. IsDecision self.old.matrix kinds.now d)
            (λ s. IsTargetStop self.old.matrix kinds.now s) }
        ensures kept { HasKeptCut self.old.matrix self.old.basis kinds.now → IsRuledOut result
            × (self.new.basis ≡ self.old.basis) }
        ensures from_columns { ((k : ℕ) → IsIn k self.old.basis ↔ (k < self.old.matrix.cols))
            → HasOneRowCut self.old.matrix kinds.now → IsRuledOut result }
        ensures named { IfOk result (λ d. IsNamedDecision self.new.matrix self.new.basis d) }
        ensures near { IfErr result (λ s. IsNearStop self.new.basis s) }
    {
        let alloc = *self.level.allocator();
        let result = settled_answer(
            alloc,
            &mut self.tableau,
            kinds,
            &mut self.level,
            &mut self.sum,
            &mut self.work,
        );
        self.tableau.names_rows();
        result
    }

    /// Whether the system of the kept matrix and these kinds has a solution, from the basis where the last question ended.
    ///
    /// It reads signs alone: no vector is formed, and none has to be below a bound. A vector of this basis that rules
    /// the system out is found at once, and then the basis stays. It takes memory only to name a wide vector.
    pub fn feasibility(&mut self, kinds: &[Kind]) -> Result<Feasibility, Stop>
        requires { length kinds.now ≡ width self.old.matrix }
        ensures matrix { self.new.matrix ≡ self.old.matrix }
        ensures basis { NamesRows self.new.matrix self.new.basis }
        ensures answer { MatchResult result
            (λ d. IsFeasibility self.new.matrix self.new.basis kinds.now d)
            (λ s. IsTargetStop self.old.matrix kinds.now s) }
        ensures kept { HasKeptCut self.old.matrix self.old.basis kinds.now → IsUnsolvable result
            × (self.new.basis ≡ self.old.basis) }
        ensures from_columns { ((k : ℕ) → IsIn k self.old.basis ↔ (k < self.old.matrix.cols))
            → HasOneRowCut self.old.matrix kinds.now → IsUnsolvable result }
        ensures refused { IfErr result (λ s. IsRefusedStop self.new.matrix self.new.basis s) }
    {
        let result = feasibility(&mut self.tableau, kinds, &mut self.level, &mut self.marks);
        self.tableau.names_rows();
        result
    }

    /// Which of the two vectors a coordinate has that has to be positive or negative, counted from 0, and the signs of that vector.
    ///
    /// Exactly one of the two is there, of any size. It forms no vector, and takes memory only to name a wide one.
    pub fn alternative(
        &mut self,
        kinds: &[Kind],
        g: usize,
        signs: &mut [Sign],
    ) -> Result<Alternative, Stop>
        requires kinds { length kinds.now ≡ width self.old.matrix }
        requires signs { length signs.old ≡ length kinds.now }
        requires goal { g < length kinds.now }
        requires asked { is_signed (kind_at kinds.now g) ≡ true }
        ensures matrix { self.new.matrix ≡ self.old.matrix }
        ensures basis { NamesRows self.new.matrix self.new.basis }
        ensures count { length signs.new ≡ length signs.old }
        ensures answer { IfOk result
            (λ d. IsAlternative self.new.matrix self.new.basis kinds.now g signs.new d) }
        ensures refused { IfErr result (λ s. IsRefusedStop self.new.matrix self.new.basis s) }
    {
        let result = alternative_at(&mut self.tableau, kinds, &mut self.level, g, signs);
        self.tableau.names_rows();
        result
    }

    /// The multipliers of the vector by which `feasibility` or `alternative` has found that the system has no solution, and the signs
    /// of this vector. It takes memory for the multipliers.
    pub fn multipliers(
        &mut self,
        kinds: &[Kind],
        cut: &Cut,
        signs: &mut [Sign],
    ) -> Result<Ints, NoMemory>
        requires kinds { length kinds.now ≡ width self.old.matrix }
        requires signs { length signs.old ≡ width self.old.matrix }
        requires cut { IsCutBy self.old.matrix self.old.basis kinds.now cut.now.row cut.now.sign }
        ensures same { self.new ≡ self.old }
        ensures named { IfOk result
            (λ u. IsNamedCut self.new.matrix self.new.basis kinds.now u.list) }
        ensures count { length signs.new ≡ length signs.old }
        ensures signs { IfOk result (λ u. AreSignsOf self.new.matrix u.list signs.new) }
    {
        let alloc = *self.level.allocator();
        self.tableau.put_signs(cut.row, cut.sign, signs);
        multipliers(alloc, &self.tableau, kinds, &mut self.work, cut)
    }

    /// The coordinates of the kept basis, ascending and counted from 0, while `Stop::Wide` counts from 1.
    pub fn basis(&self) -> Result<Nums, NoMemory>
        ensures list { IfOk result (λ made. made.list ≡ self.now.basis) }
        ensures is { IsBasis self.now.matrix self.now.basis }
    {
        self.tableau.names_rows();
        self.tableau.basis()
    }
}
