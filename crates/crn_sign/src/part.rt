//! A part of a sign problem: whether its system at a prefix has a solution, or which multipliers rule it out.

ghost use Rattle.std.specs.Prelude.{◌≡◌, ◌≤◌, ℤ, List, length, IsTrue, IfOk, OnOk, MatchResult, false};
ghost use Rattle.crn_vec.specs.Systems.{IsSolution, signed_count};
ghost use Rattle.crn_vec.specs.declared.limits.TheConstants.{MAX_SIGNED};
ghost use Rattle.crn_farkas.specs.Decision.{IsSmallCut, IsSmallSolution, IsTargetStop};
ghost use Rattle.crn_farkas.specs.Solver.{IsCutBy};
ghost use Rattle.crn_sign.specs.Inner.Bits.{word_count};
ghost use Rattle.crn_sign.specs.Inner.Marks.{AreRowMarks, AreSuited, kinds_of};
ghost use Rattle.crn_sign.specs.Inner.Parts.{IsPart, IsRuling};
ghost use Rattle.crn_sign.specs.Inner.PastCuts.{IsKnown};
ghost use Rattle.crn_sign.specs.Inner.Places.{IsPlace};

use crate::bits::Bits;
use crate::finder::Finder;
use crate::past::{Known, Past, PastCuts, empty_cuts, keep_cut, known_again, share};
use crate::place::{Place, is_met};
use crn_farkas::{Cut, Decision, Feasibility, Solver, Stop};
use crn_vec::{Ints, Matrix, NoMemory, cuts_exclude_solutions};
use std::alloc::Global;
use std::mem::drop;
use std::rc::Rc;

/// What finds vectors for a part, and multipliers that ruled its systems out, by the lengths of their prefixes.
///
/// The part has decided once the solver was asked about a system and did not stop.
#[derive(Drop)]
pub(crate) struct Part {
    pub finder: Finder,
    pub past_cuts: Vec<PastCuts>,
    pub has_decided: bool,
}

impl Part {
    /// A part with nothing found before, for prefixes of at most this many choices.
    pub fn new(
        alloc: Global,
        matrix: &Matrix,
        solver: Solver,
        choices: usize,
    ) -> Result<Part, NoMemory>
        requires { solver.matrix ≡ matrix.now }
        ensures { IfOk result (λ made. IsPart matrix.now made) }
    {
        let Ok(past_cuts) = empty_cuts(alloc, matrix, choices) else {
            drop(solver);
            return Err(NoMemory);
        };
        Ok(Part {
            finder: Finder::new(alloc, matrix, solver)?,
            past_cuts,
            has_decided: false,
        })
    }

    // Whether multipliers that ruled out a system of a prefix of this length, or their negatives, rule this
    // system out. A prefix's length alone says which of its coordinates are settled.
    #[inline(always)]
    fn past_cut(
        &mut self,
        matrix: &Matrix,
        weak: &[u64],
        asked: &[Bits],
        depth: usize,
        keeps: bool,
    ) -> Result<Known, NoMemory>
        requires part { IsPart matrix.now self.old }
        requires asked { length asked.now ≡ word_count matrix.now }
        ensures part { IsPart matrix.now self.new }
        ensures known { IfOk result (λ known. IsKnown matrix.now
            (kinds_of matrix.now weak.now asked.now) keeps known) }
    {
        if depth < self.past_cuts.len() && !self.past_cuts[depth].trials.is_empty() {
            return known_again(matrix, weak, asked, &mut self.past_cuts[depth], keeps);
        }
        Ok(Known::Open)
    }

    // The multipliers of the vector by which the system has no solution. They are kept.
    fn keep_multipliers(
        &mut self,
        matrix: &Matrix,
        weak: &[u64],
        asked: &[Bits],
        cut: &Cut,
        depth: usize,
    ) -> Result<Rc<Ints>, NoMemory>
        requires part { IsPart matrix.now self.old }
        requires asked { length asked.now ≡ word_count matrix.now }
        requires cut { IsCutBy self.old.finder.solver.matrix self.old.finder.solver.basis
            (kinds_of matrix.now weak.now asked.now) cut.now.row cut.now.sign }
        ensures part { OnOk result (IsPart matrix.now self.new) }
        ensures cut { IfOk result
            (λ u. IsSmallCut matrix.now (kinds_of matrix.now weak.now asked.now) u.value.list) }
    {
        let finder = &mut self.finder;
        finder.kinds.ask(matrix, weak, asked);
        let kinds = &finder.kinds.kinds;
        let u = finder
            .solver
            .multipliers(kinds, cut, &mut finder.witness_signs)?;
        let past = Past::new(finder.alloc, matrix, kinds, &finder.witness_signs, u)?;
        let u = share(&past.multipliers)?;
        keep_cut(&mut self.past_cuts, matrix, past, depth)?;
        Ok(u)
    }

    // Changes the marked vector until it suits the kinds, or finds multipliers that rule the system
    // out.
    #[inline(never)]
    fn decide_system(
        &mut self,
        matrix: &Matrix,
        weak: &[u64],
        asked: &[Bits],
        marks: &mut [Bits],
        suits: &mut bool,
        depth: usize,
    ) -> Result<Option<Rc<Ints>>, Stop>
        requires part { IsPart matrix.now self.old }
        requires asked { length asked.now ≡ word_count matrix.now }
        requires marks { AreRowMarks matrix.now marks.old }
        requires open { suits.old ≡ false }
        ensures part { OnOk result (IsPart matrix.now self.new) }
        ensures marks { OnOk result (AreRowMarks matrix.now marks.new) }
        ensures suits { OnOk result
            (IsTrue suits.new → AreSuited (kinds_of matrix.now weak.now asked.now) marks.new) }
        ensures answer { MatchResult result
            (λ u. IsRuling matrix.now (kinds_of matrix.now weak.now asked.now) u)
            (λ s. IsTargetStop matrix.now (kinds_of matrix.now weak.now asked.now) s) }
    {
        if let Some(cut) = self.finder.fit_marks(matrix, weak, asked, marks)? {
            return Ok(Some(self.keep_multipliers(matrix, weak, asked, &cut, depth)?));
        }
        if is_met(matrix, weak, asked, marks) {
            *suits = true;
            return Ok(None);
        }
        self.finder.kinds.ask(matrix, weak, asked);
        match self.finder.solver.feasibility(&self.finder.kinds.kinds)? {
            Feasibility::Solvable => Ok(None),
            Feasibility::Unsolvable(cut) => {
                Ok(Some(self.keep_multipliers(matrix, weak, asked, &cut, depth)?))
            }
        }
    }

    /// Whether past multipliers rule the system of a prefix of this length out, and a reference to them if they
    /// are to be kept.
    #[inline(always)]
    pub fn known_cut(
        &mut self,
        matrix: &Matrix,
        weak: &[u64],
        place: &Place,
        depth: usize,
        keeps: bool,
    ) -> Result<Known, NoMemory>
        requires part { IsPart matrix.now self.old }
        requires asked { length place.now.asked.items ≡ word_count matrix.now }
        ensures part { IsPart matrix.now self.new }
        ensures known { IfOk result (λ known. IsKnown matrix.now
            (kinds_of matrix.now weak.now place.now.asked.items) keeps known) }
    {
        if place.suits {
            return Ok(Known::Open);
        }
        let known = self.past_cut(matrix, weak, &place.asked, depth, keeps)?;
        Ok(known)
    }

    /// Multipliers that rule the system of a prefix of this length out, or none if it has a solution.
    ///
    /// If the marks of the vector that served one level above do not suit, it changes that vector by past
    /// ones, and by the solver for the rest.
    #[inline(always)]
    pub fn ruled_out(
        &mut self,
        matrix: &Matrix,
        weak: &[u64],
        place: &mut Place,
        depth: usize,
    ) -> Result<Option<Rc<Ints>>, Stop>
        requires part { IsPart matrix.now self.old }
        requires place { IsPlace matrix.now weak.now place.old }
        ensures part { OnOk result (IsPart matrix.now self.new) }
        ensures place { OnOk result (IsPlace matrix.now weak.now place.new) }
        ensures asked { OnOk result (place.new.asked.items ≡ place.old.asked.items) }
        ensures answer { MatchResult result
            (λ u. IsRuling matrix.now (kinds_of matrix.now weak.now place.old.asked.items) u)
            (λ s. IsTargetStop matrix.now (kinds_of matrix.now weak.now place.old.asked.items) s) }
    {
        if place.suits {
            place.has_solution(matrix, weak);
            return Ok(None);
        }
        if self
            .finder
            .give_kept_signs(matrix, weak, &place.asked, &mut place.marks)
        {
            place.suits = true;
            place.has_solution(matrix, weak);
            return Ok(None);
        }
        let u = self.decide_system(
            matrix,
            weak,
            &place.asked,
            &mut place.marks,
            &mut place.suits,
            depth,
        )?;
        self.has_decided = true;
        Ok(u)
    }

    /// A solution of the system with these kinds, which has one.
    pub fn solution(&mut self, matrix: &Matrix, weak: &[u64], asked: &[Bits]) -> Result<Ints, Stop>
        requires part { IsPart matrix.now self.old }
        requires asked { length asked.now ≡ word_count matrix.now }
        requires few { signed_count (kinds_of matrix.now weak.now asked.now) ≤ MAX_SIGNED }
        requires some { (x : List ℤ)
            × IsSolution matrix.now (kinds_of matrix.now weak.now asked.now) x }
        ensures part { OnOk result (IsPart matrix.now self.new) }
        ensures answer { MatchResult result
            (λ x. IsSmallSolution matrix.now (kinds_of matrix.now weak.now asked.now) x.list)
            (λ s. IsTargetStop matrix.now (kinds_of matrix.now weak.now asked.now) s) }
    {
        self.finder.kinds.ask(matrix, weak, asked);
        cuts_exclude_solutions();
        match self.finder.solver.decide(&self.finder.kinds.kinds) {
            Ok(Decision::Feasible(x)) => Ok(x),
            Ok(Decision::Infeasible(_)) => unreachable!(),
            Err(stop) => Err(stop),
        }
    }
}
