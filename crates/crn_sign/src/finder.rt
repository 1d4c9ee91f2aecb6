//! What finds vectors (x, Ax) for a part: its solver, and the vectors that it gave before.

ghost use Rattle.std.specs.Prelude.{◌≡◌, ◌<◌, List, length, IsTrue, IfOk, IfErr, OnOk, MatchOption, MatchResult, true};
ghost use Rattle.crn_vec.specs.Elementary.{width};
ghost use Rattle.crn_vec.specs.Systems.{is_signed, kind_at};
ghost use Rattle.crn_farkas.specs.Decision.{IsTargetStop};
ghost use Rattle.crn_farkas.specs.Solver.{IsCutBy};
ghost use Rattle.crn_sign.specs.Inner.RowSigns.{AreRowSigns};
ghost use Rattle.crn_sign.specs.Inner.Bits.{word_count};
ghost use Rattle.crn_sign.specs.Inner.Marks.{AreRowMarks, kinds_of};
ghost use Rattle.crn_sign.specs.Inner.Parts.{IsFinder};

use crate::bits::{Bits, NONE};
use crate::kinds::KeptKinds;
use crate::marks::{put_opposites, put_signs, word_count};
use crate::pool::Pool;
use crn_farkas::{Alternative, Cut, Solver, Stop};
use crn_vec::{Kind, Matrix, NoMemory, Sign};
use std::alloc::Global;
use std::mem::drop;

/// What finds vectors (x, Ax) of a matrix: a solver, and those that it gave before.
#[derive(Drop)]
pub(crate) struct Finder {
    pub alloc: Global,
    pub solver: Solver,
    pub pool: Pool,
    // The signs of the last vector that the solver wrote, its marks, and those of its negative.
    pub witness_signs: Vec<Sign>,
    pub witness_marks: Vec<Bits>,
    pub negative_marks: Vec<Bits>,
    // The coordinates at which a marked vector does not suit, and what is required of one that changes these.
    pub misfit_coordinates: Vec<usize>,
    pub required_of_change: Vec<Bits>,
    // The kinds of the last question to the solver.
    pub kinds: KeptKinds,
}

// Room for the signs of a vector, for its marks and those of its negative, and for what is required of one
// that changes misfits.
#[derive(Drop)]
struct Lists {
    signs: Vec<Sign>,
    witness: Vec<Bits>,
    negative: Vec<Bits>,
    required: Vec<Bits>,
}

// The lists of a finder that found nothing so far.
fn make_lists(alloc: Global, matrix: &Matrix) -> Result<Lists, NoMemory>
    ensures signs { IfOk result (λ made. length made.signs.items ≡ width matrix.now) }
    ensures witness { IfOk result (λ made. length made.witness.items ≡ word_count matrix.now) }
    ensures negative { IfOk result (λ made. length made.negative.items ≡ word_count matrix.now) }
    ensures required { IfOk result (λ made. length made.required.items ≡ word_count matrix.now) }
{
    let count = matrix.cols() + matrix.rows();
    let words = word_count(matrix);
    Ok(Lists {
        signs: vec![in alloc; Sign::Zero; count]?,
        witness: vec![in alloc; NONE; words]?,
        negative: vec![in alloc; NONE; words]?,
        required: vec![in alloc; NONE; words]?,
    })
}

impl Finder {
    /// What finds vectors of this matrix by a solver that gave none so far.
    pub fn new(alloc: Global, matrix: &Matrix, solver: Solver) -> Result<Finder, NoMemory>
        requires { solver.matrix ≡ matrix.now }
        ensures { IfOk result (λ made. IsFinder matrix.now made) }
    {
        let Ok(pool) = Pool::new(alloc, matrix) else {
            drop(solver);
            return Err(NoMemory);
        };
        let Ok(kinds) = KeptKinds::new(alloc, matrix) else {
            drop(solver);
            drop(pool);
            return Err(NoMemory);
        };
        let Ok(lists) = make_lists(alloc, matrix) else {
            drop(solver);
            drop(pool);
            drop(kinds);
            return Err(NoMemory);
        };
        Ok(Finder {
            alloc,
            solver,
            pool,
            witness_signs: lists.signs,
            witness_marks: lists.witness,
            negative_marks: lists.negative,
            misfit_coordinates: Vec::new(alloc),
            required_of_change: lists.required,
            kinds,
        })
    }

    // Keeps the vector whose signs the solver wrote, and its negative.
    fn keep_witness(&mut self, matrix: &Matrix) -> Result<(), NoMemory>
        requires finder { IsFinder matrix.now self.old }
        requires signs { AreRowSigns matrix.now self.old.witness_signs.items }
        ensures finder { OnOk result (IsFinder matrix.now self.new) }
        ensures ray { OnOk result (AreRowMarks matrix.now self.new.witness_marks.items) }
    {
        put_signs(matrix, &self.witness_signs, &mut self.witness_marks);
        put_opposites(matrix, &self.witness_marks, &mut self.negative_marks);
        self.pool.keep(self.alloc, matrix, &self.witness_marks)?;
        self.pool.keep(self.alloc, matrix, &self.negative_marks)
    }

    /// Asks the solver for a vector that has the sign required at g, or for one by which the system has no solution.
    pub fn ask_witness(
        &mut self,
        matrix: &Matrix,
        weak: &[u64],
        asked: &[Bits],
        g: usize,
    ) -> Result<Option<Cut>, Stop>
        requires finder { IsFinder matrix.now self.old }
        requires long { length asked.now ≡ word_count matrix.now }
        requires goal { g < width matrix.now }
        requires asked { is_signed (kind_at (kinds_of matrix.now weak.now asked.now) g) ≡ true }
        ensures finder { OnOk result (IsFinder matrix.now self.new) }
        ensures answer { MatchResult result
            (λ o. MatchOption o (AreRowMarks matrix.now self.new.witness_marks.items)
            (λ cut. IsCutBy self.new.solver.matrix self.new.solver.basis
            (kinds_of matrix.now weak.now asked.now) cut.row cut.sign))
            (λ s. IsTargetStop matrix.now (kinds_of matrix.now weak.now asked.now) s) }
    {
        self.kinds.ask(matrix, weak, asked);
        match self
            .solver
            .alternative(&self.kinds.kinds, g, &mut self.witness_signs)
        {
            Ok(Alternative::Cut(cut)) => Ok(Some(cut)),
            Ok(Alternative::Witness) => {
                self.keep_witness(matrix)?;
                Ok(None)
            }
            Err(stop) => Err(stop),
        }
    }

    /// Asks the solver for a vector of this kind at g among those that change misfits. The answer is
    /// whether there is one.
    pub fn ask_change(
        &mut self,
        matrix: &Matrix,
        weak: &[u64],
        g: usize,
        kind: Kind,
    ) -> Result<bool, Stop>
        requires finder { IsFinder matrix.now self.old }
        requires goal { g < width matrix.now }
        requires asked { is_signed kind ≡ true }
        ensures finder { OnOk result (IsFinder matrix.now self.new) }
        ensures ray { IfOk result (λ found. IsTrue found
            → AreRowMarks matrix.now self.new.witness_marks.items) }
        ensures stop { IfErr result (λ s. (kinds : List Kind) → IsTargetStop matrix.now kinds s) }
    {
        self.kinds.ask(matrix, weak, &self.required_of_change);
        self.kinds.ask_signed(matrix, g, kind);
        match self
            .solver
            .alternative(&self.kinds.kinds, g, &mut self.witness_signs)
        {
            Ok(Alternative::Witness) => {
                self.keep_witness(matrix)?;
                Ok(true)
            }
            Err(Stop::NoMemory) => Err(Stop::NoMemory),
            _ => Ok(false),
        }
    }
}
