ghost use Rattle.std.specs.Prelude.{◌≡◌, ◌<◌, ◌*◌, ◌++◌, ◌∷◌, ℤ, List, [], length, IfOk, IsTrue};
ghost use Rattle.crn_vec.specs.declared.signs.Sign.{Sign};
ghost use Rattle.crn_vec.specs.Problems.{IsPrefix, IsLawful};
ghost use Rattle.crn_vec.specs.Systems.{IsSolution};
ghost use Rattle.crn_vec.specs.Elementary.{width};
ghost use Rattle.crn_sign.specs.Options.{IsPut, word_count};
ghost use Rattle.crn_sign.specs.Inner.Marks.{AreRowMarks, AreSuited, kinds_of};
ghost use Rattle.crn_sign.specs.Inner.Places.{HasRoom, IsAround, IsAsked, IsFor, IsHere, IsPlace, IsSettledAt, IsSettling};

use crate::bits::{Bits, NONE, put_asked};
use crate::marks::{all_meet, put_zeros, word_count};
use crate::problem::{Asked, SignProblem};
use crn_vec::{Matrix, NoMemory, Sign};
use std::alloc::Global;

/// What a part knows at a prefix: what its kinds require, the marks of a vector (x, Ax), and whether
/// these are known to suit the kinds. The width is the number of coordinates.
#[derive(Drop)]
pub(crate) struct Place {
    pub width: usize,
    pub asked: Vec<Bits>,
    pub marks: Vec<Bits>,
    pub suits: bool,
}

impl Place {
    /// A place with room for the coordinates of a matrix.
    pub fn new(alloc: Global, matrix: &Matrix) -> Result<Place, NoMemory>
        ensures { IfOk result (λ made. HasRoom matrix.now made) }
    {
        Ok(Place {
            width: matrix.cols() + matrix.rows(),
            asked: vec![in alloc; NONE; word_count(matrix)]?,
            marks: vec![in alloc; NONE; word_count(matrix)]?,
            suits: false,
        })
    }

    /// A place whose marks suit its kinds has a solution.
    pub fn has_solution(&self, _matrix: &Matrix, _weak: &[u64])
        requires place { IsPlace _matrix.now _weak.now self.now }
        requires suits { IsTrue self.now.suits }
        ensures { (x : List ℤ)
            × IsSolution _matrix.now (kinds_of _matrix.now _weak.now self.now.asked.items) x }
    {}

    /// Takes over what was required one level above.
    pub fn ask_as(&mut self, above: &Place)
        requires { length self.old.asked.items ≡ length above.now.asked.items }
        ensures width { self.new.width ≡ self.old.width }
        ensures asked { self.new.asked.items ≡ above.now.asked.items }
        ensures marks { self.new.marks.items ≡ self.old.marks.items }
    {
        self.asked.copy_from_slice(&above.asked);
    }

    /// Takes over the marks one level above.
    pub fn take(&mut self, _matrix: &Matrix, _weak: &[u64], above: &Place)
        requires here { IsFor _matrix.now _weak.now above.now self.old }
        requires above { AreRowMarks _matrix.now above.now.marks.items }
        ensures here { IsPlace _matrix.now _weak.now self.new }
        ensures asked { self.new.asked.items ≡ self.old.asked.items }
    {
        self.marks.copy_from_slice(&above.marks);
    }

    // Marks the vector 0.
    fn forget(&mut self, matrix: &Matrix)
        requires { length self.old.marks.items ≡ word_count matrix.now }
        ensures width { self.new.width ≡ self.old.width }
        ensures asked { self.new.asked.items ≡ self.old.asked.items }
        ensures marks { AreRowMarks matrix.now self.new.marks.items }
    {
        put_zeros(matrix, &mut self.marks);
    }

    // Requires this of a coordinate.
    fn put(&mut self, k: usize, asked: Asked)
        requires { k < length self.old.asked.items * 64 }
        ensures width { self.new.width ≡ self.old.width }
        ensures asked { IsPut self.old.asked.items k asked self.new.asked.items }
        ensures marks { self.new.marks.items ≡ self.old.marks.items }
    {
        put_asked(&mut self.asked, k, asked);
    }

    /// Notes whether the marks one level above suit what is required here.
    #[inline(always)]
    pub fn look(&mut self, matrix: &Matrix, weak: &[u64], above: &Place)
        requires room { HasRoom matrix.now self.old }
        requires above { AreRowMarks matrix.now above.now.marks.items }
        ensures here { IsFor matrix.now weak.now above.now self.new }
        ensures asked { self.new.asked.items ≡ self.old.asked.items }
    {
        self.suits = is_met(matrix, weak, &self.asked, &above.marks);
    }
}

/// Whether the marks suit what is required, so that the system has a solution.
#[inline(always)]
pub(crate) fn is_met(_matrix: &Matrix, weak: &[u64], asked: &[Bits], marks: &[Bits]) -> bool
    requires asked { length asked.now ≡ word_count _matrix.now }
    requires marks { AreRowMarks _matrix.now marks.now }
    ensures suits { IsTrue result → AreSuited (kinds_of _matrix.now weak.now asked.now) marks.now }
    ensures solved { IsTrue result
        → (x : List ℤ) × IsSolution _matrix.now (kinds_of _matrix.now weak.now asked.now) x }
{
    all_meet(asked, weak, marks)
}

// Requires of a coordinate of part B what a prefix requires.
fn settle_one_b<P: SignProblem>(problem: &P, prefix: &[Sign], k: usize, place: &mut Place)
    requires prefix { IsPrefix (P.signed problem.now) prefix.now }
    requires room { HasRoom (P.signed problem.now).matrix_b place.old }
    ensures { IsSettledAt (P.signed problem.now).matrix_b
        ((P.signed problem.now).kinds_b prefix.now) k place.old place.new }
{
    if k >= place.width {
        return;
    }
    let asked = problem.asked_b(prefix, k);
    place.put(k, asked);
}

// Requires of the coordinates of part B that its last choice settles what a prefix requires.
fn settle_b<P: SignProblem>(problem: &P, prefix: &[Sign], settled: &[usize], place: &mut Place)
    requires lawful { IsLawful (P.signed problem.now) }
    requires prefix { IsPrefix (P.signed problem.now) prefix.now }
    requires place { IsSettling (P.signed problem.now).matrix_b
        ((P.signed problem.now).kinds_b prefix.now) settled.now place.old }
    ensures { IsAsked (P.signed problem.now).matrix_b []
        ((P.signed problem.now).kinds_b prefix.now) place.new }
{
    for i in 0..settled.len() {
        settle_one_b(problem, prefix, settled[i], place);
    }
}

/// Requires of part B what a prefix requires. Before, it required what the prefix without its last choice does, or one
/// with another last choice.
pub(crate) fn enter_b<P: SignProblem>(problem: &P, prefix: &[Sign], here: &mut Place)
    requires lawful { IsLawful (P.signed problem.now) }
    requires prefix { IsPrefix (P.signed problem.now) prefix.now }
    requires here { (p : List Sign) × (s : Sign) × (prefix.now ≡ p ++ s ∷ [])
        × IsAround (P.signed problem.now).matrix_b (P.signed problem.now).kinds_b p here.old }
    ensures { IsAsked (P.signed problem.now).matrix_b []
        ((P.signed problem.now).kinds_b prefix.now) here.new }
{
    settle_b(problem, prefix, problem.settled_b(prefix.len()), here);
}

/// What part A knows at the prefix with no choice, and the sums of that prefix.
pub(crate) fn begin_a<P: SignProblem>(problem: &P, sums: &mut [Bits], here: &mut Place)
    requires lawful { IsLawful (P.signed problem.now) }
    requires sums { length sums.old ≡ word_count (P.signed problem.now).matrix_a }
    requires room { HasRoom (P.signed problem.now).matrix_a here.old }
    ensures count { length sums.new ≡ length sums.old }
    ensures sums { P.are_sums problem.now [] sums.new }
    ensures here { IsHere (P.signed problem.now).matrix_a (P.weak problem.now)
        ((P.signed problem.now).kinds_a []) here.new }
{
    here.forget(problem.matrix_a());
    problem.begin_a(sums, &mut here.asked);
    here.suits = false;
}

/// What part B knows at the prefix with no choice.
pub(crate) fn begin_b<P: SignProblem>(problem: &P, here: &mut Place)
    requires lawful { IsLawful (P.signed problem.now) }
    requires room { HasRoom (P.signed problem.now).matrix_b here.old }
    ensures { IsHere (P.signed problem.now).matrix_b []
        ((P.signed problem.now).kinds_b []) here.new }
{
    here.forget(problem.matrix_b());
    for k in 0..here.width {
        settle_one_b(problem, &[], k, here);
    }
    here.suits = false;
}
