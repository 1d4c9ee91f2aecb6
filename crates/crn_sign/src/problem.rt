ghost use Rattle.std.specs.Prelude.{◌≡◌, ◌≤◌, ◌<◌, ◌++◌, ◌∷◌, [], ℕ, List, length, IfOk};
ghost use Rattle.std.specs.List.{range_with_len};
ghost use Rattle.crn_vec.specs.Concordance.{kind_of_sign};
ghost use Rattle.crn_vec.specs.Elementary.{width};
ghost use Rattle.crn_vec.specs.Problems.{Signed, IsPrefix, IsLawful};
ghost use Rattle.crn_vec.specs.Systems.{kind_at};
ghost use Rattle.crn_vec.specs.declared.signs.Sign.{Sign};
ghost use Rattle.crn_sign.specs.declared.bits.Bits.{Bits};
ghost use Rattle.crn_sign.specs.Options.{AskKindsBy, asked_kind, word_count};
ghost use Rattle.crn_sign.specs.Settled.{SettlesOnly};

use crate::bits::Bits;
use crn_vec::{Matrix, NoMemory, Sign};
use std::alloc::Global;

/// The coordinates of a part with this matrix, counted from 0.
pub fn coordinates(alloc: Global, matrix: &Matrix) -> Result<Vec<usize>, NoMemory>
    ensures { IfOk result (λ made. made.items ≡ range_with_len 0 (width matrix.now)) }
{
    let count = matrix.cols() + matrix.rows();
    let mut made = Vec::with_capacity(alloc, count)?;
    for k in 0..count {
        made.push(k)?;
    }
    Ok(made)
}

/// What is required of a coordinate: a number of the sign that is set, 0 if both are, or nothing.
#[derive(Clone, Copy)]
pub struct Asked {
    /// A positive number, or 0.
    pub plus: bool,
    /// A negative number, or 0.
    pub minus: bool,
}

/// Nothing is required.
pub const FREE: Asked = Asked {
    plus: false,
    minus: false,
};

/// What requires a number of a sign.
pub fn asked_of_sign(sign: Sign) -> Asked
    ensures { asked_kind result ≡ kind_of_sign sign }
{
    Asked {
        plus: sign != Sign::Minus,
        minus: sign != Sign::Plus,
    }
}

/// Choices of signs one after another, each of which fixes more of two linear systems.
///
/// A prefix has the options of the first choices. No method takes memory.
pub trait SignProblem {
    /// The problem as contracts see it.
    ghost signed: { Self → Signed };

    /// Whether words are the sums of a prefix: what the problem keeps of its options, so that those of a prefix with one option
    /// more are made of them.
    ghost are_sums: { Self → List Sign → List Bits → Type 0 };

    /// The bits of the coordinates of part A that are weak: of them plus requires no more than a number at least 0.
    ghost weak: { Self → List ℕ };

    /// The number of choices. Its contract has the laws that each search depends on.
    fn length(&self) -> usize
        ensures choices { result ≡ (signed self.now).choices }
        ensures lawful { IsLawful (signed self.now) };

    /// The matrix of part A.
    fn matrix_a(&self) -> &Matrix
        ensures { result.now ≡ (signed self.now).matrix_a };

    /// The matrix of part B.
    fn matrix_b(&self) -> &Matrix
        ensures { result.now ≡ (signed self.now).matrix_b };

    /// The coordinates of part A that are weak, by words.
    fn weak_a(&self) -> &[u64]
        ensures { result.now ≡ weak self.now };

    /// Puts what the prefix with no option requires of part A, and its sums.
    fn begin_a(&self, sums: &mut [Bits], asked: &mut [Bits])
        requires sums { length sums.old ≡ word_count (signed self.now).matrix_a }
        requires asked { length asked.old ≡ word_count (signed self.now).matrix_a }
        ensures count { length sums.new ≡ length sums.old }
        ensures sums { are_sums self.now [] sums.new }
        ensures asked { AskKindsBy (signed self.now).matrix_a (weak self.now)
            ((signed self.now).kinds_a []) asked.new };

    /// Puts what a prefix requires of part A, and its sums, given those of the prefix without its last option.
    fn settle_a(&self, prefix: &[Sign], above: &[Bits], sums: &mut [Bits], asked: &mut [Bits])
        requires prefix { IsPrefix (signed self.now) prefix.now }
        requires above { (p : List Sign) × (s : Sign) × (prefix.now ≡ p ++ s ∷ [])
            × are_sums self.now p above.now }
        requires long { length above.now ≡ word_count (signed self.now).matrix_a }
        requires sums { length sums.old ≡ word_count (signed self.now).matrix_a }
        requires asked { length asked.old ≡ word_count (signed self.now).matrix_a }
        ensures count { length sums.new ≡ length sums.old }
        ensures sums { are_sums self.now prefix.now sums.new }
        ensures asked { AskKindsBy (signed self.now).matrix_a (weak self.now)
            ((signed self.now).kinds_a prefix.now) asked.new };

    /// What a prefix requires of a coordinate of part B, counted from 0.
    fn asked_b(&self, prefix: &[Sign], k: usize) -> Asked
        requires prefix { IsPrefix (signed self.now) prefix.now }
        requires inside { k < width (signed self.now).matrix_b }
        ensures { kind_at ((signed self.now).kinds_b prefix.now) k ≡ asked_kind result };

    /// The coordinates of part B whose kinds may change with the last option of a prefix of this many choices, in any order. The
    /// list may also have others.
    fn settled_b(&self, choices: usize) -> &[usize]
        ensures { SettlesOnly (signed self.now).kinds_b (width (signed self.now).matrix_b)
            choices result.now };

    /// Whether the options alone exclude that the prefix, or one that it begins, is feasible.
    fn closed(&self, prefix: &[Sign]) -> bool
        requires { IsPrefix (signed self.now) prefix.now }
        ensures { result ≡ (signed self.now).closed prefix.now };
}
