ghost use Rattle.std.specs.Prelude.{◌≡◌, ◌≢◌, ◌<◌, ◌*◌, ◌++◌, ◌∷◌, [], ℕ, length, IfOk};
ghost use Rattle.crn_vec.specs.Elementary.{width};
ghost use Rattle.crn_vec.specs.Signals.{shelf_kinds, shelf_matrix};
ghost use Rattle.crn_vec.specs.Systems.{kind_at};
ghost use Rattle.crn_vec.specs.declared.signs.Kind.{Kind};
ghost use Rattle.crn_sign.specs.Options.{kind_in, word_count};
ghost use Rattle.crn_shelf.specs.Inner.Choices.{AreChoices, AreJoined, IsAdded, IsChoice, added_by, added_kind, joined};

use crate::kinds::asked_of_kind;
use crn_shape::Shape;
use crn_sign::{Bits, NONE, put_asked, word_count};
use crn_vec::{Kind, Matrix, NoMemory, Sign};
use std::alloc::Global;

/// What each option of a choice adds to what is required of part A, by words: what it requires of the
/// coordinates of which the choices before require nothing.
#[derive(Drop)]
pub(crate) struct Choice {
    pub zero: Vec<Bits>,
    pub plus: Vec<Bits>,
    pub minus: Vec<Bits>,
}

impl Choice {
    /// What an option adds.
    pub fn added(&self, option: Sign) -> &[Bits]
        ensures { result.now ≡ added_by self.now option }
    {
        match option {
            Sign::Zero => &self.zero,
            Sign::Plus => &self.plus,
            Sign::Minus => &self.minus,
        }
    }
}

// What the last option of a prefix adds to the kind of a coordinate.
fn added_kind(shape: &Shape, before: &[Sign], prefix: &[Sign], k: usize) -> Kind
    requires { k < width (shelf_matrix shape.now) }
    ensures { result ≡ added_kind (kind_at (shelf_kinds shape.now before.now) k)
        (kind_at (shelf_kinds shape.now prefix.now) k) }
{
    match shape.kind(before, k) {
        Kind::Free => shape.kind(prefix, k),
        _ => Kind::Free,
    }
}

// Requires a kind of a coordinate of which nothing is required.
fn put_kind(words: &mut [Bits], k: usize, kind: Kind)
    requires inside { k < length words.old * 64 }
    requires free { kind_in words.old k ≡ Kind.Free }
    requires kind { kind ≢ Kind.NonNeg }
    ensures count { length words.new ≡ length words.old }
    ensures here { kind_in words.new k ≡ kind }
    ensures others { (j : ℕ) → j ≢ k → kind_in words.new j ≡ kind_in words.old j }
{
    match kind {
        Kind::Free => {}
        _ => put_asked(words, k, asked_of_kind(kind)),
    }
}

// Requires of each coordinate what the last option of a prefix adds.
fn put_added(shape: &Shape, matrix: &Matrix, before: &[Sign], prefix: &[Sign], words: &mut [Bits])
    requires matrix { matrix.now ≡ shelf_matrix shape.now }
    requires count { length words.old ≡ word_count matrix.now }
    requires free { (j : ℕ) → kind_in words.old j ≡ Kind.Free }
    ensures count { length words.new ≡ word_count matrix.now }
    ensures added { (k : ℕ) → k < width matrix.now → kind_in words.new k
        ≡ added_kind (kind_at (shelf_kinds shape.now before.now) k)
        (kind_at (shelf_kinds shape.now prefix.now) k) }
{
    let count = matrix.cols() + matrix.rows();
    for k in 0..count {
        put_kind(words, k, added_kind(shape, before, prefix, k));
    }
}

// A prefix with one option more.
fn longer(alloc: Global, before: &[Sign], option: Sign) -> Result<Vec<Sign>, NoMemory>
    ensures { IfOk result (λ made. made.items ≡ before.now ++ option ∷ []) }
{
    let mut prefix = Vec::from_slice(alloc, before)?;
    prefix.push(option)?;
    Ok(prefix)
}

// What an option adds after these, and after any others.
fn added(
    alloc: Global,
    shape: &Shape,
    matrix: &Matrix,
    before: &[Sign],
    option: Sign,
) -> Result<Vec<Bits>, NoMemory>
    requires { matrix.now ≡ shelf_matrix shape.now }
    ensures { IfOk result (λ made. IsAdded shape.now (length before.now) option made.items) }
{
    let prefix = longer(alloc, before, option)?;
    let mut words = vec![in alloc; NONE; word_count(matrix)]?;
    put_added(shape, matrix, before, &prefix, &mut words);
    Ok(words)
}

// What the options of a choice add.
fn choice_after(
    alloc: Global,
    shape: &Shape,
    matrix: &Matrix,
    before: &[Sign],
) -> Result<Choice, NoMemory>
    requires { matrix.now ≡ shelf_matrix shape.now }
    ensures { IfOk result (λ made. IsChoice shape.now (length before.now) made) }
{
    Ok(Choice {
        zero: added(alloc, shape, matrix, before, Sign::Zero)?,
        plus: added(alloc, shape, matrix, before, Sign::Plus)?,
        minus: added(alloc, shape, matrix, before, Sign::Minus)?,
    })
}

/// What the options of the first choice add, those of the second, and so on, to all.
pub(crate) fn choices_of(
    alloc: Global,
    shape: &Shape,
    matrix: &Matrix,
) -> Result<Vec<Choice>, NoMemory>
    requires { matrix.now ≡ shelf_matrix shape.now }
    ensures { IfOk result (λ made. AreChoices shape.now made.items) }
{
    let count = shape.choices();
    let mut made = Vec::with_capacity(alloc, count)?;
    let mut before = Vec::with_capacity(alloc, count)?;
    for _ in 0..count {
        made.push(choice_after(alloc, shape, matrix, &before)?)?;
        before.push(Sign::Plus)?;
    }
    Ok(made)
}

// What both require.
fn joined(one: Bits, other: Bits) -> Bits
    ensures { result ≡ joined one other }
{
    Bits {
        plus: one.plus | other.plus,
        minus: one.minus | other.minus,
    }
}

/// Puts what is required with one option more into both lists, given what is required without it and
/// what it adds.
pub(crate) fn put_joined(above: &[Bits], added: &[Bits], sums: &mut [Bits], asked: &mut [Bits])
    requires added { length added.now ≡ length above.now }
    requires sums { length sums.old ≡ length above.now }
    requires asked { length asked.old ≡ length above.now }
    ensures sums { AreJoined above.now added.now sums.new }
    ensures asked { AreJoined above.now added.now asked.new }
{
    for w in 0..above.len() {
        let word = joined(above[w], added[w]);
        sums[w] = word;
        asked[w] = word;
    }
}
