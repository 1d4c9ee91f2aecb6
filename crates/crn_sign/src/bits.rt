ghost use Rattle.std.specs.Prelude.{◌≡◌, ◌≢◌, ◌<◌, ◌≤◌, ◌+◌, ◌*◌, ℕ, length};
ghost use Rattle.std.specs.Int.{bit_at};
ghost use Rattle.crn_vec.specs.Systems.{one_if};
ghost use Rattle.crn_sign.specs.Options.{IsPut, bit_of, word_of};
ghost use Rattle.crn_sign.specs.Inner.Bits.{IsMarked, mark_at, mark_in, mark_of};

use crate::marks::Mark;
use crate::problem::Asked;
use crn_vec::NoMemory;

/// The marks of 64 coordinates: where a number may be positive, and where it may be negative. A
/// coordinate of neither is 0, and one of both has any sign.
///
/// The signs of a vector are such marks, and so are the kinds that are required, in which a coordinate of
/// neither is free and one of both is 0.
#[derive(Clone, Copy)]
pub struct Bits {
    /// The coordinates that may be positive.
    pub plus: u64,
    /// The coordinates that may be negative.
    pub minus: u64,
}

/// The marks of 64 coordinates that are 0.
pub const NONE: Bits = Bits { plus: 0, minus: 0 };

// The mark of a bit that says plus and one that says minus.
fn mark_of(plus: u64, minus: u64) -> Mark
    ensures { result ≡ mark_of plus minus }
{
    match (plus, minus) {
        (0, 0) => Mark::Zero,
        (0, _) => Mark::Minus,
        (_, 0) => Mark::Plus,
        _ => Mark::Any,
    }
}

/// The mark of one of 64 coordinates.
pub(crate) fn mark_in(bits: Bits, i: usize) -> Mark
    requires { i < 64 }
    ensures { result ≡ mark_in bits i }
{
    mark_of((bits.plus >> i) & 1, (bits.minus >> i) & 1)
}

// The word with a bit that is 1.
fn with_bit(word: u64, i: usize) -> u64
    requires { i < 64 }
    ensures set { bit_at result i ≡ 1 }
    ensures others { (j : ℕ) → j ≢ i → bit_at result j ≡ bit_at word j }
{
    word | (1 << i)
}

/// The word with a bit that is 0.
pub(crate) fn without_bit(word: u64, i: usize) -> u64
    requires { i < 64 }
    ensures less { result ≤ word }
    ensures clear { bit_at result i ≡ 0 }
    ensures others { (j : ℕ) → j < 64 → j ≢ i → bit_at result j ≡ bit_at word j }
{
    word & !(1 << i)
}

/// The marks of 64 coordinates with another one at one of them.
pub(crate) fn with_mark(bits: Bits, i: usize, mark: Mark) -> Bits
    requires { i < 64 }
    ensures here { mark_in result i ≡ mark }
    ensures others { (j : ℕ) → j < 64 → j ≢ i → mark_in result j ≡ mark_in bits j }
{
    match mark {
        Mark::Zero => Bits {
            plus: without_bit(bits.plus, i),
            minus: without_bit(bits.minus, i),
        },
        Mark::Plus => Bits {
            plus: with_bit(bits.plus, i),
            minus: without_bit(bits.minus, i),
        },
        Mark::Minus => Bits {
            plus: without_bit(bits.plus, i),
            minus: with_bit(bits.minus, i),
        },
        Mark::Any => Bits {
            plus: with_bit(bits.plus, i),
            minus: with_bit(bits.minus, i),
        },
    }
}

// The word with a bit that is 1 or 0.
fn put_bit(word: u64, i: usize, is_set: bool) -> u64
    requires { i < 64 }
    ensures here { bit_at result i ≡ one_if is_set }
    ensures others { (j : ℕ) → j < 64 → j ≢ i → bit_at result j ≡ bit_at word j }
{
    if is_set {
        with_bit(word, i)
    } else {
        without_bit(word, i)
    }
}

// The words of 64 coordinates with what is required of one of them.
fn with_asked(bits: Bits, i: usize, asked: Asked) -> Bits
    requires { i < 64 }
    ensures plus { bit_at result.plus i ≡ one_if asked.plus }
    ensures minus { bit_at result.minus i ≡ one_if asked.minus }
    ensures others { (j : ℕ) → j < 64 → j ≢ i → (bit_at result.plus j ≡ bit_at bits.plus j)
        × (bit_at result.minus j ≡ bit_at bits.minus j) }
{
    Bits {
        plus: put_bit(bits.plus, i, asked.plus),
        minus: put_bit(bits.minus, i, asked.minus),
    }
}

/// Requires this of a coordinate.
pub fn put_asked(words: &mut [Bits], k: usize, asked: Asked)
    requires { k < length words.old * 64 }
    ensures { IsPut words.old k asked words.new }
{
    words[k / 64] = with_asked(words[k / 64], k % 64, asked);
}

/// A word of a list, 0 past its end.
pub(crate) fn word_of(words: &[u64], w: usize) -> u64
    ensures { result ≡ word_of words.now w }
{
    if w < words.len() { words[w] } else { 0 }
}

/// The bit of one of 64 coordinates.
pub(crate) fn bit_in(word: u64, i: usize) -> u64
    requires { i < 64 }
    ensures { result ≡ bit_at word i }
{
    (word >> i) & 1
}

/// The bit of a coordinate.
pub(crate) fn bit_of(words: &[u64], k: usize) -> u64
    ensures { result ≡ bit_of words.now k }
{
    bit_in(word_of(words, k / 64), k % 64)
}

/// Makes a coordinate weak.
pub fn put_weak(words: &mut [u64], k: usize)
    requires { k < length words.old * 64 }
    ensures count { length words.new ≡ length words.old }
    ensures here { bit_of words.new k ≡ 1 }
    ensures others { (j : ℕ) → j ≢ k → bit_of words.new j ≡ bit_of words.old j }
{
    words[k / 64] = with_bit(words[k / 64], k % 64);
}

/// The mark of a coordinate.
pub(crate) fn mark_at(words: &[Bits], k: usize) -> Mark
    requires { k < length words.now * 64 }
    ensures { result ≡ mark_at words.now k }
{
    mark_in(words[k / 64], k % 64)
}

/// Puts the mark of a coordinate.
pub(crate) fn put_mark(words: &mut [Bits], k: usize, mark: Mark)
    requires { k < length words.old * 64 }
    ensures { IsMarked words.old k mark words.new }
{
    words[k / 64] = with_mark(words[k / 64], k % 64, mark);
}

/// Lists the coordinates of a word whose bits are 1, in order.
pub(crate) fn push_places(places: &mut Vec<usize>, first: usize, bits: u64) -> Result<(), NoMemory>
    requires { first ≤ 65536 }
{
    let mut rest = bits;
    'bits: while rest != 0 {
        places.push(first + rest.trailing_zeros() as usize)?;
        rest = rest & (rest - 1);
    }
    Ok(())
}
