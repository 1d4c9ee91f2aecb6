ghost use Rattle.std.specs.Prelude.{◌≡◌, ◌+◌, ◌*◌, ◌<◌, ℕ, false, length, IfOk, IsFalse};
ghost use Rattle.crn_vec.specs.Concordance.{is_minus, is_plus};
ghost use Rattle.crn_vec.specs.Systems.{one_if};
ghost use Rattle.crn_sign.specs.Options.{IsPut, minus_at, plus_at, sign_at};
ghost use Rattle.crn_conc.specs.Inner.Columns.{AreChosen, AreSettled, AreSettledBelow, AreSignsOf, signs_at};
ghost use Rattle.crn_conc.specs.Inner.Rows.{IsLast};

use crate::influence::Influence;
use crn_sign::{Asked, Bits, FREE, NONE, put_asked, word_count};
use crn_vec::{Matrix, NoMemory, Sign};
use std::alloc::Global;

/// What the coordinates of part A depend on after this many choices, by words: the signs of the species
/// that was chosen last, and which coordinates are settled, as no other species has a sign there.
#[derive(Drop)]
pub(crate) struct Chosen {
    pub signs: Vec<Bits>,
    pub settled: Vec<Bits>,
}

// The sign of the species that is the last of `choices` for a coordinate.
fn last_sign_at(table: &Influence, k: usize, choices: usize) -> Sign
    ensures { (d : ℕ) → d + 1 ≡ choices → result ≡ sign_at (signs_at table.now k) d }
{
    if k >= table.reactions() {
        return Sign::Zero;
    }
    let signs = table.row(k);
    if choices == 0 {
        return Sign::Zero;
    }
    if choices > signs.len() {
        return Sign::Zero;
    }
    signs[choices - 1]
}

// How many choices settle a coordinate.
fn settling(table: &Influence, k: usize) -> usize
    ensures { IsLast (signs_at table.now k) result }
{
    if k >= table.reactions() {
        return 0;
    }
    table.last(k)
}

// The bits of a sign.
fn bits_of_sign(sign: Sign) -> Asked
    ensures plus { result.plus ≡ is_plus sign }
    ensures minus { result.minus ≡ is_minus sign }
{
    match sign {
        Sign::Zero => FREE,
        Sign::Plus => Asked {
            plus: true,
            minus: false,
        },
        Sign::Minus => Asked {
            plus: false,
            minus: true,
        },
    }
}

// Whether anything is required.
fn asks(asked: Asked) -> bool
    ensures plus { IsFalse result → asked.plus ≡ false }
    ensures minus { IsFalse result → asked.minus ≡ false }
{
    asked.plus || asked.minus
}

// Requires this of a coordinate, if that is new.
fn put_new(words: &mut [Bits], k: usize, is_new: bool, asked: Asked)
    requires place { k < length words.old * 64 }
    requires plus { IsFalse is_new → plus_at words.old k ≡ one_if asked.plus }
    requires minus { IsFalse is_new → minus_at words.old k ≡ one_if asked.minus }
    ensures { IsPut words.old k asked words.new }
{
    if is_new {
        put_asked(words, k, asked);
    }
}

// The signs of the species that is the last of `choices`, for each coordinate.
fn signs_by(
    alloc: Global,
    matrix: &Matrix,
    table: &Influence,
    choices: usize,
) -> Result<Vec<Bits>, NoMemory>
    ensures { IfOk result (λ made. (d : ℕ) → d + 1 ≡ choices
        → AreSignsOf matrix.now table.now d made.items) }
{
    let mut words = vec![in alloc; NONE; word_count(matrix)]?;
    let count = matrix.cols() + matrix.rows();
    for k in 0..count {
        let asked = bits_of_sign(last_sign_at(table, k, choices));
        put_new(&mut words, k, asks(asked), asked);
    }
    Ok(words)
}

// Adds the coordinates that are settled after `choices` to those that are settled after fewer.
fn settle(words: &mut [Bits], matrix: &Matrix, table: &Influence, choices: usize)
    requires { AreSettledBelow matrix.now table.now choices words.old }
    ensures { AreSettled matrix.now table.now choices words.new }
{
    let count = matrix.cols() + matrix.rows();
    let asked = Asked {
        plus: true,
        minus: true,
    };
    for k in 0..count {
        if choices != settling(table, k) {
            continue;
        }
        put_asked(words, k, asked);
    }
}

/// What the coordinates of part A depend on after no choice, after one, and so on, to all.
pub(crate) fn columns_by_choice(
    alloc: Global,
    matrix: &Matrix,
    table: &Influence,
) -> Result<Vec<Chosen>, NoMemory>
    ensures { IfOk result (λ made. AreChosen matrix.now table.now made.items) }
{
    let count = matrix.rows() + 1;
    let mut made = Vec::with_capacity(alloc, count)?;
    let mut settled = vec![in alloc; NONE; word_count(matrix)]?;
    for choices in 0..count {
        settle(&mut settled, matrix, table, choices);
        made.push(Chosen {
            signs: signs_by(alloc, matrix, table, choices)?,
            settled: Vec::from_slice(alloc, &settled)?,
        })?;
    }
    Ok(made)
}
