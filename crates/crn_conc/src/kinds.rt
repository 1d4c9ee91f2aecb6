ghost use Rattle.std.specs.Prelude.{◌≡◌, ◌<◌, ℕ, length};
ghost use Rattle.crn_vec.specs.Concordance.{row_kinds};
ghost use Rattle.crn_vec.specs.Systems.{kind_at};
ghost use Rattle.crn_sign.specs.Options.{asked_kind, none, word_at};
ghost use Rattle.crn_conc.specs.Inner.Columns.{AreMade, IsAskedOf, IsExtended};

use crn_sign::{Asked, Bits, FREE, NONE, asked_of_sign};
use crn_vec::Sign;

// Which of 64 sums have a positive member and which have a negative one, with one option more, that of
// a species with these signs.
fn extended(above: Bits, signs: Bits, option: Sign) -> Bits
    ensures { IsExtended above signs option result }
{
    match option {
        Sign::Zero => above,
        Sign::Plus => Bits {
            plus: above.plus | signs.plus,
            minus: above.minus | signs.minus,
        },
        Sign::Minus => Bits {
            plus: above.plus | signs.minus,
            minus: above.minus | signs.plus,
        },
    }
}

// What is required of 64 coordinates: of those that are settled, the sign of the sum.
fn asked_of_sums(settled: Bits, sums: Bits) -> Bits
    ensures { IsAskedOf settled sums result }
{
    Bits {
        plus: (settled.plus | sums.minus) ^ sums.minus,
        minus: (settled.minus | sums.plus) ^ sums.plus,
    }
}

/// Puts the sums of no option.
pub(crate) fn put_no_sums(sums: &mut [Bits])
    ensures { AreMade (λ w x. x ≡ none) sums.old sums.new }
{
    for w in 0..sums.len() {
        sums[w] = NONE;
    }
}

/// Puts the sums with one option more, that of a species with these signs.
pub(crate) fn put_extended(above: &[Bits], signs: &[Bits], option: Sign, sums: &mut [Bits])
    requires above { length above.now ≡ length sums.old }
    requires signs { length signs.now ≡ length sums.old }
    ensures { AreMade (λ w x. IsExtended (word_at above.now w) (word_at signs.now w) option x)
        sums.old sums.new }
{
    for w in 0..sums.len() {
        sums[w] = extended(above[w], signs[w], option);
    }
}

/// Puts what is required of the coordinates that are settled.
pub(crate) fn put_asked_of_sums(settled: &[Bits], sums: &[Bits], asked: &mut [Bits])
    requires settled { length settled.now ≡ length asked.old }
    requires sums { length sums.now ≡ length asked.old }
    ensures { AreMade (λ w x. IsAskedOf (word_at settled.now w) (word_at sums.now w) x)
        asked.old asked.new }
{
    for w in 0..asked.len() {
        asked[w] = asked_of_sums(settled[w], sums[w]);
    }
}

/// What is required of a species' row in part B: its option, or nothing if it is not chosen yet.
pub fn asked_of_row(prefix: &[Sign], s: usize) -> Asked
    ensures { (n : ℕ) → s < n → kind_at (row_kinds n prefix.now) s ≡ asked_kind result }
{
    if s < prefix.len() {
        asked_of_sign(prefix[s])
    } else {
        FREE
    }
}
