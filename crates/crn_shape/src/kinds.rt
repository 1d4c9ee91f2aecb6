ghost use Rattle.std.specs.Prelude.{◌≡◌, ◌<◌, ℕ, drop, take};
ghost use Rattle.crn_vec.specs.Concordance.{kind_of_sign, row_kinds, sign};
ghost use Rattle.crn_vec.specs.Problems.{opposite};
ghost use Rattle.crn_vec.specs.Systems.{kind_at};
ghost use Rattle.crn_vec.specs.Network.{Net};
ghost use Rattle.crn_vec.specs.Signals.{pair_kind, pair_kind_by, top_kind};
ghost use Rattle.crn_shape.specs.Shapes.{pair_of};

use crate::pairs::LinkedPair;
use crn_vec::{Kind, Sign, kind_of_sign};

// The kind of the numbers with the sign of this one.
fn kind_of_number(number: i128) -> Kind
    ensures { result ≡ kind_of_sign (sign number) }
{
    if number > 0 {
        return Kind::Pos;
    }
    if number < 0 {
        return Kind::Neg;
    }
    Kind::Zero
}

// The kind of the numbers with the opposite sign.
fn kind_of_opposite(number: i128) -> Kind
    ensures { result ≡ kind_of_sign (opposite (sign number)) }
{
    if number > 0 {
        return Kind::Neg;
    }
    if number < 0 {
        return Kind::Pos;
    }
    Kind::Zero
}

/// The kind of a complex' row, by the shelf of its class.
pub(crate) fn top_kind(shelves: &[Sign], top: Option<usize>) -> Kind
    ensures { result ≡ top_kind shelves.now top }
{
    match top {
        None => Kind::Zero,
        Some(k) => {
            if k < shelves.len() {
                kind_of_sign(shelves[k])
            } else {
                Kind::Free
            }
        }
    }
}

// The kind of a pair's row on a shelf, by its sum.
fn pair_kind_by(shelf: Sign, sum: i128) -> Kind
    ensures { result ≡ pair_kind_by shelf sum }
{
    match shelf {
        Sign::Zero => Kind::Free,
        Sign::Plus => kind_of_number(sum),
        Sign::Minus => kind_of_opposite(sum),
    }
}

/// The kind of a pair's row, free if the shelf of its class is not chosen yet.
pub(crate) fn pair_kind(shelves: &[Sign], pair: &LinkedPair) -> Kind
    ensures { (net : Net) → result ≡ pair_kind shelves.now (pair_of net pair.now) }
{
    if pair.top < shelves.len() {
        pair_kind_by(shelves[pair.top], pair.sum)
    } else {
        Kind::Free
    }
}

/// The first options of a prefix, at most this many.
pub fn shelves(prefix: &[Sign], count: usize) -> &[Sign]
    ensures { result.now ≡ take count prefix.now }
{
    let (shelves, _) = prefix.split_at(count.min(prefix.len()));
    shelves
}

/// The options of a prefix after this many.
pub(crate) fn signs(prefix: &[Sign], count: usize) -> &[Sign]
    ensures { result.now ≡ drop count prefix.now }
{
    let (_, signs) = prefix.split_at(count.min(prefix.len()));
    signs
}

/// The kind of a species by its option, and free if it is not chosen yet.
pub fn row_kind(prefix: &[Sign], s: usize) -> Kind
    ensures { (n : ℕ) → s < n → result ≡ kind_at (row_kinds n prefix.now) s }
{
    if s < prefix.len() {
        kind_of_sign(prefix[s])
    } else {
        Kind::Free
    }
}
