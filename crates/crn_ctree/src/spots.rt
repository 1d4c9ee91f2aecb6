ghost use Rattle.std.specs.Prelude.{◌≡◌, ◌≤◌, ◌+◌, ◌++◌, ℕ, length, OnOk, IfOk};
ghost use Rattle.crn_vec.specs.declared.limits.TheConstants.{MAX_COORDINATES};
ghost use Rattle.crn_vec.specs.Concordance.{product as product_of};
ghost use Rattle.crn_ctree.specs.Inner.Spots.{spots_from, spots_kind};

use crn_vec::{Kind, NoMemory, Sign, is_minus_sign, is_plus_sign, kind_of_sum, product};
use std::alloc::Global;
use std::marker::Model;

// A place at which a list of signs is not zero, counted from 0, and the sign there.
#[derive(Clone, Copy)]
pub(crate) struct Spot {
    pub(crate) place: usize,
    pub(crate) sign: Sign,
}

/// A list of signs by the places at which they are not zero.
#[derive(Drop)]
pub(crate) struct Spots {
    items: Vec<Spot>,
}

impl Model for Spots {
    ghost use Rattle.std.specs.Prelude.{List};
    ghost use Rattle.crn_ctree.specs.declared.spots.Spot.{Spot};

    ghost Value = { List Spot };

    ghost view = { λ s. s.items.items };
}

// Adds the places from this one on at which the signs are not zero.
fn push_spots(into: &mut Vec<Spot>, place: usize, signs: &[Sign]) -> Result<(), NoMemory>
    requires { place + length signs.now ≤ MAX_COORDINATES + MAX_COORDINATES }
    ensures { OnOk result (into.new.items ≡ into.old.items ++ spots_from place signs.now) }
{
    match signs {
        [] => Ok(()),
        [sign, signs @ ..] => match *sign {
            Sign::Zero => push_spots(into, place + 1, signs),
            sign => {
                into.push(Spot { place, sign })?;
                push_spots(into, place + 1, signs)
            }
        },
    }
}

impl Spots {
    /// The places at which these signs are not zero.
    pub(crate) fn of(alloc: Global, signs: &[Sign]) -> Result<Spots, NoMemory>
        requires { length signs.now ≤ MAX_COORDINATES + MAX_COORDINATES }
        ensures { IfOk result (λ made. made ≡ spots_from 0 signs.now) }
    {
        let mut items = Vec::new(alloc);
        push_spots(&mut items, 0, signs)?;
        Ok(Spots { items })
    }

    /// They in order.
    pub(crate) fn as_slice(&self) -> &[Spot]
        ensures { result.now ≡ self.now }
    {
        &self.items
    }
}

// The sign of a product of numbers of these signs.
fn product_sign(left: Sign, right: Sign) -> Sign
    ensures { result ≡ product_of left right }
{
    product(left, right)
}

/// The kind of a column with these spots at a prefix, after species that raised or lowered it.
pub(crate) fn spots_kind(raised: bool, lowered: bool, spots: &[Spot], prefix: &[Sign]) -> Kind
    ensures { result ≡ spots_kind raised lowered spots.now prefix.now }
{
    match spots {
        [] => kind_of_sum(raised, lowered),
        [spot, spots @ ..] => {
            if spot.place < prefix.len() {
                let sign = product_sign(spot.sign, prefix[spot.place]);
                spots_kind(
                    raised || is_plus_sign(sign),
                    lowered || is_minus_sign(sign),
                    spots,
                    prefix,
                )
            } else {
                Kind::Free
            }
        }
    }
}
