ghost use Rattle.std.specs.Prelude.{◌≡◌, ◌↔◌, ◌≤◌, ◌⊎◌, IsTrue, pos, length};
ghost use Rattle.crn_vec.specs.Skips.{AreSkips};
ghost use Rattle.crn_vec.specs.Vectors.{AreWithin, dot};
ghost use Rattle.crn_vec.specs.declared.limits.TheConstants.{MAX_AMOUNT, MAX_COORDINATES, MAX_SPECIES, WIDE_SOLUTION};

use crate::limits::MAX_SPECIES;
use crate::vectors::times;

/// From each place of a vector a place, this one or a later one, or the vector's length, before which the vector is 0.
pub type Skips = [u8; MAX_SPECIES + 1];

/// Whether a number is 0, as most numbers of certificates are.
pub fn is_nought(number: &i128) -> bool
    ensures { IsTrue result ↔ (number.now ≡ pos 0) }
{
    *number == 0
}

/// The skips of a vector with an entry for each species: from each place to the next at which it is not 0. That no place
/// is nearer than need be is no clause; it would only be slower. It takes no memory.
pub fn skips_of(vector: &[i128]) -> Skips
    requires { length vector.now ≤ MAX_SPECIES }
    ensures { AreSkips vector.now result }
{
    let mut s = vector.len();
    let mut skips = [s as u8; MAX_SPECIES + 1];
    'back: while s > 0 {
        s -= 1;
        skips[s] = if is_nought(&vector[s]) {
            skips[s + 1]
        } else {
            s as u8
        };
    }
    skips
}

/// The sum of the products, place by place, as [`dot`](crate::dot) gives it. None is formed at the places that are skipped, at which one
/// of the two lists is 0.
pub fn dot_past(a: &[i128], b: &[i128], skips: &[u8]) -> i128
    requires same { length b.now ≡ length a.now }
    requires few { length a.now ≤ MAX_COORDINATES }
    requires a { AreWithin WIDE_SOLUTION a.now }
    requires b { AreWithin MAX_AMOUNT b.now }
    requires skips { AreSkips a.now skips.now ⊎ AreSkips b.now skips.now }
    ensures { result ≡ dot a.now b.now }
{
    let mut sum = 0;
    let mut k = skips[0] as usize;
    'places: while k < a.len() {
        sum += times(&a[k], &b[k]);
        k = skips[k + 1] as usize;
    }
    sum
}
