ghost use Rattle.std.specs.Prelude.{◌↔◌, IsTrue};
ghost use Rattle.crn_siphon_check.specs.Siphons.{IsZeroOutside};

use crate::members::has_member;

/// Whether each species outside the set has weight 0.
pub fn is_zero_outside(set: &[bool], x: &[i128]) -> bool
    ensures { IsTrue result ↔ IsZeroOutside set.now x.now }
{
    for s in 0..x.len() {
        if x[s] != 0 && !has_member(set, s) {
            return false;
        }
    }
    true
}
