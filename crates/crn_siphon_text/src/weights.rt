ghost use Rattle.std.specs.Prelude.{◌≡◌, ◌≢◌, ◌↔◌, ◌≤ℤ◌, ℕ, pos, IsTrue, length};
ghost use Rattle.std.specs.List.{AllByRecursion};
ghost use Rattle.crn_vec.specs.Vectors.{dot, entry};
ghost use Rattle.crn_vec.specs.Deficiency.{vectors};
ghost use Rattle.crn_cert.specs.Ranges.{AreFree};
ghost use Rattle.crn_siphon_check.specs.Siphons.{Covers, IsSemiLaw};

use crn_check::{amount_change, weight_change};
use crn_net::Network;

// Whether each weight is at least 0.
fn are_weights(x: &[i128]) -> bool
    ensures { IsTrue result ↔ AllByRecursion (λ w. pos 0 ≤ℤ w) x.now }
{
    for weight in x {
        if *weight < 0 {
            return false;
        }
    }
    true
}

// Whether some weight is not 0.
fn is_some(x: &[i128]) -> bool
    ensures { IsTrue result ↔ ((s : ℕ) × (entry x.now s ≢ pos 0)) }
{
    for weight in x {
        if *weight != 0 {
            return true;
        }
    }
    false
}

// Whether each reaction conserves the total weight.
fn is_conserved(net: &Network, x: &[i128]) -> bool
    requires { AreFree (length net.now.names) x.now }
    ensures { IsTrue result ↔ AllByRecursion (λ v. dot x.now v ≡ pos 0) (vectors net.now) }
{
    for r in 0..net.reactions() {
        if weight_change(net, x, r) != 0 {
            return false;
        }
    }
    true
}

/// Whether the weights are those of a law: at least 0, not all 0, and conserved.
pub(crate) fn is_semi_law(net: &Network, x: &[i128]) -> bool
    requires { AreFree (length net.now.names) x.now }
    ensures { IsTrue result ↔ IsSemiLaw net.now x.now }
{
    are_weights(x) && is_some(x) && is_conserved(net, x)
}

/// Whether the reactions with these numbers increase each member of the set.
pub(crate) fn covers(net: &Network, set: &[bool], numbers: &[i128]) -> bool
    requires set { length set.now ≡ length net.now.names }
    requires numbers { AreFree (length net.now.reactions) numbers.now }
    ensures { IsTrue result ↔ Covers net.now set.now numbers.now }
{
    for s in 0..net.species() {
        if set[s] && amount_change(net, numbers, s) < 1 {
            return false;
        }
    }
    true
}
