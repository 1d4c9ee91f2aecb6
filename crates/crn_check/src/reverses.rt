ghost use Rattle.std.specs.Prelude.{◌≡◌, ◌↔◌, ◌≤◌, ◌<◌, IsTrue, length};
ghost use Rattle.crn_cert.specs.Ranges.{IsFrom, AreFrom};
ghost use Rattle.crn_cert.specs.Says.{HasNoReverse};
ghost use Rattle.crn_cert.specs.ClassTests.{IsReverse, AreReverses};

use crn_net::Network;

// Whether reaction b, counted from 1, is the reverse of reaction r, counted from 0.
fn is_reverse(net: &Network, r: usize, b: u32) -> bool
    requires inside { r < length net.now.reactions }
    requires number { IsFrom 1 (length net.now.reactions) b }
    ensures { IsTrue result ↔ IsReverse net.now r b }
{
    let back = b as usize - 1;
    net.reactant(back) == net.product(r) && net.product(back) == net.reactant(r)
}

// Whether the list names for each reaction its reverse.
pub(crate) fn are_reverses(net: &Network, back: &[u32]) -> bool
    requires { AreFrom (length net.now.reactions) 1 (length net.now.reactions) back.now }
    ensures { IsTrue result ↔ AreReverses net.now back.now }
{
    for r in 0..net.reactions() {
        if !is_reverse(net, r, back[r]) {
            return false;
        }
    }
    true
}

// Whether the reverse of a reaction, counted from 1, is not a reaction.
pub(crate) fn has_no_reverse(net: &Network, reaction: u32) -> bool
    requires { IsFrom 1 (length net.now.reactions) reaction }
    ensures { IsTrue result ↔ HasNoReverse net.now reaction }
{
    let named = reaction as usize - 1;
    for r in 0..net.reactions() {
        if is_reverse(net, named, r as u32 + 1) {
            return false;
        }
    }
    true
}
