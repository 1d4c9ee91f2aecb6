ghost use Rattle.std.specs.Prelude.{◌≡◌, ◌↔◌, ◌<◌, IsTrue, length, slice_index_or};
ghost use Rattle.crn_cert.specs.Ranges.{AreFrom};
ghost use Rattle.crn_cert.specs.ClassTests.{DoLevelsFall};
ghost use Rattle.crn_check.specs.Inner.Tests.{Falls};

use crn_net::Network;

// Whether a reaction, counted from 0, stays in its class or goes to a class of a smaller level.
fn does_fall(net: &Network, labels: &[u32], level: &[u32], r: usize) -> bool
    requires labels { AreFrom (length net.now.complexes) 1 (length level.now) labels.now }
    requires inside { r < length net.now.reactions }
    ensures { let ends = slice_index_or net.now.reactions r (0, 0) in
        IsTrue result ↔ Falls labels.now level.now ends.0 ends.1 }
{
    let from = labels[net.reactant(r)];
    let to = labels[net.product(r)];
    from == to || level[to as usize - 1] < level[from as usize - 1]
}

// Whether each reaction between two classes goes to a class of a smaller level.
pub(crate) fn do_levels_fall(net: &Network, labels: &[u32], level: &[u32]) -> bool
    requires { AreFrom (length net.now.complexes) 1 (length level.now) labels.now }
    ensures { IsTrue result ↔ DoLevelsFall net.now labels.now level.now }
{
    for r in 0..net.reactions() {
        if !does_fall(net, labels, level, r) {
            return false;
        }
    }
    true
}
