ghost use Rattle.std.specs.Prelude.{◌≡◌, length, IfOk};
ghost use Rattle.crn_vec.specs.CutPairs.{ArePairs};
ghost use Rattle.crn_cert.specs.Says.{AreStrongClasses, from_zero};
ghost use Rattle.crn_shape.specs.Pairs.{pairs_to};

use crn_graph::StrongData;
use crn_net::Network;
use crn_shape::is_pair;
use crn_vec::NoMemory;
use std::alloc::Global;

/// The linked pairs within terminal strong classes, each by its least reaction, ascending. Reactions count from 1.
pub(crate) fn pairs(alloc: Global, net: &Network, strong: &StrongData) -> Result<Vec<u32>, NoMemory>
    requires { AreStrongClasses net.now strong.now.count strong.now.terminal
        strong.now.label.list strong.now.exit.list }
    ensures list { IfOk result (λ made. made.items
        ≡ pairs_to net.now strong.now.label.list strong.now.exit.list
        (length net.now.reactions)) }
    ensures pairs { IfOk result (λ made. ArePairs net.now.reactions (from_zero made.items)) }
{
    net.meets_definition();
    let labels = strong.label.as_slice();
    let exits = strong.exit.as_slice();
    let mut pairs = Vec::with_capacity(alloc, net.reactions())?;
    for r in 0..net.reactions() {
        if is_pair(net, labels, exits, r) {
            pairs.push(r as u32 + 1)?;
        }
    }
    Ok(pairs)
}
