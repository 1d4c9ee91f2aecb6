ghost use Rattle.std.specs.Prelude.{length, IfOk};
ghost use Rattle.std.specs.List.{AllByRecursion};
ghost use Rattle.crn_cert.specs.Ranges.{IsFrom};
ghost use Rattle.crn_reg.specs.Inner.Pairs.{GivesSides};

use crn_cert::Rows;
use crn_graph::{CutPair, cut_pair};
use crn_net::Network;
use crn_vec::{NoMemory, Nums};
use std::alloc::Global;

/// Whether linked pairs are cut pairs.
#[derive(Drop)]
pub(crate) enum Sides {
    /// They are: the side of each.
    All(Rows),
    /// The pair of this reaction is not a cut pair, as the walk shows.
    Cycle { reaction: u32, walk: Nums },
}

/// The sides of the pairs that these reactions join, or the first pair that is no cut pair, with a walk round it.
pub(crate) fn find_sides(alloc: Global, net: &Network, pairs: &[u32]) -> Result<Sides, NoMemory>
    requires { AllByRecursion (IsFrom 1 (length net.now.reactions)) pairs.now }
    ensures { IfOk result (λ found. GivesSides net.now pairs.now found) }
{
    let mut sides = Rows::new(alloc)?;
    for r in pairs {
        match cut_pair(alloc, net, *r)? {
            CutPair::Side(marks) => sides.push(marks)?,
            CutPair::Walk(walk) => return Ok(Sides::Cycle { reaction: *r, walk }),
        }
    }
    Ok(Sides::All(sides))
}
