ghost use Rattle.std.specs.Prelude.{◌≡◌, ◌<◌, ◌+◌, length, OnOk};
ghost use Rattle.crn_reading.specs.Steps.{GoesOn};
ghost use Rattle.crn_endo_check.specs.Slopes.{IsSmallEnough, reactants};
ghost use Rattle.crn_endo_text.specs.Inner.TreesRead.{ReadsTrees};

use crate::node::next_node;
use crn_ctree::Step;
use crn_endo_check::{SlopeCheck, Slopes};
use crn_io::Source;
use crn_net::Network;
use crn_reading::{CheckStop, Reading};

// The tree of a reaction, whose nodes are the next lines.
fn next_tree<S: Source>(
    source: &mut S,
    at: &mut Reading,
    net: &Network,
    given: &[usize],
    r: usize,
) -> Result<(), CheckStop>
    requires goes { GoesOn at.old }
    requires small { IsSmallEnough net.now }
    requires reactants { given.now ≡ reactants net.now }
    requires inside { r < length net.now.reactions }
    ensures step { ReadsTrees net.now r (r + 1) result at.old at.new
        (S.seen source.old) (S.seen source.new) }
    ensures goes { OnOk result (GoesOn at.new) }
{
    net.meets_definition();
    let slopes = Slopes::new(at.alloc, net, given, r)?;
    let rows = (net.reactions() + net.reactions() + slopes.choices() - 1) as u32;
    let mut check = SlopeCheck::new(at.alloc, slopes)?;
    'nodes: loop {
        match next_node(source, at, rows, &mut check)? {
            Step::More => {}
            Step::Complete => return Ok(()),
        }
    }
}

/// The trees of all reactions, in their order.
pub(crate) fn next_trees<S: Source>(
    source: &mut S,
    at: &mut Reading,
    net: &Network,
    given: &[usize],
) -> Result<(), CheckStop>
    requires goes { GoesOn at.old }
    requires small { IsSmallEnough net.now }
    requires reactants { given.now ≡ reactants net.now }
    ensures step { ReadsTrees net.now 0 (length net.now.reactions) result at.old at.new
        (S.seen source.old) (S.seen source.new) }
    ensures goes { OnOk result (GoesOn at.new) }
{
    for r in 0..net.reactions() {
        next_tree(source, at, net, given, r)?;
    }
    Ok(())
}
