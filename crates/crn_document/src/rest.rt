ghost use Rattle.std.specs.Prelude.{◌≡◌, [], false, map, IfOk};
ghost use Rattle.crn_vec.specs.Network.{IsNetwork};
ghost use Rattle.crn_reading.specs.Steps.{GoesOn};
ghost use Rattle.crn_document.specs.Inner.Blocks.{IsReady};
ghost use Rattle.crn_document.specs.Inner.Courses.{IsSaidIn, rest_course};
ghost use Rattle.crn_reading.specs.Ending.{LastIs};

use crate::block::Checked;
use crate::ending::next_end;
use crate::questions::next_blocks;
use crate::table::next_table;
use crn_cert::{Rows, Verdicts};
use crn_check::Facts;
use crn_io::{NoMemory, Source};
use crn_net::Network;
use crn_reading::{CheckStop, Reading};
use std::alloc::Global;

// No verdicts, with memory for those on this network.
fn none_checked(alloc: Global, net: &Network) -> Result<Checked, NoMemory>
    requires network { IsNetwork net.now }
    ensures ready { IfOk result (λ made. IsReady net.now [] made) }
    ensures empty { IfOk result (λ made. made.facts.earlier ≡ []) }
    ensures first { IfOk result (λ made. made.by_tree ≡ false) }
{
    Ok(Checked {
        facts: Facts::new(alloc, net)?,
        sides: Rows::new(alloc)?,
        by_tree: false,
    })
}

// What follows the network of a document, to its end: the shared lists, and the blocks, whose verdicts are kept.
fn next_parts<S: Source>(
    source: &mut S,
    at: &mut Reading,
    net: &Network,
    checked: &mut Checked,
) -> Result<(), CheckStop>
    requires goes { GoesOn at.old }
    requires ready { IsReady net.now [] checked.old }
    requires empty { checked.old.facts.earlier ≡ [] }
    requires first { checked.old.by_tree ≡ false }
    ensures step { LastIs (rest_course at.old.version at.old.line net.now)
        (λ _ read. IsSaidIn net.now (map (λ e. e.1) checked.new.facts.earlier) read)
        result at.old (S.seen source.old) (S.seen source.new) }
{
    let table = next_table(source, at)?;
    next_blocks(source, at, net, &table, checked, 1)?;
    next_end(source, at, checked.by_tree)
}

// What follows the network of a document, to its end, and the verdicts that its blocks say.
pub(crate) fn next_rest<S: Source>(
    source: &mut S,
    at: &mut Reading,
    net: &Network,
) -> Result<Verdicts, CheckStop>
    requires goes { GoesOn at.old }
    requires network { IsNetwork net.now }
    ensures step { LastIs (rest_course at.old.version at.old.line net.now)
        (λ verdicts read. IsSaidIn net.now verdicts read)
        result at.old (S.seen source.old) (S.seen source.new) }
{
    let mut checked = none_checked(at.alloc, net)?;
    next_parts(source, at, net, &mut checked)?;
    Ok(checked.facts.into_verdicts())
}
