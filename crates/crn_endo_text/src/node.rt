ghost use Rattle.std.specs.Prelude.{◌≡◌, ◌≢◌, ◌≤◌, ◌+◌, [], length, OnOk};
ghost use Rattle.crn_io.specs.declared.lines.TheConstants.{MAX_NUMBERS};
ghost use Rattle.crn_ctree.specs.Due.{first};
ghost use Rattle.crn_ctree.specs.Gives.{said_by};
ghost use Rattle.crn_reading.specs.Steps.{GoesOn, StepIs};
ghost use Rattle.crn_endo_check.specs.Slopes.{slopes};
ghost use Rattle.crn_endo_text.specs.Document.{asks_node};
ghost use Rattle.crn_endo_text.specs.Inner.TreesRead.{Takes, number_of, said_at};

use crate::lines::next_node_line;
use crn_ctree::{Node, Step, TreeFault};
use crn_endo_check::SlopeCheck;
use crn_io::Source;
use crn_reading::{CheckStop, Reading};

// The node of a line, by the place of its word.
fn node_of<'a>(place: u32, numbers: &'a [i128]) -> Node<'a>
    ensures { said_by result ≡ said_at place numbers.now }
{
    if place == 6 {
        return Node::Split;
    }
    if place == 7 {
        return Node::Flat;
    }
    Node::CutA(numbers)
}

// The number of the fault of a node.
fn number_of(fault: TreeFault) -> u32
    ensures { result ≡ number_of fault }
{
    match fault {
        TreeFault::BadLeaf => 72,
        _ => 71,
    }
}

/// The next node of a tree, whose cuts have this many numbers. It is tested as soon as it is read, and it is not kept.
pub(crate) fn next_node<'a, S: Source>(
    source: &mut S,
    at: &mut Reading,
    rows: u32,
    check: &mut SlopeCheck<'a>,
) -> Result<Step, CheckStop>
    requires goes { GoesOn at.old }
    requires due { check.old.due ≢ [] }
    requires rows { rows ≡ length (slopes check.old.net check.old.reaction).matrix_a.rows }
    requires few { rows ≤ MAX_NUMBERS }
    ensures step { let w = slopes check.old.net check.old.reaction in
        StepIs (asks_node w (first check.old.due) at.old.line)
        (λ step node. Takes w check.old.due node check.new.due step)
        result at.old at.new (S.seen source.old) (S.seen source.new) }
    ensures goes { OnOk result (GoesOn at.new) }
    ensures line { OnOk result (at.new.line ≡ at.old.line + 1) }
    ensures net { check.new.net ≡ check.old.net }
    ensures reaction { check.new.reaction ≡ check.old.reaction }
{
    let place = next_node_line(source, at, rows)?;
    let node = node_of(place, at.numbers.as_slice());
    match check.node(&node) {
        Ok(step) => Ok(step),
        Err(fault) => Err(CheckStop::Rejected {
            code: number_of(fault),
            line: at.line - 1,
        }),
    }
}
