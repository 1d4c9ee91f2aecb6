ghost use Rattle.std.specs.Prelude.{◌≡◌, ◌≤◌, ◌<◌, ◌^◌, ◌∷◌, [], ℕ, pos, length, OnOk};
ghost use Rattle.crn_vec.specs.Network.{Net};
ghost use Rattle.crn_ctext.specs.Parts.{part_course, part_ending};
ghost use Rattle.crn_reading.specs.Steps.{GoesOn, IsNew};
ghost use Rattle.crn_reading.specs.Ending.{EndStepIs, LastIs};
ghost use Rattle.crn_reading.specs.Reads.{IsAnsweredBy, ReadingGives};
ghost use Rattle.crn_endo_text.specs.Document.{IsSeenOf, asks_endo, asks_no, part, words};
ghost use Rattle.crn_endo_text.specs.declared.seen.EndoSeen.{EndoSeen};
ghost use Rattle.crn_endo_text.specs.Inner.TreesRead.{ReadsSeen};

use crate::lines::{next_last, next_slope, next_verdict};
use crate::seen::EndoSeen;
use crate::tree::next_trees;
use crn_endo_check::{is_against, reactants};
use crn_io::Source;
use crn_net::Network;
use crn_reading::{CheckStop, Reading, begin, no_more, read_part_head};
use std::alloc::Global;

// After a no at a reaction: a slope against it.
fn next_no<S: Source>(
    source: &mut S,
    at: &mut Reading,
    net: &Network,
    reaction: u32,
) -> Result<EndoSeen, CheckStop>
    requires goes { GoesOn at.old }
    requires reaction { (1 ≤ reaction) × (reaction ≤ length net.now.reactions) }
    ensures step { ReadsSeen (asks_no net.now reaction at.old.line) result at.old at.new
        (S.seen source.old) (S.seen source.new) }
    ensures goes { OnOk result (GoesOn at.new) }
{
    next_slope(source, at, net)?;
    if !is_against(net, at.numbers.as_slice(), reaction as usize - 1) {
        return Err(CheckStop::Rejected {
            code: 73,
            line: at.line - 1,
        });
    }
    Ok(EndoSeen::No { reaction })
}

// The number of the reaction that was read.
fn reaction_of(numbers: &[i128]) -> u32
    requires { (r : ℕ) × (numbers.now ≡ pos r ∷ []) × (r < 2 ^ 32) }
    ensures { numbers.now ≡ pos result ∷ [] }
{
    numbers[0] as u32
}

// The lines after the network, but for the last one.
fn next_answer<S: Source>(
    source: &mut S,
    at: &mut Reading,
    net: &Network,
) -> Result<EndoSeen, CheckStop>
    requires { GoesOn at.old }
    ensures step { ReadsSeen (asks_endo net.now at.old.line) result at.old at.new
        (S.seen source.old) (S.seen source.new) }
    ensures goes { OnOk result (GoesOn at.new) }
{
    net.meets_definition();
    let given = reactants(at.alloc, net)?;
    let place = next_verdict(source, at, net, &given)?;
    if place == 0 {
        next_trees(source, at, net, &given)?;
        return Ok(EndoSeen::Yes);
    }
    if place == 1 {
        let reaction = reaction_of(at.numbers.as_slice());
        return next_no(source, at, net, reaction);
    }
    Ok(EndoSeen::Undecided)
}

// The last line, after which nothing is left.
fn next_end<S: Source>(source: &mut S, at: &mut Reading) -> Result<(), CheckStop>
    requires { GoesOn at.old }
    ensures { (read : Net × EndoSeen) → EndStepIs (part_ending words at.old.line read) read
        result at.old (S.seen source.old) (S.seen source.new) }
{
    next_last(source, at)?;
    no_more(source, at)
}

// A whole document.
fn next_document<S: Source>(source: &mut S, at: &mut Reading) -> Result<EndoSeen, CheckStop>
    requires { IsNew at.old }
    ensures { LastIs (part_course part) IsSeenOf result at.old
        (S.seen source.old) (S.seen source.new) }
{
    let net = read_part_head(source, at, b"endo")?;
    let seen = next_answer(source, at, &net)?;
    next_end(source, at)?;
    Ok(seen)
}

/// Reads the document of an answer on endotactic networks to its end and checks it, or names its first fault.
///
/// It holds one line, the network, and of a tree the path to the node that is due and the matrix.
pub fn verify_endo<S: Source>(alloc: Global, source: &mut S) -> Result<EndoSeen, CheckStop>
    ensures gives { ReadingGives (part_course part) IsSeenOf result
        (S.seen source.old) (S.seen source.new) }
    ensures answered { IsAnsweredBy (part_course part) IsSeenOf result
        (S.seen source.old) (S.seen source.new) }
{
    let mut at = begin(alloc)?;
    next_document(source, &mut at)
}
