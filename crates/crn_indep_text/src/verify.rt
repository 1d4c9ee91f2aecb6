ghost use Rattle.std.specs.Prelude.{◌≡◌, ◌≤◌, ◌<◌, ◌+◌, ◌-◌, ◌^◌, ◌∷◌, [], ℕ, pos, true, length, OnOk, IfOk};
ghost use Rattle.crn_vec.specs.Network.{Net};
ghost use Rattle.crn_cert.specs.Parts.{IsRankProof};
ghost use Rattle.crn_ctext.specs.Parts.{part_course, part_ending};
ghost use Rattle.crn_reading.specs.Steps.{GoesOn, IsNew};
ghost use Rattle.crn_reading.specs.Ending.{EndStepIs, LastIs};
ghost use Rattle.crn_reading.specs.Reads.{IsAnsweredBy, ReadingGives};
ghost use Rattle.crn_indep_check.specs.Finest.{all_reactions};
ghost use Rattle.crn_indep_check.specs.Shown.{IsShownForm};
ghost use Rattle.crn_indep_text.specs.Document.{IsSeenOf, Seen, asks_decomposition, asks_links, asks_split, part, words};
ghost use Rattle.crn_indep_text.specs.Inner.LinesRead.{JudgesLines, ReadsSeen};

use crate::lines::{next_depth, next_first, next_label, next_last, next_up};
use crate::proof::next_proof;
use crate::seen::PartsSeen;
use crn_cert::RankProof;
use crn_indep_check::{check_decomposition, ranks_of_parts};
use crn_io::Source;
use crn_net::Network;
use crn_reading::{CheckStop, Reading, begin, no_more, read_part_head};
use crn_vec::{NoMemory, Nums};
use std::alloc::Global;

// The tests of a decomposition, whose rank is at line `head`, and then the ranks of its parts.
fn judged(
    alloc: Global,
    net: &Network,
    head: u32,
    proof: &RankProof,
    label: &[u32],
    up: &[u32],
    depth: &[u32],
) -> Result<PartsSeen, CheckStop>
    requires form { (rank : ℕ) × IsShownForm net.now rank proof.now label.now up.now depth.now }
    requires head { head + 4 + length proof.now.duals + length proof.now.combs < 2 ^ 32 }
    ensures { JudgesLines net.now head proof.now label.now up.now depth.now result }
{
    match check_decomposition(net, proof, label, up, depth) {
        Ok(()) => {
            let ranks = ranks_of_parts(alloc, net, proof, label)?;
            Ok(PartsSeen {
                undecided: false,
                ranks,
            })
        }
        Err(fault) => Err(CheckStop::Rejected {
            code: fault.code,
            line: head + fault.part,
        }),
    }
}

// The lines of the labels and of the links, and then the tests of all. The rank is at line `head`.
fn next_links<S: Source>(
    source: &mut S,
    at: &mut Reading,
    net: &Network,
    head: u32,
    proof: &RankProof,
) -> Result<PartsSeen, CheckStop>
    requires goes { GoesOn at.old }
    requires proof { (rank : ℕ) × (1 ≤ rank) × (rank ≤ length net.now.names)
        × (rank ≤ length net.now.reactions)
        × IsRankProof net.now (all_reactions net.now) rank proof.now }
    requires line { head + 2 + length proof.now.duals + length proof.now.combs ≡ at.old.line }
    ensures step { ReadsSeen (asks_links net.now head at.old.line proof.now) result at.old at.new
        (S.seen source.old) (S.seen source.new) }
    ensures goes { OnOk result (GoesOn at.new) }
{
    let label = next_label(source, at, net)?;
    let up = next_up(source, at, net)?;
    let depth = next_depth(source, at, net)?;
    judged(
        at.alloc,
        net,
        head,
        proof,
        label.as_slice(),
        up.as_slice(),
        depth.as_slice(),
    )
}

// After the line of a rank: its proof, the labels and the links.
fn next_split<S: Source>(
    source: &mut S,
    at: &mut Reading,
    net: &Network,
    rank: u32,
) -> Result<PartsSeen, CheckStop>
    requires goes { GoesOn at.old }
    requires some { 1 ≤ at.old.line }
    requires rank { (1 ≤ rank) × (rank ≤ length net.now.names)
        × (rank ≤ length net.now.reactions) }
    ensures step { (head : ℕ) → head + 1 ≡ at.old.line →
        ReadsSeen (asks_split net.now head rank) result at.old at.new
        (S.seen source.old) (S.seen source.new) }
    ensures goes { OnOk result (GoesOn at.new) }
{
    let head = at.line - 1;
    let proof = next_proof(source, at, net, rank)?;
    next_links(source, at, net, head, &proof)
}

// What is seen of an open answer.
fn open(alloc: Global) -> Result<PartsSeen, NoMemory>
    ensures { IfOk result (λ seen. (seen.undecided ≡ true) × (seen.ranks.list ≡ [])) }
{
    Ok(PartsSeen {
        undecided: true,
        ranks: Nums::with_room(alloc, 0)?,
    })
}

// The number of the rank that was read.
fn rank_of(numbers: &[i128]) -> u32
    requires { (rank : ℕ) × (numbers.now ≡ pos rank ∷ []) × (rank < 2 ^ 32) }
    ensures { numbers.now ≡ pos result ∷ [] }
{
    numbers[0] as u32
}

// The lines after the network, but for the last one.
fn next_answer<S: Source>(
    source: &mut S,
    at: &mut Reading,
    net: &Network,
) -> Result<PartsSeen, CheckStop>
    requires { GoesOn at.old }
    ensures step { ReadsSeen (asks_decomposition net.now at.old.line) result at.old at.new
        (S.seen source.old) (S.seen source.new) }
    ensures goes { OnOk result (GoesOn at.new) }
{
    net.meets_definition();
    let place = next_first(source, at, net)?;
    if place == 0 {
        let rank = rank_of(at.numbers.as_slice());
        return next_split(source, at, net, rank);
    }
    let seen = open(at.alloc)?;
    Ok(seen)
}

// The last line, after which nothing is left.
fn next_end<S: Source>(source: &mut S, at: &mut Reading) -> Result<(), CheckStop>
    requires { GoesOn at.old }
    ensures { (read : Net × Seen) → EndStepIs (part_ending words at.old.line read) read
        result at.old (S.seen source.old) (S.seen source.new) }
{
    next_last(source, at)?;
    no_more(source, at)
}

// A whole document.
fn next_document<S: Source>(source: &mut S, at: &mut Reading) -> Result<PartsSeen, CheckStop>
    requires { IsNew at.old }
    ensures { LastIs (part_course part) IsSeenOf result at.old
        (S.seen source.old) (S.seen source.new) }
{
    let net = read_part_head(source, at, b"parts")?;
    let seen = next_answer(source, at, &net)?;
    next_end(source, at)?;
    Ok(seen)
}

/// Reads the document of the finest independent decomposition to its end and checks it, or names its first fault.
///
/// It holds one line, the network, and the lists of the answer.
pub fn verify_parts<S: Source>(alloc: Global, source: &mut S) -> Result<PartsSeen, CheckStop>
    ensures gives { ReadingGives (part_course part) IsSeenOf result
        (S.seen source.old) (S.seen source.new) }
    ensures answered { IsAnsweredBy (part_course part) IsSeenOf result
        (S.seen source.old) (S.seen source.new) }
{
    let mut at = begin(alloc)?;
    next_document(source, &mut at)
}
