ghost use Rattle.std.specs.Prelude.{◌≡◌, ◌≤◌, take, length};
ghost use Rattle.crn_vec.specs.declared.limits.TheConstants.{MAX_REACTIONS};
ghost use Rattle.crn_shape.specs.Pairs.{pairs_to};
ghost use Rattle.crn_ctext.specs.Inner.Written.{pairs_in};

use crn_cert::{Answers, Verdict};
use crn_net::Network;
use crn_shape::is_pair;
use crn_vec::MAX_REACTIONS;

// Room for the least reaction of each linked pair within a terminal class.
pub(crate) type Pairs = [u32; MAX_REACTIONS];

// Lists the pairs in order, by labels and exits of strong classes, and returns how many there are.
fn list_pairs(net: &Network, labels: &[u32], exits: &[u32], pairs: &mut Pairs) -> usize
    ensures few { result ≤ MAX_REACTIONS }
    ensures listed { take result pairs.new
        ≡ pairs_to net.now labels.now exits.now (length net.now.reactions) }
{
    let mut count = 0;
    for r in 0..net.reactions() {
        if is_pair(net, labels, exits, r) {
            pairs[count] = r as u32 + 1;
            count += 1;
        }
    }
    count
}

// Lists the pairs by the answer to question 2, and returns how many there are.
pub(crate) fn find_pairs(net: &Network, answers: &Answers, pairs: &mut Pairs) -> usize
    ensures few { result ≤ MAX_REACTIONS }
    ensures listed { take result pairs.new ≡ pairs_in net.now answers.now }
{
    if answers.len() < 2 {
        return 0;
    }
    match &answers.get(2).verdict {
        Verdict::Strong { label, exit, .. } => {
            list_pairs(net, label.as_slice(), exit.as_slice(), pairs)
        }
        _ => 0,
    }
}
