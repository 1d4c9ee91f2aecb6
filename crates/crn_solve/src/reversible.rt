ghost use Rattle.std.specs.Prelude.{◌≡◌, length, IfOk, MatchOption};
ghost use Rattle.crn_cert.specs.Questions.{Earlier, Q2, Q3, Q4, on};
ghost use Rattle.crn_cert.specs.Says.{IsTrueOf};
ghost use Rattle.crn_cert.specs.ClassTests.{AreEven};
ghost use Rattle.crn_cert.specs.Valid.{strong};
ghost use Rattle.crn_solve.specs.Inner.Answered.{IsDecidedAnswer, IsFirstLeaving};

use crn_cert::{Answer, Proof, Verdict};
use crn_graph::{Reverses, back};
use crn_net::Network;
use crn_vec::NoMemory;
use std::alloc::Global;

// Question 3: the reverse of each reaction, or a reaction that has none.
pub(crate) fn reversible(alloc: Global, net: &Network) -> Result<Answer, NoMemory>
    ensures { IfOk result (λ answer. (earlier : Earlier) →
        IsDecidedAnswer net.now earlier Q3 answer) }
{
    match back(alloc, net)? {
        Reverses::All(back) => Ok(Answer {
            verdict: Verdict::Yes,
            proof: Proof::Back(back),
        }),
        Reverses::Missing(reaction) => Ok(Answer::plain(Verdict::NoReaction { reaction })),
    }
}

// The first reaction, counted from 1, whose complexes have different labels.
fn first_leaving(net: &Network, label: &[u32]) -> Option<u32>
    requires { length label.now ≡ length net.now.complexes }
    ensures { MatchOption result (AreEven net.now label.now)
        (λ r. IsFirstLeaving net.now label.now r) }
{
    for r in 0..net.reactions() {
        if label[net.reactant(r)] != label[net.product(r)] {
            return Some(r as u32 + 1);
        }
    }
    None
}

// Question 4: whether every reaction stays within its strong class, and else the first that leaves it.
pub(crate) fn weakly_reversible(net: &Network, label: &[u32]) -> Answer
    requires { length label.now ≡ length net.now.complexes }
    ensures { (earlier : Earlier) → strong earlier ≡ label.now → IsTrueOf net.now Q2 (on earlier Q2)
        → IsDecidedAnswer net.now earlier Q4 result }
{
    net.meets_definition();
    let verdict = match first_leaving(net, label) {
        Some(reaction) => Verdict::NoReaction { reaction },
        None => Verdict::Yes,
    };
    Answer::plain(verdict)
}
