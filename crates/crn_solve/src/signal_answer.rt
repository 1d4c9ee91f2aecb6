ghost use Rattle.std.specs.Prelude.{◌≡◌, ◌≤◌, IfOk, IfSome, IsSomeAnd};
ghost use Rattle.crn_vec.specs.declared.limits.TheConstants.{MAX_BUDGET};
ghost use Rattle.crn_vec.specs.NetSignals.{HasNoSignal};
ghost use Rattle.crn_cert.specs.Verdicts.{tight};
ghost use Rattle.crn_cert.specs.Questions.{Earlier, IsOpen, Q2, Q4, Q12, Q13, on, vector_given};
ghost use Rattle.crn_cert.specs.Says.{AreStrongClasses, IsTrueOf};
ghost use Rattle.crn_cert.specs.Law.{IsTrueOrOpen};
ghost use Rattle.crn_cert.specs.Answered.{IsAnswer};
ghost use Rattle.crn_cert.specs.Licensed.{IsLicensedBudget};
ghost use Rattle.crn_cert.specs.TreeSizes.{HasFewNodes};
ghost use Rattle.crn_shelf.specs.Order.{IsForNegative};
ghost use Rattle.crn_shelf.specs.Visits.{ListSignalVisits};
ghost use Rattle.crn_solve.specs.Inner.Sides.{GiveSides};

use crate::open::rests_on;
use crate::parts::{is_open, is_yes};
use crn_cert::{Answer, Proof, Verdict};
use crn_graph::StrongData;
use crn_net::Network;
use crn_shelf::signal;
use crn_vec::NoMemory;
use std::alloc::Global;

/// Question 13: a signal for the vector of question 12 or for its negative, trees that show that there is none, or that
/// there is no vector, which rests on question 12. The sides are those in the proof of question 11.
pub(crate) fn signal_answer(
    alloc: Global,
    net: &Network,
    strong: &StrongData,
    weak: &Verdict,
    regular: &Proof,
    confluence: &Verdict,
    budget: u32,
) -> Result<Answer, NoMemory>
    requires some { 1 ≤ budget }
    requires most { budget ≤ MAX_BUDGET }
    requires strong_classes { AreStrongClasses net.now strong.now.count strong.now.terminal
        strong.now.label.list strong.now.exit.list }
    requires weak { IsTrueOf net.now Q4 weak.now }
    requires sides { GiveSides net.now confluence.now regular.now }
    requires confluence { IsTrueOrOpen net.now Q12 confluence.now }
    ensures answer { IfOk result (λ answer. (earlier : Earlier) →
        IsTrueOf net.now Q2 (on earlier Q2) → on earlier Q4 ≡ tight weak.now →
        on earlier Q12 ≡ tight confluence.now → IsAnswer net.now budget earlier Q13 answer) }
    ensures nodes { IfOk result (λ answer. HasFewNodes budget answer.proof) }
    ensures visits { IfOk result (λ answer. IfSome (vector_given confluence.now)
        (λ g. ListSignalVisits net.now g answer.proof)) }
    ensures spent { IfOk result (λ answer. (earlier : Earlier) →
        on earlier Q12 ≡ confluence.now → IsLicensedBudget net.now earlier Q13 budget →
        IsOpen answer.verdict) }
    ensures first { IfOk result (λ answer. IsForNegative answer.verdict →
        IsSomeAnd (vector_given confluence.now) (HasNoSignal net.now)) }
{
    net.meets_definition();
    if is_open(confluence) {
        return Ok(rests_on(12));
    }
    match (confluence, regular) {
        (Verdict::YesVec { vector }, Proof::Sides(sides)) => {
            let g = vector.as_slice();
            signal(alloc, net, strong, sides, g, is_yes(weak), budget)
        }
        _ => Ok(Answer::plain(Verdict::NotApplicable)),
    }
}
