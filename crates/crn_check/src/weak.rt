ghost use Rattle.std.specs.Prelude.{◌≡◌};
ghost use Rattle.crn_cert.specs.Formed.{HeadMayBe};
ghost use Rattle.crn_cert.specs.Questions.{Q4, labels_of};
ghost use Rattle.crn_cert.specs.Valid.{weak_head};
ghost use Rattle.crn_check.specs.Check.{Judges};
ghost use Rattle.crn_check.specs.Facts.{AreFactsOf, HoldsOn};

use crate::facts::Facts;
use crate::fault::CheckFault;
use crate::labels::{are_even, leaves_label};
use crn_cert::Verdict;
use crn_net::Network;

// The labels of classes in a verdict, and none in a verdict on something else.
pub(crate) fn labels_in(verdict: &Verdict) -> &[u32]
    ensures { result.now ≡ labels_of verdict.now }
{
    match verdict {
        Verdict::Classes { label, .. } => label.as_slice(),
        Verdict::Strong { label, .. } => label.as_slice(),
        _ => &[],
    }
}

// The test of a head on weak reversibility.
pub(crate) fn check_weak_head(
    net: &Network,
    facts: &Facts,
    verdict: &Verdict,
) -> Result<(), CheckFault>
    requires facts { AreFactsOf net.now facts.now }
    requires held { HoldsOn facts.now.earlier 2 }
    requires head { HeadMayBe net.now facts.now.earlier Q4 verdict.now }
    ensures { Judges (weak_head net.now facts.now.earlier verdict.now) result }
{
    let labels = labels_in(facts.verdict(2));
    let holds = match verdict {
        Verdict::Yes => are_even(net, labels),
        Verdict::NoReaction { reaction } => leaves_label(net, labels, *reaction),
        _ => true,
    };
    if !holds {
        return Err(CheckFault { code: 37, part: 0 });
    }
    Ok(())
}
