ghost use Rattle.std.specs.Prelude.{◌≡◌, ◌↔◌, ℕ, IsTrue};
ghost use Rattle.crn_vec.specs.Rank.{IsRank};
ghost use Rattle.crn_vec.specs.Strong.{IsWeaklyReversible};
ghost use Rattle.crn_vec.specs.Deficiency.{vectors};
ghost use Rattle.crn_cert.specs.Questions.{Earlier, Q4, Q9, IsYes, on};
ghost use Rattle.crn_cert.specs.Says.{AreLinkageClasses};
ghost use Rattle.crn_cert.specs.Answered.{IsAnswer};
ghost use Rattle.crn_cert.specs.Given.{GiveRank};

use crate::deficiency::deficiency;
use crn_cert::{Answer, Verdict};
use crn_graph::LinkageData;
use crn_net::Network;

/// Question 9: if the hypotheses of the Deficiency Zero Theorem hold, whether the network is weakly reversible, and else
/// the deficiency.
pub fn zero_hypotheses(net: &Network, linkage: &LinkageData, weak: bool, rank: u32) -> Answer
    requires classes { AreLinkageClasses net.now linkage.now.count linkage.now.label.list }
    requires rank { IsRank (vectors net.now) rank }
    requires weak { IsTrue weak ↔ IsWeaklyReversible net.now.reactions }
    ensures { (budget : ℕ) (earlier : Earlier) →
        GiveRank earlier linkage.now.label.list linkage.now.count rank →
        (IsTrue weak ↔ IsYes (on earlier Q4)) →
        IsAnswer net.now budget earlier Q9 result }
{
    net.meets_definition();
    let number = deficiency(net, linkage, rank);
    let verdict = if number == 0 {
        Verdict::YesWeak { weak }
    } else {
        Verdict::NoNumber { number }
    };
    Answer::plain(verdict)
}
