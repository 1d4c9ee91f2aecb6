ghost use Rattle.std.specs.Prelude.{◌≡◌, ℕ};
ghost use Rattle.crn_cert.specs.Verdicts.{tight};
ghost use Rattle.crn_cert.specs.Questions.{Earlier, Q4, Q5, Q9, on};
ghost use Rattle.crn_cert.specs.Says.{AreLinkageClasses, IsTrueOf};
ghost use Rattle.crn_cert.specs.Valid.{linkage, linkage_count};
ghost use Rattle.crn_cert.specs.Answered.{IsAnswer};
ghost use Rattle.crn_solve.specs.Inner.Answered.{IsRankOrOpen};

use crate::open::rests_on;
use crate::parts::{is_yes, rank_of};
use crn_cert::{Answer, Verdict};
use crn_defi::zero_hypotheses;
use crn_graph::LinkageData;
use crn_net::Network;

/// Question 9: the hypotheses of the Deficiency Zero Theorem, which rest on the rank.
pub(crate) fn zero_answer(
    net: &Network,
    classes: &LinkageData,
    weak: &Verdict,
    rank: &Verdict,
) -> Answer
    requires classes { AreLinkageClasses net.now classes.now.count classes.now.label.list }
    requires weak { IsTrueOf net.now Q4 weak.now }
    requires rank { IsRankOrOpen net.now rank.now }
    ensures { (budget : ℕ) (earlier : Earlier) →
        linkage earlier ≡ classes.now.label.list → linkage_count earlier ≡ classes.now.count →
        on earlier Q4 ≡ tight weak.now → on earlier Q5 ≡ tight rank.now →
        IsAnswer net.now budget earlier Q9 result }
{
    match rank_of(rank) {
        Some(rank) => zero_hypotheses(net, classes, is_yes(weak), rank),
        None => rests_on(5),
    }
}
