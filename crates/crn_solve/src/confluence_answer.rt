ghost use Rattle.std.specs.Prelude.{◌≡◌, ℕ, IfOk};
ghost use Rattle.crn_cert.specs.Verdicts.{tight};
ghost use Rattle.crn_cert.specs.Questions.{Earlier, Q4, Q11, Q12, on};
ghost use Rattle.crn_cert.specs.Says.{AreLinkageClasses, AreStrongClasses, IsTrueOf};
ghost use Rattle.crn_cert.specs.Law.{IsTrueOrOpen};
ghost use Rattle.crn_cert.specs.Given.{GiveClasses};
ghost use Rattle.crn_cert.specs.Answered.{IsAnswer};

use crate::open::rests_on;
use crate::parts::{is_open, is_yes};
use crn_cert::{Answer, Verdict};
use crn_graph::{LinkageData, StrongData};
use crn_net::Network;
use crn_reg::confluence;
use crn_vec::NoMemory;
use std::alloc::Global;

/// Question 12: the normal confluence vector of a regular network, or why there is none, which rests on question 11.
pub(crate) fn confluence_answer(
    alloc: Global,
    net: &Network,
    linkage: &LinkageData,
    strong: &StrongData,
    weak: &Verdict,
    regular: &Verdict,
) -> Result<Answer, NoMemory>
    requires classes { AreLinkageClasses net.now linkage.now.count linkage.now.label.list }
    requires strong_classes { AreStrongClasses net.now strong.now.count strong.now.terminal
        strong.now.label.list strong.now.exit.list }
    requires weak { IsTrueOf net.now Q4 weak.now }
    requires regular { IsTrueOrOpen net.now Q11 regular.now }
    ensures { IfOk result (λ answer. (budget : ℕ) (earlier : Earlier) →
        GiveClasses earlier linkage.now.label.list linkage.now.count strong.now.label.list
        strong.now.exit.list →
        on earlier Q4 ≡ tight weak.now → on earlier Q11 ≡ tight regular.now →
        IsAnswer net.now budget earlier Q12 answer) }
{
    net.meets_definition();
    if is_yes(regular) {
        return confluence(alloc, net, linkage, strong, is_yes(weak));
    }
    if is_open(regular) {
        return Ok(rests_on(11));
    }
    Ok(Answer::plain(Verdict::NotRegular))
}
