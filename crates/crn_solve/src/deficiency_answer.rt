ghost use Rattle.std.specs.Prelude.{◌≡◌, ℕ, IfOk};
ghost use Rattle.crn_cert.specs.Verdicts.{tight};
ghost use Rattle.crn_cert.specs.Questions.{Earlier, Q5, Q6, on};
ghost use Rattle.crn_cert.specs.Says.{AreLinkageClasses};
ghost use Rattle.crn_cert.specs.Valid.{linkage, linkage_count};
ghost use Rattle.crn_cert.specs.Answered.{IsAnswer};
ghost use Rattle.crn_solve.specs.Inner.Answered.{IsRankOrOpen};

use crate::open::rests_on;
use crate::parts::rank_of;
use crn_cert::{Answer, Verdict};
use crn_defi::deficiencies;
use crn_graph::LinkageData;
use crn_net::Network;
use crn_vec::NoMemory;
use std::alloc::Global;

/// Question 6: the deficiencies of the network and of its linkage classes, which rest on the rank.
pub(crate) fn deficiency_answer(
    alloc: Global,
    net: &Network,
    classes: &LinkageData,
    rank: &Verdict,
) -> Result<Answer, NoMemory>
    requires classes { AreLinkageClasses net.now classes.now.count classes.now.label.list }
    requires rank { IsRankOrOpen net.now rank.now }
    ensures { IfOk result (λ answer. (budget : ℕ) (earlier : Earlier) →
        linkage earlier ≡ classes.now.label.list → linkage_count earlier ≡ classes.now.count →
        on earlier Q5 ≡ tight rank.now → IsAnswer net.now budget earlier Q6 answer) }
{
    match rank_of(rank) {
        Some(rank) => deficiencies(alloc, net, classes, rank),
        None => Ok(rests_on(5)),
    }
}
