ghost use Rattle.std.specs.Prelude.{◌≡◌, ◌↔◌, ℕ, IfOk, IsTrue};
ghost use Rattle.crn_vec.specs.Strong.{IsWeaklyReversible};
ghost use Rattle.crn_vec.specs.Confluence.{IsRegular};
ghost use Rattle.crn_vec.specs.NetSystems.{confluence_system};
ghost use Rattle.crn_cert.specs.Questions.{Earlier, Q4, Q11, Q12, on, IsYes};
ghost use Rattle.crn_cert.specs.Says.{AreLinkageClasses, AreStrongClasses};
ghost use Rattle.crn_cert.specs.Answered.{IsAnswer};
ghost use Rattle.crn_cert.specs.Given.{GiveClasses};
ghost use Rattle.crn_reg.specs.Inner.Spaces.{GivesSpace};

use crate::matrix::confluence_matrix;
use crate::normal::normal_vector;
use crate::space::{Space, find_space};
use crn_cert::{Answer, Gap, Proof, Verdict};
use crn_farkas::Stop;
use crn_graph::{LinkageData, StrongData};
use crn_net::Network;
use crn_vec::NoMemory;
use std::alloc::Global;

// The answer that the solutions of the confluence system give.
fn answer_of(
    _net: &Network,
    _linkage: &LinkageData,
    strong: &StrongData,
    weak: bool,
    space: Space,
) -> Answer
    requires classes { AreLinkageClasses _net.now _linkage.now.count _linkage.now.label.list }
    requires strong_classes { AreStrongClasses _net.now strong.now.count strong.now.terminal
        strong.now.label.list strong.now.exit.list }
    requires regular { IsRegular _net.now }
    requires weak { IsTrue weak ↔ IsWeaklyReversible _net.now.reactions }
    requires space { GivesSpace
        (confluence_system _net.now _linkage.now.label.list _linkage.now.count) space }
    ensures { (budget : ℕ) (earlier : Earlier) →
        GiveClasses earlier _linkage.now.label.list _linkage.now.count strong.now.label.list
        strong.now.exit.list →
        IsYes (on earlier Q11) →
        (IsTrue weak ↔ IsYes (on earlier Q4)) →
        IsAnswer _net.now budget earlier Q12 result }
{
    _net.meets_definition();
    match space {
        Space::Zero { ties } => Answer {
            verdict: Verdict::OnlyZero,
            proof: Proof::Ties(ties),
        },
        Space::Line { vector, ties } => Answer {
            verdict: Verdict::YesVec {
                vector: normal_vector(
                    vector,
                    strong.label.as_slice(),
                    strong.exit.as_slice(),
                    weak,
                ),
            },
            proof: Proof::Ties(ties),
        },
        Space::Plane {
            first,
            second,
            one,
            two,
        } => Answer::plain(Verdict::Plane {
            first,
            second,
            one,
            two,
        }),
    }
}

/// Question 12 of a regular network: its normal confluence vector, or why there is none.
///
/// It is open only if the confluence system is wide. Ties are in the order of the complexes.
pub fn confluence(
    alloc: Global,
    net: &Network,
    linkage: &LinkageData,
    strong: &StrongData,
    weak: bool,
) -> Result<Answer, NoMemory>
    requires classes { AreLinkageClasses net.now linkage.now.count linkage.now.label.list }
    requires strong_classes { AreStrongClasses net.now strong.now.count strong.now.terminal
        strong.now.label.list strong.now.exit.list }
    requires regular { IsRegular net.now }
    requires weak { IsTrue weak ↔ IsWeaklyReversible net.now.reactions }
    ensures { IfOk result (λ answer. (budget : ℕ) (earlier : Earlier) →
        GiveClasses earlier linkage.now.label.list linkage.now.count strong.now.label.list
        strong.now.exit.list →
        IsYes (on earlier Q11) →
        (IsTrue weak ↔ IsYes (on earlier Q4)) →
        IsAnswer net.now budget earlier Q12 answer) }
{
    net.meets_definition();
    let matrix = confluence_matrix(alloc, net, linkage.label.as_slice(), linkage.count)?;
    match find_space(alloc, &matrix) {
        Ok(space) => Ok(answer_of(net, linkage, strong, weak, space)),
        Err(Stop::Wide { index, basis }) => Ok(Answer::plain(Verdict::Unknown(Gap::Wide {
            system: 4,
            class: 0,
            index,
            basis,
        }))),
        Err(Stop::NoMemory) => Err(NoMemory),
    }
}
