ghost use Rattle.std.specs.Prelude.{◌≡◌, ℕ, List, IfOk};
ghost use Rattle.crn_cert.specs.Verdicts.{tight};
ghost use Rattle.crn_cert.specs.Questions.{Earlier, Q7, Q11, on};
ghost use Rattle.crn_cert.specs.Says.{AreLinkageClasses, AreStrongClasses};
ghost use Rattle.crn_cert.specs.ClassTests.{DoLevelsFall};
ghost use Rattle.crn_cert.specs.Law.{IsTrueOrOpen};
ghost use Rattle.crn_cert.specs.Answered.{IsAnswer};
ghost use Rattle.crn_cert.specs.Given.{GiveClasses};
ghost use Rattle.crn_reg.specs.Inner.Verdicts.{by_dependence};

use crate::pairs::pairs;
use crate::sides::{Sides, find_sides};
use crn_cert::{Answer, Gap, Proof, Rows, Verdict};
use crn_defi::first_split;
use crn_graph::{LinkageData, StrongData};
use crn_net::Network;
use crn_vec::NoMemory;
use std::alloc::Global;

// The answer if each linkage class has one terminal strong class and all pairs have sides: a yes, or open.
fn by_dependence(q7: &Verdict, sides: Rows) -> Answer
    ensures { result ≡ by_dependence q7.now sides }
{
    match q7 {
        Verdict::YesVec { .. } => Answer {
            verdict: Verdict::Yes,
            proof: Proof::Sides(sides),
        },
        _ => Answer::plain(Verdict::Unknown(Gap::Rests { question: 7 })),
    }
}

/// Question 11: the network is regular, or the first condition that fails.
///
/// They are, in order: each linkage class has one terminal strong class, the network is positively dependent, and the
/// linked pairs within terminal strong classes are cut pairs. If question 7 is open, so is this one, unless some class
/// has several terminal strong classes or some pair is no cut pair. Sides are in the order of the pairs' least reactions.
pub fn regular(
    alloc: Global,
    net: &Network,
    linkage: &LinkageData,
    strong: &StrongData,
    q7: &Verdict,
) -> Result<Answer, NoMemory>
    requires classes { AreLinkageClasses net.now linkage.now.count linkage.now.label.list }
    requires strong_classes { AreStrongClasses net.now strong.now.count strong.now.terminal
        strong.now.label.list strong.now.exit.list }
    requires levels { DoLevelsFall net.now strong.now.label.list strong.now.level.list }
    requires q7 { IsTrueOrOpen net.now Q7 q7.now }
    ensures { IfOk result (λ answer. (budget : ℕ) (earlier : Earlier) →
        GiveClasses earlier linkage.now.label.list linkage.now.count strong.now.label.list
        strong.now.exit.list →
        on earlier Q7 ≡ tight q7.now →
        IsAnswer net.now budget earlier Q11 answer) }
{
    net.meets_definition();
    if let Some((class, count)) = first_split(net, linkage, strong) {
        return Ok(Answer::plain(Verdict::NoTerminal { class, count }));
    }
    if let Verdict::NoVec { .. } = q7 {
        return Ok(Answer::plain(Verdict::NoDependence));
    }
    let pairs = pairs(alloc, net, strong)?;
    match find_sides(alloc, net, &pairs)? {
        Sides::Cycle { reaction, walk } => Ok(Answer::plain(Verdict::NoCycle { reaction, walk })),
        Sides::All(sides) => Ok(by_dependence(q7, sides)),
    }
}
