ghost use Rattle.std.specs.Prelude.{length, MatchOption, IfSome};
ghost use Rattle.crn_vec.specs.Deficiency.{HasOneTerminalEach, IsFirstSplitClass};
ghost use Rattle.crn_cert.specs.Ranges.{IsFrom};
ghost use Rattle.crn_cert.specs.Questions.{Earlier};
ghost use Rattle.crn_cert.specs.Says.{AreLinkageClasses, AreStrongClasses};
ghost use Rattle.crn_cert.specs.ClassTests.{DoLevelsFall};
ghost use Rattle.crn_cert.specs.Valid.{HaveOneEach, IsFirstSplit};
ghost use Rattle.crn_cert.specs.Given.{GiveClasses};

use crate::terminals::first_with_more;
use crn_graph::{LinkageData, StrongData};
use crn_net::Network;

/// The least linkage class with several terminal strong classes, counted from 1, and how many it has.
///
/// This is the first hypothesis of the Deficiency One Theorem, and the first condition on a regular network.
pub fn first_split(net: &Network, linkage: &LinkageData, strong: &StrongData) -> Option<(u32, u32)>
    requires classes { AreLinkageClasses net.now linkage.now.count linkage.now.label.list }
    requires strong_classes { AreStrongClasses net.now strong.now.count strong.now.terminal
        strong.now.label.list strong.now.exit.list }
    requires levels { DoLevelsFall net.now strong.now.label.list strong.now.level.list }
    ensures split { MatchOption result (HasOneTerminalEach net.now)
        (λ found. IsFirstSplitClass net.now found.0 found.1) }
    ensures tests { (earlier : Earlier) →
        GiveClasses earlier linkage.now.label.list linkage.now.count strong.now.label.list
        strong.now.exit.list →
        MatchOption result (HaveOneEach earlier) (λ found. IsFirstSplit earlier found.0 found.1) }
    ensures class { IfSome result (λ found. IsFrom 1 linkage.now.count found.0) }
    ensures number { IfSome result (λ found. IsFrom 2 (length net.now.complexes) found.1) }
{
    net.meets_definition();
    first_with_more(
        strong.label.as_slice(),
        strong.exit.as_slice(),
        linkage.label.as_slice(),
        linkage.count,
    )
}
