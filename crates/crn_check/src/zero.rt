ghost use Rattle.std.specs.Prelude.{◌≡◌, ◌↔◌, IsTrue, Some};
ghost use Rattle.crn_cert.specs.Questions.{Q4, Q5, IsYes, on, rank_of};
ghost use Rattle.crn_cert.specs.Valid.{IsLeft, zero_head};
ghost use Rattle.crn_check.specs.Check.{Judges};
ghost use Rattle.crn_check.specs.Facts.{HoldsOn};
ghost use Rattle.crn_check.specs.Inner.Tests.{case_tests, total_tests};

use crate::deficiency::{is_left, rank_in};
use crate::facts::Facts;
use crate::fault::CheckFault;
use crate::kinds::is_yes;
use crn_cert::Verdict;
use crn_net::Network;

// Whether the case of a yes is that of the network.
fn is_case(facts: &Facts, weak: bool) -> bool
    requires held { HoldsOn facts.now.earlier 4 }
    ensures { IsTrue result ↔ (IsTrue weak ↔ IsYes (on facts.now.earlier Q4)) }
{
    weak == is_yes(facts.verdict(4))
}

// The tests of a yes.
fn check_case(net: &Network, facts: &Facts, weak: bool) -> Result<(), CheckFault>
    requires linkage { HoldsOn facts.now.earlier 1 }
    requires weak { HoldsOn facts.now.earlier 4 }
    requires rank { HoldsOn facts.now.earlier 5 }
    ensures { Judges (case_tests net.now facts.now.earlier weak) result }
{
    match rank_in(facts.verdict(5)) {
        None => Err(CheckFault { code: 37, part: 0 }),
        Some(rank) => {
            if !is_left(net, facts, 0, rank) || !is_case(facts, weak) {
                return Err(CheckFault { code: 37, part: 0 });
            }
            Ok(())
        }
    }
}

// The tests of a no, which names the deficiency.
fn check_total(net: &Network, facts: &Facts, total: u32) -> Result<(), CheckFault>
    requires linkage { HoldsOn facts.now.earlier 1 }
    requires rank { HoldsOn facts.now.earlier 5 }
    ensures { Judges (total_tests net.now facts.now.earlier total) result }
{
    match rank_in(facts.verdict(5)) {
        None => Err(CheckFault { code: 37, part: 0 }),
        Some(rank) => {
            if !is_left(net, facts, total, rank) {
                return Err(CheckFault { code: 36, part: 0 });
            }
            Ok(())
        }
    }
}

// The tests of a head on the Deficiency Zero Theorem.
pub(crate) fn check_zero_head(
    net: &Network,
    facts: &Facts,
    verdict: &Verdict,
) -> Result<(), CheckFault>
    requires linkage { HoldsOn facts.now.earlier 1 }
    requires weak { HoldsOn facts.now.earlier 4 }
    requires rank { HoldsOn facts.now.earlier 5 }
    ensures { Judges (zero_head net.now facts.now.earlier verdict.now) result }
{
    match verdict {
        Verdict::YesWeak { weak } => check_case(net, facts, *weak),
        Verdict::NoNumber { number } => check_total(net, facts, *number),
        _ => Ok(()),
    }
}
