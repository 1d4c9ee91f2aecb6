ghost use Rattle.crn_cert.specs.Formed.{HeadMayBe, IsFormedOf};
ghost use Rattle.crn_cert.specs.Questions.{Earlier, Q3};
ghost use Rattle.crn_cert.specs.Valid.{reversible_head, reversible_rows};
ghost use Rattle.crn_check.specs.Check.{Judges};

use crate::fault::CheckFault;
use crate::reverses::{are_reverses, has_no_reverse};
use crn_cert::{Proof, Verdict};
use crn_net::Network;

// The test of a head on reversibility.
pub(crate) fn check_reversible_head(net: &Network, verdict: &Verdict) -> Result<(), CheckFault>
    requires { (earlier : Earlier) × HeadMayBe net.now earlier Q3 verdict.now }
    ensures { Judges (reversible_head net.now verdict.now) result }
{
    if let Verdict::NoReaction { reaction } = verdict {
        if !has_no_reverse(net, *reaction) {
            return Err(CheckFault { code: 37, part: 0 });
        }
    }
    Ok(())
}

// The test of the reverses.
pub(crate) fn check_reverses(
    net: &Network,
    verdict: &Verdict,
    proof: &Proof,
) -> Result<(), CheckFault>
    requires { (earlier : Earlier)
        × IsFormedOf net.now earlier Q3 verdict.now proof.now }
    ensures { Judges (reversible_rows net.now verdict.now proof.now) result }
{
    match (verdict, proof) {
        (Verdict::Yes, Proof::Back(back)) => {
            if !are_reverses(net, back.as_slice()) {
                return Err(CheckFault { code: 32, part: 1 });
            }
            Ok(())
        }
        _ => Ok(()),
    }
}
