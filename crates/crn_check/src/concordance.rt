ghost use Rattle.std.specs.Prelude.{◌⊎◌, length};
ghost use Rattle.crn_cert.specs.Formed.{IsFormedOf};
ghost use Rattle.crn_cert.specs.Questions.{Earlier, Q14, Q15};
ghost use Rattle.crn_cert.specs.Ranges.{AreFree};
ghost use Rattle.crn_cert.specs.Valid.{table_rows};
ghost use Rattle.crn_ctree.specs.Problem.{table_of};
ghost use Rattle.crn_check.specs.Check.{HoldsNoTree, Judges};
ghost use Rattle.crn_check.specs.Inner.Tests.{pair_tests};

use crate::fault::CheckFault;
use crn_cert::{Proof, Verdict};
use crn_ctree::{InfluenceTable, check_pair};
use crn_net::Network;

// The test of two lists that show a table discordant.
fn check_lists(
    net: &Network,
    table: InfluenceTable,
    alpha: &[i128],
    weights: &[i128],
) -> Result<(), CheckFault>
    requires alpha { AreFree (length net.now.reactions) alpha.now }
    requires weights { AreFree (length net.now.reactions) weights.now }
    ensures { Judges (pair_tests net.now (table_of net.now table) alpha.now weights.now) result }
{
    if !check_pair(net, table, alpha, weights) {
        return Err(CheckFault { code: 45, part: 2 });
    }
    Ok(())
}

// The tests of the records on concordance that are no tree: two lists.
pub(crate) fn check_concordance(
    net: &Network,
    table: InfluenceTable,
    verdict: &Verdict,
    proof: &Proof,
) -> Result<(), CheckFault>
    requires formed { (earlier : Earlier)
        × (IsFormedOf net.now earlier Q14 verdict.now proof.now
        ⊎ IsFormedOf net.now earlier Q15 verdict.now proof.now) }
    requires treeless { HoldsNoTree proof.now }
    ensures { Judges (table_rows net.now (table_of net.now table) verdict.now proof.now) result }
{
    let _ = proof;
    match verdict {
        Verdict::NoPair { alpha, weights } => {
            check_lists(net, table, alpha.as_slice(), weights.as_slice())
        }
        _ => Ok(()),
    }
}
